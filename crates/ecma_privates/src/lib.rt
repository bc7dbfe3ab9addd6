// ECMA-262's rules on private names, and that the findings are theirs: definitions and laws only.
#![tactic(auto)]
