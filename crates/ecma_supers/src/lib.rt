// ECMA-262's rules on `super`, and that the findings are theirs: definitions and laws only.
#![tactic(auto)]
