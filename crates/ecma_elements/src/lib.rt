// ECMA-262's rules on class elements and object literals, and that the findings are theirs: definitions and laws only.
#![tactic(auto)]
