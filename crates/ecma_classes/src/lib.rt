// ECMA-262's rules on classes, object literals, private names and `super`, and that the findings are theirs: see specs/.
#![tactic(auto)]
