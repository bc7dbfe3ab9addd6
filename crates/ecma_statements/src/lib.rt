// Early errors of statements and of functions in statement position, as ECMA-262 states them: definitions and laws only.
#![tactic(auto)]
