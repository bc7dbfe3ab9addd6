// Early errors of literals and of delete, as ECMA-262 states them: definitions and laws only.
#![tactic(auto)]
