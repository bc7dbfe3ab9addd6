// What the rules of several clauses of ECMA-262 rest on: definitions and laws only.
#![tactic(auto)]
