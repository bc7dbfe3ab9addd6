// Contains, ContainsArguments and BoundNames, as ECMA-262 states them, and the rules that they decide: definitions and laws only.
#![tactic(auto)]
