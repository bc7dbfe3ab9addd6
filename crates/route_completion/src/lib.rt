// Specs only: the statement tree of a unit, and what it does by the completion rules of ECMA-262.
#![tactic(auto)]
