// Specs only: the findings against ECMA-262, all codes in one place.
#![tactic(auto)]
