// Where each completion of a node leads: a place of the code, and the depth of the pending ends there.
#![tactic(auto)]
