// Specs only: the flat code of a unit, the machine that runs it, and the proof that the run is what the unit does.
#![tactic(auto)]
