// The exact length of a unit's code, as a sum over the unit's nodes.
#![tactic(auto)]
