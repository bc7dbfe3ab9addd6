// Each clash of two class elements gives its one finding, and nothing else does; no function of its own.
#![tactic(auto)]
