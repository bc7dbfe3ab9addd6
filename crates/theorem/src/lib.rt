// The three demands as one statement: see specs/Demands.antt.
#![tactic(auto)]
