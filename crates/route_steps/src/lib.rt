// Specifications alone: which part a statement goes on with.
#![tactic(auto)]
