// The findings of two rules of which one is the other with its labels renamed are equal; no function of its own.
#![tactic(auto)]
