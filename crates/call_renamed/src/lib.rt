// The calls answer and write the same for two rules of which one is the other with its labels renamed; no function of its own.
#![tactic(auto)]
