// Specifications alone: a run that is stopped under a mark and taken up again (specs/Claims.antt).
#![tactic(auto)]
