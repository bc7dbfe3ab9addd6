// Two node tables of which one is the other with its labels renamed, and what is read off both alike; no function of its own.
#![tactic(auto)]
