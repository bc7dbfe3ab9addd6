// Well-formed tables stay so when their labels are renamed; no function of its own.
#![tactic(auto)]
