// Labels, break and continue as ECMA-262 has them, and the findings: definitions and laws only.
#![tactic(auto)]
