// The pass that makes a code shorter by a copy of it: what marking, sending on and closing up into a second slice come to. Specifications and proofs
// alone, which nothing calls: who has room for a copy can go by them, and the pass in one slice (code_pass) is compared with them.
#![tactic(auto)]
