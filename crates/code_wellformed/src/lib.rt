// What well-formed tables give the code maker.
#![tactic(auto)]
