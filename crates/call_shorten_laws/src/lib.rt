// What is true of the code that the shorten call leaves, and of its routes: specifications and proofs alone.
#![tactic(auto)]
