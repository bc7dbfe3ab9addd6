// Where the words of each node of a unit stand, and which they are.
#![tactic(auto)]
