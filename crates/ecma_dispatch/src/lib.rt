// The findings of a node by their code: definitions and laws only.
#![tactic(auto)]
