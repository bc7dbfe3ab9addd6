// The states that the pass which makes a code shorter goes through, over one slice. Specifications alone.
#![tactic(auto)]
