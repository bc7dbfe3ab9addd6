// No node stands twice in a unit's statements.
#![tactic(auto)]
