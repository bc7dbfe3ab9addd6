// Which entries of a route take an answer, for units with `try` and static blocks.
#![tactic(auto)]
