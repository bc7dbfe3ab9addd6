// Laws of a unit's statements with `try` and static blocks: each break and continue has its target there.
#![tactic(auto)]
