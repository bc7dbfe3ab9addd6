// Laws of lists of nodes; no function of its own.
#![tactic(auto)]
