// Laws only: a step keeps a well-formed state well formed. They stand in specs/.
#![tactic(auto)]
