// Laws only: the engine and the plain tree go the same way. They stand in specs/.
#![tactic(auto)]
