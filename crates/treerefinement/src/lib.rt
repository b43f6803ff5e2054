// Laws only: the node table is the plain tree laid out, and every edit of the one is the edit of the other. They stand in specs/.
#![tactic(auto)]
