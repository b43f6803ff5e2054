// Laws only: reading what the writer wrote, and writing what was read. They stand in specs/Theorems.antt.
#![tactic(auto)]
