// The node record; the node table, the plain tree and their laws are in specs/.

// A node: the 32-bit pattern of its number, its depth (the root's is 0), its run flag, the slot of its
// definition (32 for a group) and its row of controls.
#![tactic(auto)]

#[derive(Clone, Copy, Debug, PartialEq, Eq)]
pub struct Node {
    pub number: u32,
    pub depth: u32,
    pub run: u32,
    pub slot: u32,
    pub row: u32,
}
