// Why a node is silent: the state check, and then the reason of the node that a number names.
#![tactic(auto)]

mod number;
mod place;
mod reasons;
mod sight;

// The first of these that is true: no such node, a group, off by its own flag, the number of the ancestor nearest the root that is off,
// or the place in the running order, from 1.
#[derive(Clone, Copy, Debug, PartialEq, Eq)]
pub enum Reason {
    NoNode,
    Group,
    Off,
    AncestorOff(u32),
    Running(u32),
}

pub use number::told_number;
pub use reasons::why;
