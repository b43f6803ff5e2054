// The index of the nodes: their places in the table by rising number, in the first words of a lent region.
#![tactic(auto)]

mod search;
mod step;

pub use search::{find_indexed, index_formed};
