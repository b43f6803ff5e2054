// The commands of the tree, behind the state check: each refuses by its row of the table, or changes the tree's parts of the words.
#![tactic(auto)]

mod adding;
mod finish;
mod free;
mod group;
mod indexing;
mod moves;
mod ordering;
mod place;

pub use adding::{bad_target, is_full};
pub use finish::settle;
pub use free::{deep_free, free_all, free_node, run_node};
pub use group::new_group;
pub use moves::{move_after, move_before, move_head, move_tail};
pub use place::is_synth;
