// The node table in the lent node region: looking at it and changing it, with the count by value in and out.
#![tactic(auto)]

mod action;
mod add;
mod change;
mod deep;
mod moves;
mod rows;
mod runs;
mod search;
mod structure;

pub use action::{Action, Position};
pub use add::{Gap, Place, fill_gap, gap_by, place_by};
pub use change::{cut, cut_below, set_run};
pub use deep::deep_free;
pub use moves::move_to;
pub use rows::{free_row, free_row_without};
pub use search::subtree_end;
pub use structure::{head_of, lies_below, next_of, parent_of, previous_of, tail_of};
