// The index after an edit of the table, in place: each entry goes where its node went, and a new node's is put in.
#![tactic(auto)]

mod edit;
mod follow;
mod kept;
mod one;
mod run;
mod spot;

pub use edit::Edit;
pub use follow::follow_edit;
pub use kept::{follow_places, kept_places};
pub use spot::{put_entry, spot_of};
