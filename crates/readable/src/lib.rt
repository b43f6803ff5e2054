// Lookups in a definition whose front is known to be readable. They go straight to a place, and validate nothing.
#![tactic(auto)]

mod cover;
mod entries;
mod labelled;
mod lookups;
mod own;
mod places;

pub use cover::Cover;
pub use labelled::labels;
pub use lookups::{name, name_cover, parameters, units, values};
pub use own::own_labels;
