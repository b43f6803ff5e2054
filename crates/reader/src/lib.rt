// A reader that holds the lent file and its place, and walks the definitions.
#![tactic(auto)]

mod places;
mod reader;

pub use places::place_after;
pub use reader::{Opened, Reader, definition_span, open};
