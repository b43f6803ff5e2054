// The fields of a SynthDef file, read one by one.
#![tactic(auto)]

mod cursor;
mod many;
mod name;

pub use cursor::{Cursor, Reading, value_at, word_at};
pub use many::skip_many;
pub use name::{name_at, name_bytes, part, same_long, same_name};
