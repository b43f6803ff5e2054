// SynthDef files: a definition whole, and a file whole.
#![tactic(auto)]

mod definition;
mod file;

pub use definition::{encoded_size, read_definition};
pub use file::{check_file, width_of};
