// Saved settings at the engine: a save of a synth's own floats, a recall into a synth, a drop of a version.
#![tactic(auto)]

mod dropping;
mod number;
mod recalling;
mod saving;
mod synth;
mod taken;

// The bytes of a float.
const FLOAT_SIZE: usize = 4;

pub use dropping::drop;
pub use number::saved_number;
pub use recalling::recall;
pub use saving::save;
