// The command that makes a synth, and every command of the tree kind by its own function.
#![tactic(auto)]

mod checks;
mod numbers;
mod rows;
mod step;
mod synth;

pub use step::tree_step;
pub use synth::new_synth;
