// Commands behind the state check, each kind by its own step.
#![tactic(auto)]

mod commands;
mod query;

pub use commands::step;
