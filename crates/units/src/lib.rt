// Units: each is read against the outputs of the units before it.
#![tactic(auto)]

mod outputs;
mod run;
mod shape;
mod unit;

pub use outputs::REMEMBERED;
pub use run::read_units;
