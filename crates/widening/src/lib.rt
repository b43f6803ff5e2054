// The version 2 encoding of a definition, from the bytes of either version that it was read from.
#![tactic(auto)]

mod definition;
mod fronts;
mod pieces;
mod places;
mod unit;

pub use definition::widen;
pub use places::Places;
