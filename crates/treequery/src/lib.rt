// /g_queryTree, behind the state check.
#![tactic(auto)]

mod children;
mod count;
mod piece;
mod places;
mod row;
mod send;
mod shapes;
mod write;

pub use send::tree_query;
