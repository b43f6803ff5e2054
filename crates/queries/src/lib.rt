// The queries, behind the state check: they take the state as `&` and write nothing but the reply.
#![tactic(auto)]

mod bus;
mod control;
mod node;
mod status;

pub use bus::bus_query;
pub use control::control_query;
pub use node::node_query;
pub use status::status_query;
