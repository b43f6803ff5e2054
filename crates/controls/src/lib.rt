// Controls and buses in the lent words: set, fill, map, read, and the state check's part on controls.
#![tactic(auto)]

mod asked;
mod buses;
mod control;
mod cover;
mod definition;
mod node;
mod synth;
mod table;

pub use asked::{controls_asked, controls_missing, read_control, read_key};
pub use buses::{fill_buses, is_bus, is_bus_range, set_bus};
pub use control::{Change, change_row};
pub use definition::{asked_by, asked_of, initial_row, key_cover, parameter_count};
pub use node::{node_definition, node_row, node_slot};
pub use synth::change_node;
pub use table::{change_all, controls_formed};
