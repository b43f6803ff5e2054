// Commands as OSC messages, read and written.
#![tactic(auto)]

use model::Command;

mod table;

pub use table::{
    address_end, address_length, address_middle, address_start, address_third, slot_at,
};

// Where an argument of a message stands in the call of its command.
#[derive(Clone, Copy, Debug, PartialEq, Eq)]
pub enum Slot {
    // i: the number a, b or c.
    NumberA,
    NumberB,
    NumberC,
    // f or i: a value, whose kind is d and whose pattern is e.
    Value,
    // s: the name beside the command.
    Name,
    // b: the file beside the command.
    File,
}

// What a message stands for: a command, and where the name or the file beside it starts and ends in the message.
#[derive(Clone, Copy)]
pub struct Received {
    pub command: Command,
    pub start: usize,
    pub end: usize,
}
