// The table of addresses and tags in code: a match on the op for the slots and one for the addresses, with a line for each row.
ghost use Rattle.std.specs.Prelude.{◌-◌, ◌≡◌, length, slice_get};
ghost use Rattle.format.specs.Fields.{word};
ghost use Rattle.messages.specs.Rows.{slots_of, address_of, slots_for, address_for};

use crate::Slot;
use crate::Slot::{File, Name, NumberA, NumberB, NumberC, Value};
use calls::ops;

// The slots of a row, from its first on.
// Kept: four fields and no array, which would be laid out on the stack at each use where it is indexed (docs/SPEED.md).
#[derive(Clone, Copy)]
pub struct Slots(Option<Slot>, Option<Slot>, Option<Slot>, Option<Slot>);

// The address of a row: its length, and four bytes at a time as a number, the first one the highest: the first four, the next and those behind
// them, with zeros past its last byte, and its last four.
#[derive(Clone, Copy)]
pub struct Address {
    pub size: usize,
    pub start: u32,
    pub middle: u32,
    pub third: u32,
    pub end: u32,
}

// The slots of an op; none where it has no row.
#[tactic(auto, unfolding(crate::specs::Rows::slots_of, crate::specs::Write::row_from))]
fn slots_of(op: u32) -> Slots
    ensures { result ≡ slots_for (slots_of op) }
{
    match op {
        ops::D_RECV => Slots(Some(File), None, None, None),
        ops::D_FREE => Slots(Some(Name), None, None, None),
        ops::S_NEW => Slots(Some(Name), Some(NumberA), Some(NumberB), Some(NumberC)),
        ops::G_NEW => Slots(Some(NumberA), Some(NumberB), Some(NumberC), None),
        ops::N_FREE => Slots(Some(NumberA), None, None, None),
        ops::G_FREE_ALL => Slots(Some(NumberA), None, None, None),
        ops::G_DEEP_FREE => Slots(Some(NumberA), None, None, None),
        ops::N_BEFORE => Slots(Some(NumberA), Some(NumberB), None, None),
        ops::N_AFTER => Slots(Some(NumberA), Some(NumberB), None, None),
        ops::G_HEAD => Slots(Some(NumberA), Some(NumberB), None, None),
        ops::G_TAIL => Slots(Some(NumberA), Some(NumberB), None, None),
        ops::N_RUN => Slots(Some(NumberA), Some(NumberB), None, None),
        ops::N_SET => Slots(Some(NumberA), Some(NumberB), Some(Value), None),
        ops::N_SET_NAMED => Slots(Some(NumberA), Some(Name), Some(Value), None),
        ops::N_FILL => Slots(Some(NumberA), Some(NumberB), Some(NumberC), Some(Value)),
        ops::N_FILL_NAMED => Slots(Some(NumberA), Some(Name), Some(NumberC), Some(Value)),
        ops::N_MAP => Slots(Some(NumberA), Some(NumberB), Some(NumberC), None),
        ops::N_MAP_NAMED => Slots(Some(NumberA), Some(Name), Some(NumberC), None),
        ops::C_SET => Slots(Some(NumberA), Some(Value), None, None),
        ops::C_FILL => Slots(Some(NumberA), Some(NumberC), Some(Value), None),
        ops::S_GET => Slots(Some(NumberA), Some(NumberB), None, None),
        ops::S_GET_NAMED => Slots(Some(NumberA), Some(Name), None, None),
        ops::C_GET => Slots(Some(NumberA), None, None, None),
        ops::N_QUERY => Slots(Some(NumberA), None, None, None),
        ops::G_QUERY_TREE => Slots(Some(NumberA), Some(NumberB), None, None),
        ops::STATUS => Slots(None, None, None, None),
        _ => Slots(None, None, None, None),
    }
}

// An address by its numbers.
fn row(size: usize, start: u32, middle: u32, third: u32, end: u32) -> Address
    ensures { result ≡ record { size = size; start = start; middle = middle; third = third; end = end } }
{
    Address {
        size,
        start,
        middle,
        third,
        end,
    }
}

// The address of an op; all 0 where it has none.
#[tactic(auto, unfolding(crate::specs::Rows::address_of, crate::specs::Write::row_from))]
fn address_of(op: u32) -> Address
    ensures { result ≡ address_for (address_of op) }
{
    match op {
        ops::D_RECV => row(7, 0x2f645f72, 0x65637600, 0, 0x72656376),
        ops::D_FREE => row(7, 0x2f645f66, 0x72656500, 0, 0x66726565),
        ops::S_NEW => row(6, 0x2f735f6e, 0x65770000, 0, 0x5f6e6577),
        ops::G_NEW => row(6, 0x2f675f6e, 0x65770000, 0, 0x5f6e6577),
        ops::N_FREE => row(7, 0x2f6e5f66, 0x72656500, 0, 0x66726565),
        ops::G_FREE_ALL => row(10, 0x2f675f66, 0x72656541, 0x6c6c0000, 0x65416c6c),
        ops::G_DEEP_FREE => row(11, 0x2f675f64, 0x65657046, 0x72656500, 0x46726565),
        ops::N_BEFORE => row(9, 0x2f6e5f62, 0x65666f72, 0x65000000, 0x666f7265),
        ops::N_AFTER => row(8, 0x2f6e5f61, 0x66746572, 0, 0x66746572),
        ops::G_HEAD => row(7, 0x2f675f68, 0x65616400, 0, 0x68656164),
        ops::G_TAIL => row(7, 0x2f675f74, 0x61696c00, 0, 0x7461696c),
        ops::N_RUN => row(6, 0x2f6e5f72, 0x756e0000, 0, 0x5f72756e),
        ops::N_SET => row(6, 0x2f6e5f73, 0x65740000, 0, 0x5f736574),
        ops::N_SET_NAMED => row(6, 0x2f6e5f73, 0x65740000, 0, 0x5f736574),
        ops::N_FILL => row(7, 0x2f6e5f66, 0x696c6c00, 0, 0x66696c6c),
        ops::N_FILL_NAMED => row(7, 0x2f6e5f66, 0x696c6c00, 0, 0x66696c6c),
        ops::N_MAP => row(6, 0x2f6e5f6d, 0x61700000, 0, 0x5f6d6170),
        ops::N_MAP_NAMED => row(6, 0x2f6e5f6d, 0x61700000, 0, 0x5f6d6170),
        ops::C_SET => row(6, 0x2f635f73, 0x65740000, 0, 0x5f736574),
        ops::C_FILL => row(7, 0x2f635f66, 0x696c6c00, 0, 0x66696c6c),
        ops::S_GET => row(6, 0x2f735f67, 0x65740000, 0, 0x5f676574),
        ops::S_GET_NAMED => row(6, 0x2f735f67, 0x65740000, 0, 0x5f676574),
        ops::C_GET => row(6, 0x2f635f67, 0x65740000, 0, 0x5f676574),
        ops::N_QUERY => row(8, 0x2f6e5f71, 0x75657279, 0, 0x75657279),
        ops::G_QUERY_TREE => row(12, 0x2f675f71, 0x75657279, 0x54726565, 0x54726565),
        ops::STATUS => row(7, 0x2f737461, 0x74757300, 0, 0x61747573),
        _ => row(0, 0, 0, 0, 0),
    }
}

// The slot k of an op's row; none past its last slot, and where the op has no row.
pub fn slot_at(op: u32, k: usize) -> Option<Slot>
    ensures { result ≡ slice_get (slots_of op) k }
{
    match k {
        0 => slots_of(op).0,
        1 => slots_of(op).1,
        2 => slots_of(op).2,
        3 => slots_of(op).3,
        _ => None,
    }
}

// The length of the address of an op's row; 0 where it has none.
pub fn address_length(op: u32) -> usize
    ensures { result ≡ length (address_of op) }
{
    address_of(op).size
}

// The first four bytes of an op's address as a number, the first one the highest.
pub fn address_start(op: u32) -> u32
    ensures { result ≡ word (address_of op) 0 }
{
    address_of(op).start
}

// The next four; zeros stand past the address's last byte.
pub fn address_middle(op: u32) -> u32
    ensures { result ≡ word (address_of op) 4 }
{
    address_of(op).middle
}

// The four behind them.
pub fn address_third(op: u32) -> u32
    ensures { result ≡ word (address_of op) 8 }
{
    address_of(op).third
}

// The last four.
pub fn address_end(op: u32) -> u32
    ensures { result ≡ word (address_of op) (length (address_of op) - 4) }
{
    address_of(op).end
}
