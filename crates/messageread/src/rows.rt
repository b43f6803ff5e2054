// The op of an address and its tags.
ghost use Rattle.std.specs.Prelude.{◌≡◌};
ghost use Rattle.messages.specs.Table.{table, fit_all};
ghost use Rattle.messages.specs.Rows.{slots_of};
ghost use Rattle.messages.specs.Write.{row_of};
ghost use Rattle.messageread.specs.Lookup.{meets, op_from, takes_in};

use crate::address::{candidate, same_address};
use calls::ops;
use messages::{Slot, slot_at};

// There is a slot, and it takes an argument of a tag.
fn takes(slot: Option<Slot>, tag: u8) -> bool
    ensures { result ≡ takes_in slot tag }
{
    match slot {
        Some(Slot::NumberA) => tag == b'i',
        Some(Slot::NumberB) => tag == b'i',
        Some(Slot::NumberC) => tag == b'i',
        Some(Slot::Value) => tag == b'f' || tag == b'i',
        Some(Slot::Name) => tag == b's',
        Some(Slot::File) => tag == b'b',
        None => false,
    }
}

// The tags fit an op's slots, one for one.
fn fits(tags: &[u8], op: u32) -> bool
    ensures { result ≡ fit_all (slots_of op) tags.now }
{
    for (k, tag) in tags.iter().enumerate() {
        if !takes(slot_at(op, k), *tag) {
            return false;
        }
    }
    slot_at(op, tags.len()).is_none()
}

// An op's row has the address, and the tags fit its slots.
fn meets_row(address: &[u8], tags: &[u8], op: u32) -> bool
    ensures { result ≡ meets (row_of op) address.now tags.now }
{
    if op < 1 {
        return false;
    }
    if ops::LAST_WITH_ADDRESS < op {
        return false;
    }
    same_address(address, op) && fits(tags, op)
}

// The op of a message's address and tags, `NONE` where it has none.
// Kept: `NONE` is an op as the others are, without slots: the walk goes over the arguments by it, before the message is refused.
pub(crate) fn find(address: &[u8], tags: &[u8]) -> u32
    ensures { result ≡ op_from 1 table address.now tags.now }
{
    let first = candidate(address);
    if meets_row(address, tags, first) {
        return first;
    }
    let second = first + 1;
    if meets_row(address, tags, second) {
        return second;
    }
    ops::NONE
}
