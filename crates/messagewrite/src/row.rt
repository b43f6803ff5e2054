// The slots of an op's row: how many there are, whether each takes what it is given, and the message's size.
ghost use Rattle.std.specs.Prelude.{◌≡◌, length};
ghost use Rattle.messages.specs.Rows.{slots_of};
ghost use Rattle.messages.specs.Write.{any_unfit};
ghost use Rattle.messagewrite.specs.Codes.{fitting};
ghost use Rattle.messagewrite.specs.Whole.{whole_size};

use crate::slot::{argument_size, fitting, is_unfit, slot};
use messages::{address_length, slot_at};
use osc::padded_length;

pub(crate) fn slot_count(op: u32) -> usize
    ensures { result ≡ length (slots_of op) }
{
    for k in 0..4 {
        if slot_at(op, k).is_none() {
            return k;
        }
    }
    4
}

// A name or a file that its slot does not take.
pub(crate) fn any_unfit(op: u32, count: usize, bytes: &[u8]) -> bool
    requires { count ≡ length (slots_of op) }
    ensures { result ≡ any_unfit bytes.now (slots_of op) }
{
    for k in 0..count {
        if is_unfit(slot(op, k), bytes) {
            return true;
        }
    }
    false
}

// The size of the message beside a name or a file of so many bytes; none where it is more than the room.
pub(crate) fn message_size(op: u32, count: usize, size: usize, room: usize) -> Option<usize>
    requires { count ≡ length (slots_of op) }
    ensures { result ≡ fitting (whole_size op size) room }
{
    let front = padded_length(address_length(op)) + padded_length(count + 1);
    let mut at = fitting(front, room)?;
    for k in 0..count {
        at += argument_size(slot(op, k), size, room - at)?;
    }
    Some(at)
}
