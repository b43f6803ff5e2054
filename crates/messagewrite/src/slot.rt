// One slot of a row: whether it takes what it is given, and its argument's size, tag and bytes.
ghost use Rattle.std.specs.Prelude.{ℕ, List, Some, ◌<◌, ◌≡◌, length, slice_get};
ghost use Rattle.osc.specs.Message.{tag_of, argument_bytes, padded_blob};
ghost use Rattle.words.specs.Parts.{over};
ghost use Rattle.messages.specs.Rows.{slots_of};
ghost use Rattle.messages.specs.Table.{give};
ghost use Rattle.messages.specs.Write.{unfit};
ghost use Rattle.messagewrite.specs.Codes.{size_by, given, fitting};
ghost use Rattle.messagewrite.specs.Pieces.{BlobRoom, ArgumentRoom};

use calls::Numbers;
use fields::name_bytes;
use messages::{Slot, slot_at};
use osc::{put_bytes, put_int, put_padded, put_zeros};

// The slot k of an op.
pub(crate) fn slot(op: u32, k: usize) -> Slot
    requires { k < length (slots_of op) }
    ensures { slice_get (slots_of op) k ≡ Some result }
{
    slot_at(op, k).unwrap()
}

// A name with a byte that is not 1 to 127, or a file of over 2,147,483,647 bytes.
pub(crate) fn is_unfit(slot: Slot, bytes: &[u8]) -> bool
    ensures { result ≡ unfit bytes.now slot }
{
    match slot {
        Slot::Name => !name_bytes(bytes, 0, bytes.len()),
        Slot::File => 2147483647 < bytes.len(),
        _ => false,
    }
}

// A size that has room.
pub(crate) fn fitting(size: usize, room: usize) -> Option<usize>
    ensures { result ≡ fitting size room }
{
    if size <= room { Some(size) } else { None }
}

// The size of an argument, beside a name or a file of so many bytes; none where it is more than the room.
pub(crate) fn argument_size(slot: Slot, size: usize, room: usize) -> Option<usize>
    ensures { result ≡ fitting (size_by slot size) room }
{
    match slot {
        Slot::Name => fitting(size.checked_add(4 - size % 4)?, room),
        Slot::File => fitting(size.checked_add(4 + (4 - size % 4) % 4)?, room),
        _ => fitting(4, room),
    }
}

// A value is a float where d is 0, else an integer.
pub(crate) fn argument_tag(numbers: Numbers, slot: Slot) -> u8
    ensures { (bytes : List ℕ) → result ≡ tag_of (give slot (given numbers bytes)) }
{
    match slot {
        Slot::NumberA => b'i',
        Slot::NumberB => b'i',
        Slot::NumberC => b'i',
        Slot::Value => { if numbers.d == 0 { b'f' } else { b'i' } }
        Slot::Name => b's',
        Slot::File => b'b',
    }
}

// A blob: the number of its bytes, the bytes, and none to three zeros.
fn put_blob(out: &mut [u8], at: usize, bytes: &[u8])
    requires { BlobRoom at bytes.now out.old }
    ensures { out.new ≡ over at (padded_blob bytes.now) out.old }
{
    let size = bytes.len();
    put_int(out, at, size as u32);
    put_bytes(out, at + 4, bytes);
    put_zeros(out, at + 4 + size, (4 - size % 4) % 4);
}

pub(crate) fn put_argument(out: &mut [u8], at: usize, numbers: Numbers, slot: Slot, bytes: &[u8])
    requires { ArgumentRoom slot at bytes.now out.old }
    ensures { out.new ≡ over at (argument_bytes (give slot (given numbers bytes.now))) out.old }
{
    match slot {
        Slot::NumberA => put_int(out, at, numbers.a),
        Slot::NumberB => put_int(out, at, numbers.b),
        Slot::NumberC => put_int(out, at, numbers.c),
        Slot::Value => put_int(out, at, numbers.e),
        Slot::Name => put_padded(out, at, bytes),
        Slot::File => put_blob(out, at, bytes),
    }
}
