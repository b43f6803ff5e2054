// A command written as an OSC message.
#![tactic(auto)]

ghost use Rattle.std.specs.Prelude.{◌≡◌};
ghost use Rattle.messages.specs.Write.{Writes};
ghost use Rattle.messagewrite.specs.Whole.{without_address};

use crate::put::put_message;
use crate::row::{any_unfit, message_size, slot_count};
use crate::slot::is_unfit;
use calls::Numbers;
use calls::ops::RECALL;
use messages::{Slot, address_length};
use model::{Accepted, Answer};
use refusals::Refusal;

mod put;
mod row;
mod slot;

// The refusal of a command that has no address: 26 for a recall whose name holds a byte that is not 1 to 127, else 27.
fn without_address(op: u32, bytes: &[u8]) -> Refusal
    ensures { result ≡ without_address op bytes.now }
{
    if op == RECALL && is_unfit(Slot::Name, bytes) {
        return Refusal::Malformed;
    }
    Refusal::UnknownMessage
}

// The message of a call, from the buffer's first byte; no byte is written before all have room.
pub fn write(numbers: Numbers, bytes: &[u8], out: &mut [u8]) -> Answer
    ensures { Writes (record { numbers = numbers; bytes = bytes.now }) out.old result out.new }
{
    let op = numbers.op;
    if address_length(op) == 0 {
        return Err(without_address(op, bytes).into());
    }
    let count = slot_count(op);
    if any_unfit(op, count, bytes) {
        return Err(Refusal::Malformed.into());
    }
    let size = message_size(op, count, bytes.len(), out.len()).ok_or(Refusal::NoRoom)?;
    put_message(out, numbers, bytes, count);
    Ok(Accepted::Replied(size))
}
