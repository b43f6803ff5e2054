// The walk along the tags: the form of every argument, and what the command takes of them.
ghost use Rattle.messages.specs.Rows.{slots_of};
ghost use Rattle.messages.specs.Receive.{bare};
ghost use Rattle.messageread.specs.Keep.{Walks, taken_at};

use crate::cursor::{Cursor, Part};
use crate::keep::{Kept, keep};
use calls::Numbers;
use messages::slot_at;

// The arguments of the tags from a place on, with an op's slots.
pub(crate) fn walk(message: &[u8], tags: &[u8], from: Cursor, op: u32) -> Option<(Kept, Cursor)>
    ensures { Walks message.now (taken_at (slots_of op) tags.now message.now from.at (bare op)) result }
{
    let mut kept = Kept {
        numbers: Numbers {
            op: op,
            a: 0,
            b: 0,
            c: 0,
            d: 0,
            e: 0,
        },
        part: Part { start: 0, end: 0 },
    };
    let mut at = from;
    for (k, tag) in tags.iter().enumerate() {
        let (argument, next) = at.argument(message, *tag)?;
        kept = keep(kept, slot_at(op, k), argument);
        at = next;
    }
    Some((kept, at))
}
