// Reading a message: its form, then the command that it stands for.
#![tactic(auto)]

ghost use Rattle.messages.specs.Receive.{Reads, meaning_of};
ghost use Rattle.messageread.specs.Answers.{bytes_of};
ghost use Rattle.messageread.specs.Keep.{step_of, StepHolds};
ghost use Rattle.messageread.specs.Finish.{Stands, end_of, after_address};

use calls::command_of;
use cursor::{Cursor, Part};
use fields::part;
use keep::Kept;
use messages::Received;
use refusals::Refusal;
use rows::find;
use walk::walk;

mod address;
mod cursor;
mod keep;
mod rows;
mod walk;

// The command of what was kept, where the message ends with its arguments.
fn finish(message: &[u8], walked: Option<(Kept, Cursor)>) -> Result<Received, Refusal>
    ensures { StepHolds message.now walked → Stands message.now (end_of message.now (step_of message.now walked)) result }
{
    let (kept, next) = walked.ok_or(Refusal::Malformed)?;
    if next.at != message.len() {
        return Err(Refusal::Malformed);
    }
    let command = command_of(kept.numbers).ok_or(Refusal::UnknownMessage)?;
    Ok(Received {
        command,
        start: kept.part.start,
        end: kept.part.end,
    })
}

// The message behind its address.
fn behind_address(message: &[u8], address: Part, next: Cursor) -> Result<Received, Refusal>
    ensures { Stands message.now (meaning_of (after_address message.now (bytes_of message.now address) next.at)) result }
{
    let (tags, arguments) = next.headed(message, b',').ok_or(Refusal::Malformed)?;
    let tags = part(message, tags.start + 1, tags.end);
    let op = find(part(message, address.start, address.end), tags);
    finish(message, walk(message, tags, arguments, op))
}

// What a message stands for.
pub fn read(message: &[u8]) -> Result<Received, Refusal>
    ensures { Reads message.now result }
{
    let first = Cursor { at: 0 };
    let (address, next) = first.headed(message, b'/').ok_or(Refusal::Malformed)?;
    behind_address(message, address, next)
}
