// What a list ends in as one number.
ghost use Rattle.std.specs.Prelude.{◌≡◌};
ghost use Rattle.model.specs.Demands.{refusal_in};
ghost use Rattle.lists.specs.OneByOne.{place_in, list_number};

use crate::Outcome;
use calls::NO_COMMAND;
use model::{Answer, Denied};

// The number of the refusal that an answer gives, 0 where it gives none.
// Kept: 0 for none is the number that C is told; the definition has the name.
pub fn refusal_in(answer: Answer) -> u32
    ensures { result ≡ refusal_in answer }
{
    match answer {
        Ok(_) => 0,
        Err(Denied::Refused(refusal)) => u32::from(refusal),
        Err(Denied::RefusedAt(fault, _)) => u32::from(fault),
    }
}

// Its place, 0 where it has none.
// Kept: 0 for none is the place that C is told.
fn place_in(answer: Answer) -> usize
    ensures { result ≡ place_in answer }
{
    match answer {
        Ok(_) | Err(Denied::Refused(_)) => 0,
        Err(Denied::RefusedAt(_, place)) => place,
    }
}

// The refusal's number, how many were accepted before it, and its place.
// Kept: one number for C, whose layout the definition gives.
pub fn list_number(outcome: Outcome) -> u64
    ensures { result ≡ list_number outcome }
{
    match outcome {
        None => NO_COMMAND,
        Some((answer, accepted)) => {
            u64::from(refusal_in(answer))
                + 256 * (accepted as u64 % 65536)
                + 16777216 * (place_in(answer) as u64 % 549755813888)
        }
    }
}
