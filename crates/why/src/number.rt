// What is told as one number.
ghost use Rattle.std.specs.Prelude.{◌≡◌};
ghost use Rattle.why.specs.Numbers.{reason_number, detail_of, told_number};

use crate::Reason;
use refusals::Refusal;

// A reason's number, 1 to 5.
// Kept: numbers for C; the definitions have the names.
fn reason_number(reason: Reason) -> u32
    ensures { result ≡ reason_number reason }
{
    match reason {
        Reason::NoNode => 1,
        Reason::Group => 2,
        Reason::Off => 3,
        Reason::AncestorOff(_) => 4,
        Reason::Running(_) => 5,
    }
}

// The number that goes with it: the ancestor's, or the place; 0 where there is none.
// Kept: 0 for none is what C is told.
fn detail_of(reason: Reason) -> u32
    ensures { result ≡ detail_of reason }
{
    match reason {
        Reason::NoNode | Reason::Group | Reason::Off => 0,
        Reason::AncestorOff(number) => number,
        Reason::Running(place) => place,
    }
}

// The refusal's number; or the reason's from bit 8 on, and what goes with it from bit 16 on.
// Kept: one number for C, whose layout the definition gives.
pub fn told_number(told: Result<Reason, Refusal>) -> u64
    ensures { result ≡ told_number told }
{
    match told {
        Err(refusal) => u64::from(u32::from(refusal)),
        Ok(reason) => 256 * u64::from(reason_number(reason)) + 65536 * u64::from(detail_of(reason)),
    }
}
