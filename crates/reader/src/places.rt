// What a reader meets at a place of a file. These functions take the file and the place apart from each other.
ghost use Rattle.std.specs.Prelude.{◌≡◌};
ghost use Rattle.fields.specs.Answers.{step_of};
ghost use Rattle.format.specs.Read.{ending};
ghost use Rattle.reader.specs.Places.{definition_here, ended_at, place_after, place_past, span_at, bytes_at, Starts};

use faults::FileError;
use fields::{Cursor, part};
use files::{read_definition, width_of};
use format::FIRST_PLACE;

// Where a reader of a file starts, by what the check of the whole file said: at its end where it is refused.
pub fn start_of(s: &[u8], checked: Result<u32, FileError>) -> usize
    ensures { Starts s.now checked result }
{
    match checked {
        Ok(_) => FIRST_PLACE,
        Err(_) => s.len(),
    }
}

// The definition at a place of the file, by the width of the file's fields.
fn definition_at(s: &[u8], at: usize) -> Result<Cursor, FileError>
    ensures { step_of result ≡ ending (definition_here s.now at) }
{
    read_definition(s, Cursor { at }, width_of(s))
}

// Whether the file is at its end.
pub fn ended_at(s: &[u8], at: usize) -> bool
    ensures { result ≡ ended_at s.now at }
{
    s.len() <= at
}

// The place past the definition at a place; the file's end where none can be read.
// Kept: the file's end where none can be read is where a reader stands then (paper 01).
#[tactic(auto, using(crate::specs::PlaceLaws::after_got, crate::specs::PlaceLaws::after_bad))]
pub fn place_after(s: &[u8], at: usize) -> usize
    ensures { result ≡ place_after s.now at }
{
    match definition_at(s, at) {
        Ok(next) => next.at,
        Err(_) => s.len(),
    }
}

// The place past so many definitions; the file's end where there are fewer.
// Kept: the file's end, as `place_after`.
#[tactic(auto, using(crate::specs::PlaceLaws::past_turn, crate::specs::PlaceLaws::past_end, crate::specs::PlaceLaws::past_last))]
pub fn place_past(s: &[u8], at: usize, count: u32) -> usize
    ensures { result ≡ place_past s.now count at }
{
    let mut here = at;
    for _ in 0..count {
        if s.len() <= here {
            return s.len();
        }
        here = place_after(s, here);
    }
    here
}

// Where the definition at a place starts and ends; none where none can be read.
#[tactic(auto, using(crate::specs::PlaceLaws::span_got, crate::specs::PlaceLaws::span_bad))]
pub fn span_at(s: &[u8], at: usize) -> Option<(usize, usize)>
    ensures { result ≡ span_at s.now at }
{
    match definition_at(s, at) {
        Ok(next) => Some((at, next.at)),
        Err(_) => None,
    }
}

// The bytes of the definition at a place, a part of the lent file; none where none can be read.
#[tactic(auto, using(crate::specs::PlaceLaws::bytes_got, crate::specs::PlaceLaws::bytes_bad))]
pub fn bytes_at(s: &[u8], at: usize) -> &[u8]
    ensures { result.now ≡ bytes_at s.now at }
{
    match definition_at(s, at) {
        Ok(next) => part(s, at, next.at),
        Err(_) => &s[..0],
    }
}
