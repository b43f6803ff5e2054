// What a command takes of the arguments of its message, one after the other.
ghost use Rattle.std.specs.Prelude.{◌≡◌};
ghost use Rattle.messageread.specs.Keep.{Keeps, number_of, kind_of, part_of};

use crate::cursor::{Argument, Part};
use calls::Numbers;
use messages::Slot;

// The numbers of a call, and the part of the message that is the name or the file beside it.
#[derive(Clone, Copy)]
pub struct Kept {
    pub numbers: Numbers,
    pub part: Part,
}

impl Argument {
    // The number in it; 0 where it is a part.
    fn number(self) -> u32
        ensures { result ≡ number_of self }
    {
        match self {
            Argument::Integer(n) => n,
            Argument::Float(n) => n,
            Argument::Text(_) => 0,
            Argument::Blob(_) => 0,
        }
    }

    // Its kind as a value's: 0 a float's pattern, 1 an integer.
    fn kind(self) -> u32
        ensures { result ≡ kind_of self }
    {
        match self {
            Argument::Float(_) => 0,
            _ => 1,
        }
    }

    // Its part of the message; none where it is a number.
    fn part(self) -> Part
        ensures { result ≡ part_of self }
    {
        match self {
            Argument::Text(part) => part,
            Argument::Blob(part) => part,
            _ => Part { start: 0, end: 0 },
        }
    }
}

// An argument at a slot of its command; one that has no slot is not taken.
pub(crate) fn keep(kept: Kept, slot: Option<Slot>, argument: Argument) -> Kept
    ensures { Keeps slot argument kept result }
{
    let numbers = kept.numbers;
    let n = argument.number();
    match slot {
        Some(Slot::NumberA) => Kept {
            numbers: Numbers { a: n, ..numbers },
            ..kept
        },
        Some(Slot::NumberB) => Kept {
            numbers: Numbers { b: n, ..numbers },
            ..kept
        },
        Some(Slot::NumberC) => Kept {
            numbers: Numbers { c: n, ..numbers },
            ..kept
        },
        Some(Slot::Value) => Kept {
            numbers: Numbers {
                d: argument.kind(),
                e: n,
                ..numbers
            },
            ..kept
        },
        Some(Slot::Name) => Kept {
            part: argument.part(),
            ..kept
        },
        Some(Slot::File) => Kept {
            part: argument.part(),
            ..kept
        },
        None => kept,
    }
}
