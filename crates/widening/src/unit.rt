// Units.
ghost use Rattle.widening.specs.Moved.{Room, Moved};
ghost use Rattle.widening.specs.Pieces.{input_wide, input_past, input_onward, body_wide, body_past, unit_wide, unit_past, unit_onward};

use crate::pieces::{Piece, widen_all};
use crate::places::Places;
use fields::value_at;
use format::Width;

// An input: its two indices.
struct Input;

impl Piece for Input {
    ghost wide = { input_wide };

    ghost past = { λ s at. input_past at };

    ghost onward = { λ s at. input_onward at };

    fn widen(out: &mut [u8], s: &[u8], at: Places) -> Places {
        at.integer(out, s).integer(out, s)
    }
}

// The rest of a unit of so many inputs and outputs: its special index, its inputs, its output rates.
fn widen_body(out: &mut [u8], s: &[u8], at: Places, inputs: u32, outputs: u32) -> Places
    requires { Room s.now out.old at (body_wide s.now inputs outputs at.from) (body_past inputs outputs at.from) }
    ensures { Moved (body_wide s.now inputs outputs at.from) (body_past inputs outputs at.from) at out.old out.new result }
{
    let p1 = at.keep(out, s, 2);
    let p2 = widen_all::<Input>(out, s, p1, inputs);
    p2.keep(out, s, outputs as usize)
}

// A unit: its class and rate, I, O, and the rest.
pub(crate) struct Unit;

impl Piece for Unit {
    ghost wide = { unit_wide };

    ghost past = { unit_past };

    ghost onward = { λ s at. unit_onward s at };

    fn widen(out: &mut [u8], s: &[u8], at: Places) -> Places {
        let size = s[at.from] as usize;
        let p1 = at.keep(out, s, 2 + size);
        let inputs = value_at(s, p1.from, Width::Short);
        let p2 = p1.integer(out, s);
        let outputs = value_at(s, p2.from, Width::Short);
        let p3 = p2.integer(out, s);
        widen_body(out, s, p3, inputs, outputs)
    }
}
