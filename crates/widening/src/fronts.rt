// A front: its name, constants, initial values and parameter names.
ghost use Rattle.widening.specs.Moved.{Room, Moved};
ghost use Rattle.widening.specs.Pieces.{text_wide, text_past, floats_wide, floats_past, name_wide, name_past, name_onward, front_wide, front_past};

use crate::pieces::{Piece, widen_all};
use crate::places::Places;
use fields::value_at;
use format::Width;

// A name: its length and its bytes.
fn keep_text(out: &mut [u8], s: &[u8], at: Places) -> Places
    requires { Room s.now out.old at (text_wide s.now at.from) (text_past s.now at.from) }
    ensures { Moved (text_wide s.now at.from) (text_past s.now at.from) at out.old out.new result }
{
    let size = s[at.from] as usize;
    at.keep(out, s, 1 + size)
}

// A count, and as many floats.
fn widen_floats(out: &mut [u8], s: &[u8], at: Places) -> Places
    requires { Room s.now out.old at (floats_wide s.now at.from) (floats_past s.now at.from) }
    ensures { Moved (floats_wide s.now at.from) (floats_past s.now at.from) at out.old out.new result }
{
    let count = value_at(s, at.from, Width::Short) as usize;
    let next = at.integer(out, s);
    next.keep(out, s, 4 * count)
}

// A parameter name: its name, and its index.
struct Name;

impl Piece for Name {
    ghost wide = { name_wide };

    ghost past = { name_past };

    ghost onward = { λ s at. name_onward s at };

    fn widen(out: &mut [u8], s: &[u8], at: Places) -> Places {
        keep_text(out, s, at).integer(out, s)
    }
}

// A front.
pub(crate) fn widen_front(out: &mut [u8], s: &[u8], at: Places) -> Places
    requires { Room s.now out.old at (front_wide s.now at.from) (front_past s.now at.from) }
    ensures { Moved (front_wide s.now at.from) (front_past s.now at.from) at out.old out.new result }
{
    let p1 = keep_text(out, s, at);
    let p2 = widen_floats(out, s, p1);
    let p3 = widen_floats(out, s, p2);
    let count = value_at(s, p3.from, Width::Short);
    let p4 = p3.integer(out, s);
    widen_all::<Name>(out, s, p4, count)
}
