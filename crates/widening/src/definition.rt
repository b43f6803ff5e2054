// A whole definition.
ghost use Rattle.std.specs.Prelude.{◌≡◌};
ghost use Rattle.format.specs.declared.Width.TheVariants.{Short};
ghost use Rattle.format.specs.Definition.{Definition};
ghost use Rattle.format.specs.Read.{got};
ghost use Rattle.format.specs.Reader.{definition_by};
ghost use Rattle.widening.specs.Encoded.{Encodable, Encoded};

use crate::fronts::widen_front;
use crate::pieces::widen_all;
use crate::places::Places;
use crate::unit::Unit;
use fields::value_at;
use format::Width;
use osc::put_bytes;

// One of version 1.
fn widen_short(out: &mut [u8], place: usize, s: &[u8], at: usize, end: usize) -> usize
    requires { Encodable Short s.now at end out.old place }
    ensures { (d : Definition) → definition_by Short s.now at ≡ got d end → Encoded d place out.old out.new result }
{
    let start = Places {
        from: at,
        to: place,
    };
    let p1 = widen_front(out, s, start);
    let count = value_at(s, p1.from, Width::Short);
    let p2 = p1.integer(out, s);
    let p3 = widen_all::<Unit>(out, s, p2, count);
    let p4 = p3.keep(out, s, end - p3.from);
    p4.to
}

// The version 2 encoding of a definition that was read from one place to another, at a place: the place past it.
pub fn widen(out: &mut [u8], place: usize, s: &[u8], at: usize, end: usize, width: Width) -> usize
    requires { Encodable width s.now at end out.old place }
    ensures { (d : Definition) → definition_by width s.now at ≡ got d end → Encoded d place out.old out.new result }
{
    match width {
        Width::Short => widen_short(out, place, s, at, end),
        Width::Long => {
            put_bytes(out, place, &s[at..end]);
            place + (end - at)
        }
    }
}
