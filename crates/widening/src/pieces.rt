// So many pieces of a definition, one behind the other.
ghost use Rattle.std.specs.Prelude.{ℕ, List};
ghost use Rattle.widening.specs.Walk.{wide_all, past_all, Onward};
ghost use Rattle.widening.specs.Moved.{Room, Moved};

use crate::places::Places;

// A kind of piece: what its bytes become and where it ends, by its bytes and the place where it starts.
pub(crate) trait Piece {
    ghost wide: { List ℕ → ℕ → List ℕ };

    ghost past: { List ℕ → ℕ → ℕ };

    fn widen(out: &mut [u8], s: &[u8], at: Places) -> Places
        requires { Room s.now out.old at (wide s.now at.from) (past s.now at.from) }
        ensures { Moved (wide s.now at.from) (past s.now at.from) at out.old out.new result };

    ghost onward: { (s : List ℕ) → Onward (past s) };
}

// So many of a kind.
pub(crate) fn widen_all<P: Piece>(out: &mut [u8], s: &[u8], at: Places, count: u32) -> Places
    requires { Room s.now out.old at (wide_all (P.wide s.now) (P.past s.now) count at.from) (past_all (P.past s.now) count at.from) }
    ensures { Moved (wide_all (P.wide s.now) (P.past s.now) count at.from) (past_all (P.past s.now) count at.from) at out.old out.new result }
{
    let mut here = at;
    for _ in 0..count {
        here = P::widen(out, s, here);
    }
    here
}
