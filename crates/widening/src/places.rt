// Version 1 bytes written as version 2, piece by piece: a count or an index takes two bytes more, and all else stays as it is.
// Kept: what is written goes from a place of the lent run on; each part as a slice of its own would be cut and joined at every call.
ghost use Rattle.std.specs.Prelude.{◌+◌};
ghost use Rattle.words.specs.Parts.{region};
ghost use Rattle.widening.specs.Pieces.{integer_wide};
ghost use Rattle.widening.specs.Moved.{Room, Moved};

use fields::value_at;
use format::Width;
use osc::{put_bytes, put_int};

// A place in the version 1 bytes, and one in what is written.
#[derive(Clone, Copy, Debug, PartialEq, Eq)]
pub struct Places {
    pub from: usize,
    pub to: usize,
}

impl Places {
    // So many bytes as they are.
    pub(crate) fn keep(self, out: &mut [u8], s: &[u8], count: usize) -> Places
        requires { Room s.now out.old self (region self.from count s.now) (self.from + count) }
        ensures { Moved (region self.from count s.now) (self.from + count) self out.old out.new result }
    {
        let end = self.from + count;
        put_bytes(out, self.to, &s[self.from..end]);
        Places {
            from: end,
            to: self.to + count,
        }
    }

    // A count or an index.
    pub(crate) fn integer(self, out: &mut [u8], s: &[u8]) -> Places
        requires { Room s.now out.old self (integer_wide s.now self.from) (self.from + 2) }
        ensures { Moved (integer_wide s.now self.from) (self.from + 2) self out.old out.new result }
    {
        put_int(out, self.to, value_at(s, self.from, Width::Short));
        Places {
            from: self.from + 2,
            to: self.to + 4,
        }
    }
}
