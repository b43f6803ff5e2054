// The names that a definition's controls are saved under.
ghost use Rattle.std.specs.Prelude.{◌≤◌, ◌≡◌, length};
ghost use Rattle.readable.specs.Entries.{entry_end};
ghost use Rattle.readable.specs.OwnLabels.{looks_up, OwnLabelled};
ghost use Rattle.readable.specs.Readable.{Readable};

use crate::entries::Names;
use crate::places::counts;
use fields::word_at;

impl Names<'_> {
    // Whether the name of the entry at a place, looked up among them, means the index of that entry.
    fn looks_up(self, at: usize) -> bool
        requires { entry_end self.s.now at ≤ length self.s.now }
        ensures { result ≡ looks_up self.entry.s.now self.entry.places.names self.entry.places.first at }
    {
        let s = self.s;
        let start = at + 1;
        let end = start + s[at] as usize;
        self.find(&s[start..end]) == Some(word_at(s, end))
    }
}

// For each control the place of the length byte of its first name that looks up to it, 0 where it has none.
// Kept: 0 for no name, as in `labels`.
pub fn own_labels(s: &[u8]) -> [u32; 32]
    requires { Readable s.now }
    ensures { OwnLabelled s.now result }
{
    let places = counts(s);
    let names = Names { s, places };
    names.labels(|at| names.looks_up(at))
}
