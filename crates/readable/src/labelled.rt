// The labels of a definition's controls.
ghost use Rattle.std.specs.Prelude.{◌≤◌, ◌≡◌, ℕ, Bool, length};
ghost use Rattle.readable.specs.Entries.{entry_end};
ghost use Rattle.readable.specs.Labels.{Labelled, LabelledFrom};
ghost use Rattle.readable.specs.Readable.{Readable};

use crate::entries::Names;
use crate::places::counts;
use fields::word_at;

impl Names<'_> {
    // For each index the place of the length byte of its first name that is taken, 0 where it has none.
    #[tactic(auto, using(crate::specs::Entries::entries_turn))]
    pub(crate) fn labels<F: Fn(usize) -> bool>(self, takes: F) -> [u32; 32]
        requires { (at : ℕ) → entry_end self.s.now at ≤ length self.s.now → F.pre takes at }
        ensures { (may : ℕ → Bool) → ((at : ℕ) (b : Bool) → F.post takes at b → b ≡ may at) → LabelledFrom may self.entry.s.now self.entry.places.names self.entry.places.first result }
    {
        let mut table = [0u32; 32];
        let s = self.s;
        let mut at = self.places.first;
        for _ in 0..self.places.names {
            let end = at + 1 + s[at] as usize;
            let index = word_at(s, end) as usize;
            if table[index] == 0 && takes(at) {
                table[index] = at as u32;
            }
            at = end + 4;
        }
        table
    }
}

// For each control the place of the length byte of its first name, 0 where it has none.
// Kept: 0 for no name, since a name never stands at place 0; the definition `Labelled` says so of each word.
pub fn labels(s: &[u8]) -> [u32; 32]
    requires { Readable s.now }
    ensures { Labelled s.now result }
{
    let places = counts(s);
    let names = Names { s, places };
    names.labels(|_| true)
}
