// Parameter names, and walks along them.
ghost use Rattle.std.specs.Prelude.{◌≤◌, ◌<◌, ◌≡◌, ltb, length};
ghost use Rattle.words.specs.Choice.{pick, both};
ghost use Rattle.format.specs.Names.{first_index, next_index};
ghost use Rattle.readable.specs.Lookup.{found_at};
ghost use Rattle.format.specs.Reader.{most_parameters, size_limit};
ghost use Rattle.readable.specs.Entries.{Entries, entries_prop, entry_end, entries_from, entries_end};

use fields::{same_name, word_at};
use front::Counts;

// The parameter names of a readable definition: so many entries from a place on, as its counts tell.
#[derive(Clone, Copy)]
pub(crate) struct Names<'a> {
    pub s: &'a [u8],
    pub places: Counts,
    ghost later: { 0 < places.first },
    ghost short: { length s.now ≤ size_limit },
    ghost known: { Entries s.now most_parameters places.names places.first } by { entries_prop s.now most_parameters places.names places.first },
}

// The lower of two indices, where the first is larger than i; else the second.
fn lower(i: u32, index: u32, end: u32) -> u32
    ensures { result ≡ pick (both (ltb i index) (ltb index end)) index end }
{
    if i < index { index.min(end) } else { end }
}

// The place past an entry.
fn past_entry(s: &[u8], at: usize) -> usize
    requires { entry_end s.now at ≤ length s.now }
    ensures { result ≡ entry_end s.now at }
{
    at + 5 + s[at] as usize
}

impl Names<'_> {
    // The index of a name among them: it stops at the first that has it.
    #[tactic(auto, using(crate::specs::Entries::entries_turn))]
    pub(crate) fn find(self, name: &[u8]) -> Option<u32>
        ensures { found_at result ≡ first_index name.now (entries_from self.entry.s.now self.entry.places.names self.entry.places.first) }
    {
        let s = self.s;
        let mut entry = self.places.first;
        for _ in 0..self.places.names {
            let start = entry + 1;
            let end = start + s[entry] as usize;
            if same_name(&s[start..end], name) {
                return Some(word_at(s, end));
            }
            entry = end + 4;
        }
        None
    }

    // The next index larger than i that one of them has, else the end.
    #[tactic(auto, using(crate::specs::Entries::entries_turn))]
    pub(crate) fn next_index(self, i: u32, end: u32) -> u32
        ensures { result ≡ next_index i end (entries_from self.entry.s.now self.entry.places.names self.entry.places.first) }
    {
        let mut next = end;
        let s = self.s;
        let mut at = self.places.first;
        for _ in 0..self.places.names {
            let place = at + 1 + s[at] as usize;
            next = lower(i, word_at(s, place), next);
            at = place + 4;
        }
        next
    }

    // The place past them, four in a turn: so the compiler counts no turns ahead.
    pub(crate) fn end(self) -> usize
        ensures { result ≡ entries_end self.entry.s.now self.entry.places.names self.entry.places.first }
    {
        let s = self.s;
        let mut at = self.places.first;
        for _ in 0..self.places.names / 4 {
            at = past_entry(s, at);
            at = past_entry(s, at);
            at = past_entry(s, at);
            at = past_entry(s, at);
        }
        for _ in 0..self.places.names % 4 {
            at = past_entry(s, at);
        }
        at
    }
}
