// The entries where one node comes and none goes, or one goes. Each pass is a plain loop, with nothing to leave out.
// Kept: the table is a run of the lent words with its count beside it (C interface): an edit changes the count and never the run.
ghost use Rattle.std.specs.Prelude.{◌≡◌, ℕ, ◌+◌, ◌<◌, get_or};
ghost use Rattle.reindex.specs.Follow.{gone};
ghost use Rattle.reindex.specs.FollowWords.{Followed, Entries};
ghost use Rattle.reindex.specs.Edits.{closed};
ghost use Rattle.reindex.specs.OneEntry.{Spotted};

use crate::run::Run;
use words::wide;

// The entries at their places where a node came; all are left.
pub fn open_entries(index: &mut [u32], count: usize, at: u32)
    requires { (count < gone) × Entries index.old count }
    ensures { Followed (closed at at 1) index.old count index.new count }
{
    let here = Run { from: at, to: at };
    for i in 0..count {
        index[i] = here.closed_place(index[i], 1);
    }
}

// The spot of the entry that is this place, if there is one: the sum of all such spots, by a loop with no way out.
pub fn entry_spot(index: &[u32], count: usize, place: u32) -> usize
    requires { Entries index.now count }
    ensures { (j : ℕ) → j < count → get_or index.now j 0 ≡ place → result ≡ j }
{
    let mut spot: u32 = 0;
    for i in 0..count {
        if index[i] == place {
            spot += i as u32;
        }
    }
    wide(spot)
}

// The new place of another node than the one that went.
fn lowered_place(place: u32, at: u32) -> u32
    requires { (place < gone) × (place ≡ at → ⊥) }
    ensures { result ≡ closed at (at + 1) 0 place }
{
    if place < at { place } else { place - 1 }
}

// The entries at those places, without the one at the spot; and how many are left.
pub fn cut_entry(index: &mut [u32], count: usize, spot: usize, at: u32) -> usize
    requires { Spotted index.old count spot at }
    ensures { Followed (closed at (at + 1) 0) index.old count index.new result }
{
    for i in 0..spot {
        index[i] = lowered_place(index[i], at);
    }
    for i in spot + 1..count {
        index[i - 1] = lowered_place(index[i], at);
    }
    count - 1
}
