// A version dropped: the gap closes, and the rest is zeroed.
ghost use Rattle.std.specs.Prelude.{true, ◌≡◌, length};
ghost use Rattle.store.specs.Store.{store_formed, entries_of};
ghost use Rattle.store.specs.Writing.{writing};
ghost use Rattle.store.specs.Places.{Dropped};
ghost use Rattle.store.specs.Edit.{run_cut};
ghost use Rattle.store.specs.Opening.{RunStands, HeadStands, NumberCut};

use crate::find::find_entry;
use crate::put::zero_from;
use crate::walk::{NUMBER_FIELD, contents_end, version_from};
use tagged::HEAD_SIZE;

// A run of a formed store's contents taken out.
fn cut_run(store: &mut [u8], from: usize, to: usize)
    requires { RunStands store.old from to }
    ensures { store.new ≡ run_cut from to (length (writing (entries_of store.old))) store.old }
{
    let contents = contents_end(store);
    store.copy_within(to..contents, from);
    zero_from(store, from + (contents - to));
}

// The version of a number taken out of an entry whose highest version stands at a place.
fn drop_from(store: &mut [u8], head: usize, number: u32) -> bool
    requires { HeadStands store.old head }
    ensures { NumberCut store.old head number result store.new }
{
    match version_from(store, head + NUMBER_FIELD, number) {
        Some((from, to)) => {
            cut_run(store, from, to);
            true
        }
        None => false,
    }
}

// A version of a name dropped, where there is one.
#[tactic(auto, using(crate::specs::OpeningLaws::head_inside, crate::specs::OpeningLaws::head_stands, crate::specs::OpeningLaws::dropped_none))]
pub fn drop_version(store: &mut [u8], name: &[u8], number: u32) -> bool
    requires { store_formed store.old ≡ true }
    ensures { Dropped name.now number store.old result store.new }
{
    match find_entry(store, name) {
        Ok(at) => drop_from(store, at + (HEAD_SIZE + name.len()), number),
        Err(_) => false,
    }
}
