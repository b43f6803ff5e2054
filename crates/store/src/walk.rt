// Walks over a formed store: to the end of its contents, over the versions of an entry.
ghost use Rattle.std.specs.Prelude.{true, ◌≡◌, ◌≤◌, length, get_or};
ghost use Rattle.store.specs.Store.{store_formed, version_tag, entries_of};
ghost use Rattle.store.specs.Writing.{writing};
ghost use Rattle.store.specs.Ahead.{VersionsAhead};
ghost use Rattle.store.specs.Walk.{Counted, PastVersion, Numbered};

use crate::find::past_tags;
use crate::tags::{NAME_TAG, NUMBER_SIZE, SETTING_TAG, VERSION_TAG};
use fields::word_at;
use tagged::HEAD_SIZE;

// The bytes of a field that holds a number.
pub const NUMBER_FIELD: usize = HEAD_SIZE + NUMBER_SIZE;

// Where the contents of a formed store end.
pub fn contents_end(store: &[u8]) -> usize
    requires { store_formed store.now ≡ true }
    ensures place { result ≡ length (writing (entries_of store.now)) }
    ensures inside { result ≤ length store.now }
{
    past_tags(store, 0, NAME_TAG)
}

// The place past a version and its settings.
#[tactic(auto, using(crate::specs::VersionWalkLaws::version_opens, crate::specs::VersionWalkLaws::version_past))]
fn next_version(store: &[u8], at: usize) -> usize
    requires { VersionsAhead store.now at × (get_or store.now at 0 ≡ version_tag) }
    ensures { PastVersion store.now at result }
{
    past_tags(store, at + NUMBER_FIELD, SETTING_TAG)
}

// How many versions stand from a place on.
pub fn count_versions(store: &[u8], at: usize) -> usize
    requires { VersionsAhead store.now at }
    ensures { Counted store.now at result }
{
    let mut i = at;
    let mut count = 0;
    while i < store.len() && store[i] == VERSION_TAG {
        i = next_version(store, i);
        count += 1;
    }
    count
}

// The version of a number among those from a place on: where it stands, and where it ends.
#[tactic(auto, using(crate::specs::VersionWalkLaws::version_length, crate::specs::VersionWalkLaws::search_starts))]
pub fn version_from(store: &[u8], at: usize, number: u32) -> Option<(usize, usize)>
    requires { VersionsAhead store.now at }
    ensures { Numbered store.now at number result }
{
    let mut from = at;
    while from < store.len() && store[from] == VERSION_TAG {
        let to = next_version(store, from);
        if word_at(store, from + HEAD_SIZE) == number {
            return Some((from, to));
        }
        from = to;
    }
    None
}
