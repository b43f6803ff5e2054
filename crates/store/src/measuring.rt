// What is known of a name before a save.
ghost use Rattle.std.specs.Prelude.{true, ◌≡◌, ◌≤◌, length};
ghost use Rattle.store.specs.Store.{store_formed, longest_name};
ghost use Rattle.store.specs.Places.{Measured};
ghost use Rattle.store.specs.Opening.{HeadStands, EntryMeasured};

use crate::NameMeasure;
use crate::find::find_entry;
use crate::walk::{NUMBER_FIELD, contents_end, count_versions};
use fields::word_at;
use tagged::HEAD_SIZE;

// The measure of an entry whose highest version stands at a place.
fn measure_entry(store: &[u8], head: usize) -> NameMeasure
    requires { HeadStands store.now head }
    ensures { EntryMeasured store.now head result.length result.versions result.highest }
{
    let contents = contents_end(store);
    NameMeasure {
        length: contents + NUMBER_FIELD,
        versions: count_versions(store, head + NUMBER_FIELD),
        highest: word_at(store, head + HEAD_SIZE),
    }
}

// How long the store's contents are with a new version of a name that has no settings, how many versions it has, and the highest ever given.
#[tactic(auto, using(crate::specs::OpeningLaws::head_inside, crate::specs::OpeningLaws::head_stands, crate::specs::OpeningLaws::contents_inside))]
pub fn measure(store: &[u8], name: &[u8]) -> NameMeasure
    requires { (store_formed store.now ≡ true) × (length name.now ≤ longest_name) }
    ensures { Measured name.now store.now result.length result.versions result.highest }
{
    match find_entry(store, name) {
        Ok(at) => measure_entry(store, at + (HEAD_SIZE + name.len())),
        Err(at) => NameMeasure {
            length: at + (HEAD_SIZE + name.len() + (NUMBER_FIELD + NUMBER_FIELD)),
            versions: 0,
            highest: 0,
        },
    }
}
