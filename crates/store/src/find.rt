// Where an entry and a version stand in a formed store.
ghost use Rattle.std.specs.Prelude.{◌+◌, ◌≤◌, ◌<◌, true, ◌≡◌, length, drop};
ghost use Rattle.format.specs.Reader.{same_name};
ghost use Rattle.tagged.specs.Fields.{head_size, size_in, field_in};
ghost use Rattle.store.specs.Store.{version_tag, store_formed};
ghost use Rattle.store.specs.Places.{FoundVersion, FoundEntry};
ghost use Rattle.store.specs.ReadingLaws.{StoreStands};
ghost use Rattle.store.specs.Ahead.{SomeAhead, EntryAhead, PastTags, VersionsStart, PastEntry};

use crate::tags::VERSION_TAG;
use crate::walk::{NUMBER_FIELD, version_from};
use fields::same_name;
use tagged::{HEAD_SIZE, past_field};

// Past the fields from a place on whose tags are a lowest one or above.
#[tactic(auto, using(crate::specs::AheadLaws::walk_starts, crate::specs::AheadLaws::walk_turn))]
pub(crate) fn past_tags(store: &[u8], at: usize, lowest: u8) -> usize
    requires { (0 < lowest) × SomeAhead store.now at }
    ensures { PastTags lowest store.now at result }
{
    let mut end = at;
    while end < store.len() && lowest <= store[end] {
        end = past_field(store, end);
    }
    end
}

// From behind the highest version of an entry past its versions: to the next name, or to what closes the store.
pub(crate) fn past_versions(store: &[u8], at: usize) -> usize
    requires { SomeAhead store.now at }
    ensures { PastTags version_tag store.now at result }
{
    past_tags(store, at, VERSION_TAG)
}

// The place of an entry's versions, behind its name and its highest version.
pub(crate) fn versions_at(store: &[u8], at: usize) -> usize
    requires { EntryAhead store.now at }
    ensures { VersionsStart store.now at result }
{
    past_field(store, past_field(store, at))
}

// The place past an entry: the next name, or what closes the store.
pub(crate) fn past_entry(store: &[u8], at: usize) -> usize
    requires { EntryAhead store.now at }
    ensures { PastEntry store.now at result }
{
    past_versions(store, versions_at(store, at))
}

// The field at a place holds this name.
fn holds_name(store: &[u8], at: usize, name: &[u8]) -> bool
    requires { at + (head_size + size_in (drop at store.now)) ≤ length store.now }
    ensures { result ≡ same_name (field_in (drop at store.now)).contents name.now }
{
    let start = at + HEAD_SIZE;
    let end = past_field(store, at);
    same_name(&store[start..end], name)
}

// The entry of a name; or where the contents end, which no entry of the name is among.
pub(crate) fn find_entry(store: &[u8], name: &[u8]) -> Result<usize, usize>
    requires { store_formed store.now ≡ true }
    ensures stands { StoreStands store.now }
    ensures found { FoundEntry result name.now store.now }
{
    let mut at = 0;
    while at < store.len() && store[at] != 0 {
        if holds_name(store, at, name) {
            return Ok(at);
        }
        at = past_entry(store, at);
    }
    Err(at)
}

// Where the settings of a version of a name stand: their fields fill the part from the first place up to the second.
pub fn version_place(store: &[u8], name: &[u8], number: u32) -> Option<(usize, usize)>
    requires { store_formed store.now ≡ true }
    ensures { FoundVersion result name.now number store.now }
{
    let Ok(at) = find_entry(store, name) else {
        return None;
    };
    let (from, to) = version_from(store, versions_at(store, at), number)?;
    Some((from + NUMBER_FIELD, to))
}
