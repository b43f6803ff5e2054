// A version opened under a name: its field and room for its settings.
ghost use Rattle.std.specs.Prelude.{◌+◌, ◌≤◌, length};
ghost use Rattle.tagged.specs.Fields.{head_size};
ghost use Rattle.store.specs.Edit.{number_field};
ghost use Rattle.store.specs.Places.{Opened};
ghost use Rattle.store.specs.Opening.{Openable, VersionRoom, VersionAdded, EntryAdded};

use crate::find::{find_entry, past_versions};
use crate::put::{put_name, put_number, zero_from};
use crate::tags::{HIGHEST_TAG, VERSION_TAG};
use crate::walk::{NUMBER_FIELD, contents_end};
use fields::word_at;
use tagged::HEAD_SIZE;

// The first version of a name.
pub const FIRST_VERSION: u32 = 1;

// A version put in behind those of the entry whose highest version stands at a place; the answer is where its settings go.
fn add_version(store: &mut [u8], head: usize, size: usize) -> usize
    requires { VersionRoom store.old head size }
    ensures { VersionAdded store.old head size result store.new }
{
    let number = word_at(store, head + HEAD_SIZE) + 1;
    let end = past_versions(store, head + NUMBER_FIELD);
    let contents = contents_end(store);
    store.copy_within(end..contents, end + (NUMBER_FIELD + size));
    put_number(store, head, HIGHEST_TAG, number);
    put_number(store, end, VERSION_TAG, number);
    zero_from(store, contents + (NUMBER_FIELD + size));
    end + NUMBER_FIELD
}

// An entry put at a place, with its first version; the answer is where its settings go.
fn add_entry(store: &mut [u8], name: &[u8], at: usize, size: usize) -> usize
    requires { at + (head_size + length name.now + (number_field + (number_field + size))) ≤ length store.old }
    ensures { EntryAdded name.now store.old at size result store.new }
{
    let head = at + (HEAD_SIZE + name.len());
    put_name(store, at, name);
    put_number(store, head, HIGHEST_TAG, FIRST_VERSION);
    put_number(store, head + NUMBER_FIELD, VERSION_TAG, FIRST_VERSION);
    let start = head + (NUMBER_FIELD + NUMBER_FIELD);
    zero_from(store, start + size);
    start
}

// A version opened under a name, with so many bytes for its settings; the answer is where they go.
#[tactic(auto, using(crate::specs::OpeningLaws::head_inside))]
pub fn open_version(store: &mut [u8], name: &[u8], size: usize) -> usize
    requires { Openable name.now size store.old }
    ensures { Opened name.now size store.old result store.new }
{
    match find_entry(store, name) {
        Ok(at) => add_version(store, at + (HEAD_SIZE + name.len()), size),
        Err(at) => add_entry(store, name, at, size),
    }
}
