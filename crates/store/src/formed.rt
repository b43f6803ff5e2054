// Whether a store is formed: refusal 31.
ghost use Rattle.std.specs.Prelude.{ℕ, ◌≡◌, List};
ghost use Rattle.format.specs.Fields.{word};
ghost use Rattle.tagged.specs.Fields.{Field};
ghost use Rattle.store.specs.declared.formed.Walk.{Walk};
ghost use Rattle.store.specs.Store.{version_tag, highest_tag, fields_of, setting_name_in, settings_at, entries_at, closes};
ghost use Rattle.store.specs.Store.{may_follow, is_name, contents_formed, is_set, has_entry, store_formed};
ghost use Rattle.store.specs.FormedWalk.{FieldTaken, FirstField, StepsPast, field_of, field_with, is_named, walk_under};

use crate::tags::{
    HIGHEST_TAG, LONGEST_NAME, MOST_VERSIONS, NAME_TAG, NUMBER_SIZE, SETTING_TAG, VERSION_TAG,
};
use fields::{name_bytes, same_name, word_at};
use tagged::{HEAD_SIZE, size_at};

// A field of the store: its tag and its contents.
#[derive(Clone, Copy)]
pub struct Tagged<'a> {
    pub tag: u8,
    pub contents: &'a [u8],
}

// What is known on the walk along the fields: the tag of the field before, 0 at the start; under the name of the last tag 1 the last version,
// the highest version and how many versions more it may have.
#[derive(Clone, Copy, Debug, PartialEq, Eq)]
pub struct Walk {
    pub before: u8,
    pub last: u32,
    pub highest: u32,
    pub room: usize,
}

// What is left of a store is closed: it is at the buffer's end, or at a tag byte 0.
fn closes(rest: &[u8]) -> bool
    ensures { result ≡ closes rest.now }
{
    rest.is_empty() || rest[0] == 0
}

// The first field of what is left of a store, and what lies behind it; none where the store closes or the field is cut.
#[tactic(auto, using(crate::specs::FirstFieldLaws::first_closed, crate::specs::FirstFieldLaws::first_cut, crate::specs::FirstFieldLaws::first_whole))]
fn first_field(rest: &[u8]) -> Option<(Tagged, &[u8])>
    ensures { FirstField result rest.now }
{
    if closes(rest) || rest.len() < HEAD_SIZE {
        return None;
    }
    let size = size_at(rest, 0);
    if rest.len() - HEAD_SIZE < size {
        return None;
    }
    let end = HEAD_SIZE + size;
    let field = Tagged {
        tag: rest[0],
        contents: &rest[HEAD_SIZE..end],
    };
    Some((field, &rest[end..]))
}

// A tag may stand behind another one.
fn may_follow(tag: u8, before: u8) -> bool
    ensures { result ≡ may_follow tag before }
{
    match tag {
        NAME_TAG => before != NAME_TAG,
        HIGHEST_TAG => before == NAME_TAG,
        VERSION_TAG => NAME_TAG < before,
        SETTING_TAG => before == VERSION_TAG || before == SETTING_TAG,
        _ => false,
    }
}

// These bytes are a name.
fn is_name(name: &[u8]) -> bool
    ensures { result ≡ is_name name.now }
{
    name.len() <= LONGEST_NAME && name_bytes(name, 0, name.len())
}

impl<'a> Tagged<'a> {
    // The control name of a setting; empty where the contents are shorter than its float.
    fn setting_name(self) -> &'a [u8]
        ensures { result.now ≡ setting_name_in (field_of self.entry) }
    {
        &self.contents[..self.contents.len().saturating_sub(NUMBER_SIZE)]
    }

    // The contents are as the tag asks for.
    fn contents_formed(self) -> bool
        ensures { result ≡ contents_formed (field_of self.entry) }
    {
        let size = self.contents.len();
        match self.tag {
            NAME_TAG => 0 < size && is_name(self.contents),
            SETTING_TAG => NUMBER_SIZE <= size && is_name(self.setting_name()),
            _ => size == NUMBER_SIZE,
        }
    }

    // A definition name, and this one.
    fn is_named(self, name: &[u8]) -> bool
        ensures { result ≡ is_named name.now (field_of self.entry) }
    {
        self.tag == NAME_TAG && same_name(self.contents, name)
    }
}

// A definition name stands in what is left of a store.
#[tactic(auto, using(crate::specs::FormedWalkLaws::named_here, crate::specs::FormedWalkLaws::named_later, crate::specs::FormedWalkLaws::named_end))]
fn name_again(rest: &[u8], name: &[u8]) -> bool
    ensures { result ≡ has_entry name.now (entries_at (fields_of rest.now)) }
{
    let mut left = rest;
    while let Some((field, behind)) = first_field(left) {
        if field.is_named(name) {
            return true;
        }
        left = behind;
    }
    false
}

// A control name stands among the settings that come first in what is left of a store.
#[tactic(auto, using(crate::specs::FormedWalkLaws::set_none, crate::specs::FormedWalkLaws::set_here, crate::specs::FormedWalkLaws::set_later, crate::specs::FormedWalkLaws::set_end))]
fn set_again(rest: &[u8], name: &[u8]) -> bool
    ensures { result ≡ is_set name.now (settings_at (fields_of rest.now)) }
{
    let mut left = rest;
    while let Some((field, behind)) = first_field(left) {
        if field.tag != SETTING_TAG {
            return false;
        }
        if same_name(field.setting_name(), name) {
            return true;
        }
        left = behind;
    }
    false
}

// Past a version of this number.
#[tactic(auto, using(crate::specs::FormedWalkLaws::left_version_low, crate::specs::FormedWalkLaws::left_version_high, crate::specs::FormedWalkLaws::left_version_many, crate::specs::FormedWalkLaws::left_version))]
fn past_version(walk: Walk, number: u32) -> Option<Walk>
    ensures { (b : List ℕ) (fs : List Field) → FieldTaken walk (field_with version_tag b) → word b 0 ≡ number → StepsPast walk (field_with version_tag b) fs result }
{
    if number <= walk.last || walk.highest < number || walk.room == 0 {
        return None;
    }
    Some(Walk {
        before: VERSION_TAG,
        last: number,
        room: walk.room - 1,
        ..walk
    })
}

// Behind a name or a highest version: no version yet.
fn under_name(before: u8, highest: u32) -> Walk
    ensures { result ≡ walk_under before highest }
{
    Walk {
        before,
        last: 0,
        highest,
        room: MOST_VERSIONS,
    }
}

// Past a highest version of this number.
#[tactic(auto, using(crate::specs::FormedWalkLaws::left_highest_zero, crate::specs::FormedWalkLaws::left_highest))]
fn past_highest(number: u32) -> Option<Walk>
    ensures { (w : Walk) (b : List ℕ) (fs : List Field) → FieldTaken w (field_with highest_tag b) → word b 0 ≡ number → StepsPast w (field_with highest_tag b) fs result }
{
    if number == 0 {
        return None;
    }
    Some(under_name(HIGHEST_TAG, number))
}

// Past a field, behind which the rest of the store lies.
#[tactic(auto, using(crate::specs::FormedWalkLaws::left_misplaced, crate::specs::FormedWalkLaws::left_unformed, crate::specs::FormedWalkLaws::past_name_again, crate::specs::FormedWalkLaws::past_name, crate::specs::FormedWalkLaws::past_setting_again, crate::specs::FormedWalkLaws::past_setting))]
fn past_field(walk: Walk, field: Tagged, rest: &[u8]) -> Option<Walk>
    ensures { StepsPast walk (field_of field.entry) (fields_of rest.now) result }
{
    if !may_follow(field.tag, walk.before) || !field.contents_formed() {
        return None;
    }
    match field.tag {
        NAME_TAG if name_again(rest, field.contents) => None,
        NAME_TAG => Some(under_name(NAME_TAG, 0)),
        SETTING_TAG if set_again(rest, field.setting_name()) => None,
        SETTING_TAG => Some(Walk {
            before: SETTING_TAG,
            ..walk
        }),
        VERSION_TAG => past_version(walk, word_at(field.contents, 0)),
        _ => past_highest(word_at(field.contents, 0)),
    }
}

// The store is formed. It walks along the fields once; at a name it looks for the same name in the whole rest of the store, at a setting for the
// same control in the rest of its version. So it takes time in proportion to at most the store's size times its name and setting fields together.
#[tactic(auto, using(crate::specs::FormedWalkLaws::walk_begins, crate::specs::FormedWalkLaws::left_end))]
pub fn store_formed(store: &[u8]) -> bool
    ensures { result ≡ store_formed store.now }
{
    let mut walk = under_name(0, 0);
    let mut rest = store;
    while let Some((field, behind)) = first_field(rest) {
        let Some(next) = past_field(walk, field, behind) else {
            return false;
        };
        walk = next;
        rest = behind;
    }
    closes(rest) && walk.before != NAME_TAG
}
