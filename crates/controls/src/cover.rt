// What a key covers in a slot's definition, and how many controls that has: each is looked up once.
ghost use Rattle.std.specs.Prelude.{◌<◌, ◌≡◌, length, IfSome};
ghost use Rattle.readable.specs.Lookup.{cover_at};
ghost use Rattle.readable.specs.Readable.{Readable};
ghost use Rattle.model.specs.Layout.{slot_count, words_length};
ghost use Rattle.controls.specs.Cover.{cover_on, controls_on};
ghost use Rattle.slots.specs.Slots.{slot_bytes};

use crate::definition::{key_cover, parameter_count};
use readable::Cover;
use slots::slot_bytes;
use values::Key;

// What a key covers in a slot's definition, looked up where it is not known already.
pub(crate) fn slot_cover(
    words: &[u32],
    arena: &[u8],
    slot: usize,
    key: Key,
    name: &[u8],
    known: Option<Option<Cover>>,
) -> Option<Cover>
    requires { (length words.now ≡ words_length) × (slot < slot_count) × (Readable (slot_bytes words.now arena.now slot)) × IfSome known (λ cover. cover_at cover ≡ cover_on key name.now words.now arena.now slot) }
    ensures { cover_at result ≡ cover_on key name.now words.now arena.now slot }
{
    match known {
        Some(cover) => cover,
        None => key_cover(slot_bytes(words, arena, slot), key, name),
    }
}

// How many controls a slot's definition has, where it is not known already.
pub(crate) fn slot_controls(words: &[u32], arena: &[u8], slot: usize, known: Option<u32>) -> u32
    requires { (length words.now ≡ words_length) × (slot < slot_count) × (Readable (slot_bytes words.now arena.now slot)) × IfSome known (λ many. many ≡ controls_on words.now arena.now slot) }
    ensures { result ≡ controls_on words.now arena.now slot }
{
    match known {
        Some(many) => many,
        None => parameter_count(slot_bytes(words, arena, slot)),
    }
}
