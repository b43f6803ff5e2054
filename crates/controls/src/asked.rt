// What is asked of a node's controls: whether they are there, and what reading one gives.
ghost use Rattle.std.specs.Prelude.{◌<◌, false, ◌≡◌, length};
ghost use Rattle.format.specs.Reader.{most_parameters};
ghost use Rattle.nodes.specs.Formed.{most_rows};
ghost use Rattle.nodes.specs.Place.{is_group};
ghost use Rattle.values.specs.Controls.{shown_by};
ghost use Rattle.model.specs.Layout.{words_length, count_in, controls_in, buses_in, record_in};
ghost use Rattle.model.specs.Engine.{decode, definition_of, controls_of};
ghost use Rattle.model.specs.Meaning.{negative_key, cover_of};
ghost use Rattle.model.specs.Replies.{read_at};
ghost use Rattle.controls.specs.Ready.{Ready};
ghost use Rattle.controls.specs.Asked.{controls_missing, controls_asked, control_in};

use crate::definition::{asked_of, key_cover};
use crate::node::{node_definition, node_row};
use crate::synth::read_at;
use layout::{BUSES, BUSES_END, CONTROLS, CONTROLS_END, ROW_WORDS};
use names::node_is_group;
use refusals::Refusal;
use values::Key;
use words::wide;

// "Negative indices are always refused."
fn negative_key(key: Key) -> bool
    ensures { result ≡ negative_key key }
{
    match key {
        Key::Index(i) => 2147483648 <= i,
        Key::Name => false,
    }
}

// The tests of refusals 21 and 28 on the node at a place, by one lookup. 21: a negative index or count always; on a synth, controls that it lacks;
// on a group no more.
// 28: on a synth more controls than the key covers.
pub fn controls_asked(
    words: &[u32],
    arena: &[u8],
    place: usize,
    key: Key,
    name: &[u8],
    count: u32,
) -> Result<(), Refusal>
    requires { (Ready words.now arena.now) × (place < count_in words.now) }
    ensures { result ≡ controls_asked key count name.now (decode words.now arena.now).slots (record_in words.now place) }
{
    if negative_key(key) || 2147483648 <= count {
        return Err(Refusal::NoControl);
    }
    if node_is_group(words, place) {
        return Ok(());
    }
    asked_of(node_definition(words, arena, place), key, name, count)
}

// Refusal 21's test alone.
pub fn controls_missing(
    words: &[u32],
    arena: &[u8],
    place: usize,
    key: Key,
    name: &[u8],
    count: u32,
) -> bool
    requires { (Ready words.now arena.now) × (place < count_in words.now) }
    ensures { result ≡ controls_missing key count name.now (decode words.now arena.now).slots (record_in words.now place) }
{
    let Err(refusal) = controls_asked(words, arena, place, key, name, count) else {
        return false;
    };
    matches!(refusal, Refusal::NoControl)
}

// What reading a control of a row gives: the bus where it is mapped, otherwise its own float.
pub fn read_control(words: &[u32], row: u32, index: u32) -> u32
    requires { (length words.now ≡ words_length) × (row < most_rows) × (index < most_parameters) }
    ensures { result ≡ shown_by (buses_in words.now) (control_in (controls_in words.now) row index) }
{
    let at = ROW_WORDS * wide(row) + 2 * wide(index);
    read_at(&words[CONTROLS..CONTROLS_END], &words[BUSES..BUSES_END], at)
}

// What reading the control that a key names gives, of the synth at a place; 0 where it lacks it.
// Kept: 0 for none is what the model's `read_at` answers, which `read_key` promises.
pub fn read_key(words: &[u32], arena: &[u8], place: usize, key: Key, name: &[u8]) -> u32
    requires { (Ready words.now arena.now) × (place < count_in words.now) × (is_group (record_in words.now place) ≡ false) }
    ensures { result ≡ read_at (buses_in words.now) (controls_of (decode words.now arena.now).slots (controls_in words.now) (record_in words.now place)) (cover_of key name.now (definition_of (decode words.now arena.now).slots (record_in words.now place))) }
{
    let Some(cover) = key_cover(node_definition(words, arena, place), key, name) else {
        return 0;
    };
    if cover.width == 0 {
        return 0;
    }
    read_control(words, node_row(words, place), cover.index)
}
