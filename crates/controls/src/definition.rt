// What a definition, in its encoded bytes, tells of its controls. Its front is known to be readable.
ghost use Rattle.std.specs.Prelude.{◌+◌, ◌-◌, ◌*◌, ◌≤◌, ◌≡◌, length};
ghost use Rattle.words.specs.Parts.{over};
ghost use Rattle.format.specs.Fields.{float32};
ghost use Rattle.readable.specs.Readable.{Readable};
ghost use Rattle.model.specs.Layout.{row_words};
ghost use Rattle.model.specs.Engine.{value_or};
ghost use Rattle.model.specs.Meaning.{cover_of};
ghost use Rattle.model.specs.Effects.{initial_words};
ghost use Rattle.readable.specs.Lookup.{cover_at};
ghost use Rattle.controls.specs.Encoded.{front_in, front_only};
ghost use Rattle.controls.specs.Cover.{asked_in, Within};
ghost use Rattle.controls.specs.Initial.{floats_from};

use fields::Cursor;
use layout::ROW_WORDS;
use readable::Cover;
use refusals::Refusal;
use values::Key;
use words::wide;

// P, the number of controls.
pub fn parameter_count(definition: &[u8]) -> u32
    requires { Readable definition.now }
    ensures { result ≡ length (front_in definition.now).values }
{
    readable::parameters(definition)
}

// The controls from an index on.
fn index_cover(definition: &[u8], index: u32) -> Cover
    requires { Readable definition.now }
    ensures { result ≡ record { index = index; width = length (front_in definition.now).values - index } }
{
    let width = parameter_count(definition).saturating_sub(index);
    Cover { index, width }
}

// What a key covers: an index all controls from there on, a name those up to its width.
pub fn key_cover(definition: &[u8], key: Key, name: &[u8]) -> Option<Cover>
    requires { Readable definition.now }
    ensures { cover_at result ≡ cover_of key name.now (front_only definition.now) }
{
    match key {
        Key::Index(i) => Some(index_cover(definition, i)),
        Key::Name => readable::name_cover(definition, name),
    }
}

// Controls that are asked for: some are not there (refusal 21), or they are more than what is covered (28). Those that are covered are there.
pub fn asked_by(definition: &[u8], cover: Option<Cover>, count: u32) -> Result<(), Refusal>
    requires { Readable definition.now × Within definition.now cover }
    ensures { result ≡ asked_in (cover_at cover) count (front_only definition.now) }
{
    let Some(cover) = cover else {
        return Err(Refusal::NoControl);
    };
    if 0 < cover.width && count <= cover.width {
        return Ok(());
    }
    let p = parameter_count(definition);
    if p < cover.index || p - cover.index < count {
        return Err(Refusal::NoControl);
    }
    if cover.width < count {
        return Err(Refusal::PastWidth);
    }
    Ok(())
}

// The same, by the key.
pub fn asked_of(definition: &[u8], key: Key, name: &[u8], count: u32) -> Result<(), Refusal>
    requires { Readable definition.now }
    ensures { result ≡ asked_in (cover_of key name.now (front_only definition.now)) count (front_only definition.now) }
{
    asked_by(definition, key_cover(definition, key, name), count)
}

// The pattern of the float at a place, 0 where it is not whole.
fn float_at(s: &[u8], at: usize) -> u32
    ensures { result ≡ value_or 0 (float32 s.now at) }
{
    let cursor = Cursor { at };
    match cursor.float32(s) {
        Ok((pattern, _)) => pattern,
        Err(_) => 0,
    }
}

// Controls from a place on: so many floats, from a place in a definition on, each unmapped.
fn write_initial(controls: &mut [u32], at: usize, s: &[u8], start: usize, count: usize)
    requires { (at + 2 * count ≤ length controls.old) × (start + 4 * count ≤ length s.now) }
    ensures { controls.new ≡ over at (initial_words (floats_from s.now count start)) controls.old }
{
    for i in 0..count {
        let pattern = float_at(s, start + 4 * i);
        controls[at + 2 * i] = pattern;
        controls[at + 2 * i + 1] = 0;
    }
}

// A new synth's controls: its definition's initial values, unmapped.
pub fn initial_row(controls: &mut [u32], row: u32, definition: &[u8])
    requires { (row_words * row + row_words ≤ length controls.old) × Readable definition.now }
    ensures { controls.new ≡ over (row_words * row) (initial_words (front_in definition.now).values) controls.old }
{
    let (start, count) = readable::values(definition);
    if count != 0 {
        let at = ROW_WORDS * wide(row);
        write_initial(controls, at, definition, start, wide(count));
    }
}
