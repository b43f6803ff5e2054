// The fields of the settings that a save takes: how long they are, and their bytes.
ghost use Rattle.std.specs.Prelude.{ℕ, ◌+◌, ◌≤◌, ◌≡◌, List, length};
ghost use Rattle.words.specs.Parts.{over};
ghost use Rattle.format.specs.Reader.{size_limit};
ghost use Rattle.readable.specs.OwnLabels.{OwnLabelled};
ghost use Rattle.readable.specs.Readable.{Readable};
ghost use Rattle.model.specs.Layout.{row_words};
ghost use Rattle.settings.specs.OwnFields.{setting_bytes, control_bytes, taken_in};

use crate::FLOAT_SIZE;
use fields::name_at;
use osc::{put_bytes, put_int};
use store::put_head;
use tagged::HEAD_SIZE;
use words::wide;

// A control's name and its float.
const SETTING_TAG: u8 = 3;

// How many bytes the setting of a control takes whose name stands at a place, none where that is 0.
// Kept: 0 is the place that `own_labels` gives where a control has no name.
fn setting_size(definition: &[u8], place: u32) -> usize
    requires { length definition.now ≤ size_limit }
    ensures { (float : ℕ) → result ≡ length (control_bytes definition.now place float) }
{
    if place == 0 {
        return 0;
    }
    let name = name_at(definition, wide(place));
    HEAD_SIZE + name.len() + FLOAT_SIZE
}

// The setting of a control written from a place on, and the place past it.
fn write_setting(out: &mut [u8], at: usize, definition: &[u8], place: u32, float: u32) -> usize
    requires { (length definition.now ≤ size_limit) × (at + length (control_bytes definition.now place float) ≤ length out.old) }
    ensures { (result ≡ at + length (control_bytes definition.now place float)) × (out.new ≡ over at (control_bytes definition.now place float) out.old) }
{
    if place == 0 {
        return at;
    }
    let name = name_at(definition, wide(place));
    let size = name.len();
    put_head(out, at, SETTING_TAG, size + FLOAT_SIZE);
    put_bytes(out, at + HEAD_SIZE, name);
    let end = at + HEAD_SIZE + size;
    put_int(out, end, float);
    end + FLOAT_SIZE
}

// How many bytes the settings take that a save takes by a definition, whatever the floats are.
pub(crate) fn settings_size(definition: &[u8], labels: &[u32; 32]) -> usize
    requires { Readable definition.now × OwnLabelled definition.now labels.now }
    ensures { (row : List ℕ) → result ≡ length (setting_bytes (taken_in definition.now row)) }
{
    let count = wide(readable::parameters(definition));
    let mut size = 0;
    for i in 0..count {
        size += setting_size(definition, labels[i]);
    }
    size
}

// These settings written over a run that they fill: the own floats of a row of controls, in the order of their indices.
pub(crate) fn write_settings(out: &mut [u8], definition: &[u8], labels: &[u32; 32], row: &[u32])
    requires { Readable definition.now × OwnLabelled definition.now labels.now × (row_words ≤ length row.now) × (length out.old ≡ length (setting_bytes (taken_in definition.now row.now))) }
    ensures { out.new ≡ setting_bytes (taken_in definition.now row.now) }
{
    let count = wide(readable::parameters(definition));
    let mut at = 0;
    for i in 0..count {
        at = write_setting(out, at, definition, labels[i], row[2 * i]);
    }
}
