// A save: the own floats of a synth into the store, as a new version under the name of its definition.
ghost use Rattle.std.specs.Prelude.{◌≤◌, true, ◌≡◌, length};
ghost use Rattle.readable.specs.Lookup.{name_in};
ghost use Rattle.readable.specs.Readable.{Readable};
ghost use Rattle.model.specs.Layout.{row_words};
ghost use Rattle.store.specs.Store.{store_formed};
ghost use Rattle.settings.specs.OwnFields.{taken_in};
ghost use Rattle.settings.specs.Settings.{Saves};
ghost use Rattle.settings.specs.Saving.{SavesTaken};

use crate::synth::synth_place;
use crate::taken::{settings_size, write_settings};
use controls::{node_definition, node_row};
use layout::{CONTROLS, CONTROLS_END, ROW_WORDS};
use readable::own_labels;
use refusals::Refusal;
use store::{measure, open_version};
use values::NodeArgument;
use words::wide;

// How many versions a name may have.
const MOST_VERSIONS: usize = 16;

// The version that no other follows.
const LAST_VERSION: u32 = 4294967295;

// The settings of a row of controls, by their definition's bytes, saved under its name. Whether there is room is known before the first byte is
// written.
fn save_taken(definition: &[u8], row: &[u32], store: &mut [u8]) -> Result<u32, Refusal>
    requires { Readable definition.now × (row_words ≤ length row.now) × (store_formed store.old ≡ true) }
    ensures { SavesTaken (name_in definition.now) (taken_in definition.now row.now) store.old result store.new }
{
    let name = readable::name(definition);
    let known = measure(store, name);
    if MOST_VERSIONS <= known.versions {
        return Err(Refusal::VersionsFull);
    }
    if known.highest == LAST_VERSION {
        return Err(Refusal::StoreFull);
    }
    let labels = own_labels(definition);
    let size = settings_size(definition, &labels);
    if store.len() < known.length || store.len() - known.length < size {
        return Err(Refusal::StoreFull);
    }
    let at = open_version(store, name, size);
    let end = at + size;
    write_settings(&mut store[at..end], definition, &labels, row);
    Ok(known.highest + 1)
}

// A save of the node that an argument means.
pub fn save(
    node: NodeArgument,
    words: &[u32],
    arena: &[u8],
    store: &mut [u8],
) -> Result<u32, Refusal>
    ensures { Saves node words.now arena.now store.old result store.new }
{
    let at = synth_place(node, words, arena, store)?;
    let definition = node_definition(words, arena, at);
    let row = CONTROLS + ROW_WORDS * wide(node_row(words, at));
    save_taken(definition, &words[row..CONTROLS_END], store)
}
