// A recall: the settings of a version set in a synth, one by one.
ghost use Rattle.std.specs.Prelude.{◌+◌, ◌≤◌, true, ◌≡◌, length};
ghost use Rattle.model.specs.Answers.{done_or};
ghost use Rattle.model.specs.Formed.{formed};
ghost use Rattle.tagged.specs.Fields.{head_size};
ghost use Rattle.store.specs.Store.{number_size, store_formed};
ghost use Rattle.settings.specs.Recalling.{Recalls};
ghost use Rattle.settings.specs.Recalled.{SettingSet, setting_at, VersionSet};

use crate::FLOAT_SIZE;
use crate::synth::synth_place;
use controlcommands::control_step;
use fields::word_at;
use model::ControlCommand;
use refusals::Refusal;
use store::version_place;
use tagged::{HEAD_SIZE, size_at};
use values::{Key, NodeArgument, Value};

// One setting, whose field of so many bytes stands at a place of the store: `/n_set` by its name. A synth that lacks the name refuses it, and the
// recall goes on.
fn set_at(node: NodeArgument, store: &[u8], at: usize, size: usize, words: &mut [u32], arena: &[u8])
    requires { (number_size ≤ size) × ((at + (head_size + size) ≤ length store.now) × (formed words.old arena.now ≡ true)) }
    ensures { SettingSet node (setting_at store.now at size) words.old arena.now words.new }
{
    let start = at + HEAD_SIZE;
    let end = start + (size - FLOAT_SIZE);
    let value = Value::Float(word_at(store, end));
    let command = ControlCommand::Set {
        node,
        key: Key::Name,
        value,
    };
    let _ = control_step(command, &store[start..end], words, arena);
}

// The settings of a version, in stored order; refusal 32 where there is none of this name and number.
fn recall_version(
    name: &[u8],
    number: u32,
    node: NodeArgument,
    store: &[u8],
    words: &mut [u32],
    arena: &[u8],
) -> Result<(), Refusal>
    requires { (store_formed store.now ≡ true) × (formed words.old arena.now ≡ true) }
    ensures { VersionSet name.now number node store.now words.old arena.now (done_or result) words.new }
{
    let (start, end) = version_place(store, name, number).ok_or(Refusal::NoVersion)?;
    let mut at = start;
    while at < end {
        let size = size_at(store, at);
        set_at(node, store, at, size, words, arena);
        at += HEAD_SIZE + size;
    }
    Ok(())
}

// A recall in any state and any store at all, by the order of its checks; the state check is made once.
pub fn recall(
    name: &[u8],
    number: u32,
    node: NodeArgument,
    store: &[u8],
    words: &mut [u32],
    arena: &[u8],
) -> Result<(), Refusal>
    ensures { Recalls name.now number node store.now words.old arena.now (done_or result) words.new }
{
    synth_place(node, words, arena, store)?;
    recall_version(name, number, node, store, words, arena)
}
