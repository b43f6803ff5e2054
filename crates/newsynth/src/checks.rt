// The checks of /s_new behind the add action's: 14, 15, 16, 17, 18, 25, 20.
ghost use Rattle.state.specs.Known.{Known};
ghost use Rattle.newsynth.specs.Checks.{SynthPlaced};

use crate::numbers::{bad_number, is_live, is_spent};
use definitions::find_resident;
use layout::{COUNT, LENGTHS, NEXT, RESIDENT_END};
use names::node_place;
use refusals::Refusal;
use tree::Action;
use treecommands::{bad_target, is_full};
use values::NodeArgument;
use words::wide;

// The slot of a new synth's definition, whose name is in the bytes, and the place of its target.
pub fn synth_spot(
    number: u32,
    action: Action,
    target: NodeArgument,
    bytes: &[u8],
    words: &[u32],
    arena: &[u8],
) -> Result<(usize, usize), Refusal>
    requires { Known words.now arena.now }
    ensures { SynthPlaced number action target bytes.now words.now arena.now result }
{
    if bad_number(number) {
        return Err(Refusal::BadNumber);
    }
    if is_live(number, words) {
        return Err(Refusal::NumberLive);
    }
    let named = find_resident(&words[LENGTHS..RESIDENT_END], arena, bytes);
    let slot = named.ok_or(Refusal::NoDefinition)?;
    let at = node_place(words, target)?;
    if bad_target(action, at, words) {
        return Err(Refusal::WrongKind);
    }
    if is_spent(number, words[NEXT]) {
        return Err(Refusal::NoNumber);
    }
    let count = wide(words[COUNT]);
    if is_full(action, count) {
        return Err(Refusal::NodesFull);
    }
    Ok((slot, at))
}
