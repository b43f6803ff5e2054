// The checks that a save and a recall begin with.
ghost use Rattle.settings.specs.Synths.{SynthJudged};

use names::{node_is_group, node_place};
use refusals::Refusal;
use statecheck::well_formed;
use store::store_formed;
use values::NodeArgument;

// The place of the synth that an argument means, by the order of the checks: the state, the store, the node and its kind.
pub(crate) fn synth_place(
    node: NodeArgument,
    words: &[u32],
    arena: &[u8],
    store: &[u8],
) -> Result<usize, Refusal>
    ensures { SynthJudged node words.now arena.now store.now result }
{
    if !well_formed(words, arena) {
        return Err(Refusal::BadState);
    }
    if !store_formed(store) {
        return Err(Refusal::StoreUnformed);
    }
    let at = node_place(words, node)?;
    if node_is_group(words, at) {
        return Err(Refusal::WrongKind);
    }
    Ok(at)
}
