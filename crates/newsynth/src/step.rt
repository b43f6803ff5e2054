// Every command of the tree kind, by its own function.
ghost use Rattle.model.specs.declared.Command.TheVariants as kinds;
ghost use Rattle.model.specs.Answers.{done_or};
ghost use Rattle.state.specs.Known.{Known};
ghost use Rattle.state.specs.Does.{WordsStep};

use crate::synth::new_synth;
use model::TreeCommand;
use refusals::Refusal;
use treecommands::{
    deep_free, free_all, free_node, move_after, move_before, move_head, move_tail, new_group,
    run_node,
};

// A command of the tree kind; the name of a new synth's definition is in the bytes.
#[tactic(auto, using(treecommands::specs::Ready::ready))]
pub fn tree_step(
    command: TreeCommand,
    bytes: &[u8],
    words: &mut [u32],
    arena: &[u8],
) -> Result<(), Refusal>
    requires { Known words.old arena.now }
    ensures { WordsStep (kinds.Tree command) bytes.now words.old arena.now (done_or result) words.new }
{
    match command {
        TreeCommand::NewSynth {
            number,
            action,
            target,
        } => new_synth(number, action, target, bytes, words, arena),
        TreeCommand::NewGroup {
            number,
            action,
            target,
        } => new_group(number, action, target, words),
        TreeCommand::Free { node } => free_node(node, words),
        TreeCommand::FreeAll { group } => free_all(group, words),
        TreeCommand::DeepFree { group } => deep_free(group, words),
        TreeCommand::Before { node, place } => move_before(node, place, words),
        TreeCommand::After { node, place } => move_after(node, place, words),
        TreeCommand::Head { group, node } => move_head(group, node, words),
        TreeCommand::Tail { group, node } => move_tail(group, node, words),
        TreeCommand::Run { node, flag } => run_node(node, flag, words),
    }
}
