// /s_new
ghost use Rattle.std.specs.Prelude.{ℕ, List};
ghost use Rattle.values.specs.declared.NodeArgument.{NodeArgument};
ghost use Rattle.model.specs.declared.TreeCommand.TheVariants as tree;
ghost use Rattle.model.specs.declared.Command.TheVariants as command;
ghost use Rattle.model.specs.Answers.{Done, done_or};
ghost use Rattle.state.specs.Known.{Known};
ghost use Rattle.state.specs.Does.{WordsStep};
ghost use Rattle.tree.specs.Action.{number_of};
ghost use Rattle.newsynth.specs.Synth.{MakingReady, Fit};

use crate::checks::synth_spot;
use crate::numbers::{next_after, number_for};
use crate::rows::row_for;
use layout::{CONTROLS, CONTROLS_END, COUNT, NEXT, NODES, NODES_END};
use nodes::Node;
use refusals::Refusal;
use reindex::Edit;
use slots::slot_bytes;
use tree::{Action, fill_gap, gap_by};
use treecommands::settle;
use values::NodeArgument;
use words::wide;

// A new synth, which runs, put in by the add action, with its definition's initial values.
fn put_synth(number: u32, action: Action, at: usize, slot: usize, words: &mut [u32], arena: &[u8])
    requires { Fit number action at slot words.old arena.now }
    ensures { (target : NodeArgument) (bytes : List ℕ) → MakingReady number action target at slot bytes words.old arena.now → WordsStep (command.Tree (tree.NewSynth number (number_of action) target)) bytes words.old arena.now Done words.new }
{
    let count = wide(words[COUNT]);
    let next = words[NEXT];
    let definition = slot_bytes(words, arena, slot);
    let row = row_for(&words[NODES..NODES_END], count, action, at);
    let given = number_for(number, next);
    let node = Node {
        number: given,
        depth: 0,
        run: 1,
        slot: slot as u32,
        row,
    };
    let gap = gap_by(&words[NODES..NODES_END], count, action, at);
    let edit = Edit::Put(gap.at, gap.end);
    let many = fill_gap(&mut words[NODES..NODES_END], count, gap, node);
    let after = next_after(number, next);
    settle(words, edit, many, after, given);
    controls::initial_row(&mut words[CONTROLS..CONTROLS_END], row, definition);
}

// A new synth made by an add action.
fn add_synth(
    number: u32,
    action: Action,
    target: NodeArgument,
    bytes: &[u8],
    words: &mut [u32],
    arena: &[u8],
) -> Result<(), Refusal>
    requires { Known words.old arena.now }
    ensures { WordsStep (command.Tree (tree.NewSynth number (number_of action) target)) bytes.now words.old arena.now (done_or result) words.new }
{
    let (slot, at) = synth_spot(number, action, target, bytes, words, arena)?;
    put_synth(number, action, at, slot, words, arena);
    Ok(())
}

// /s_new; the definition's name is in the bytes.
pub fn new_synth(
    number: u32,
    action: u32,
    target: NodeArgument,
    bytes: &[u8],
    words: &mut [u32],
    arena: &[u8],
) -> Result<(), Refusal>
    requires { Known words.old arena.now }
    ensures { WordsStep (command.Tree (tree.NewSynth number action target)) bytes.now words.old arena.now (done_or result) words.new }
{
    let by = Action::try_from(action)?;
    add_synth(number, by, target, bytes, words, arena)
}
