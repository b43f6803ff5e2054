// Commands that move a node with all below it.
ghost use Rattle.model.specs.Answers.{done_or};
ghost use Rattle.model.specs.declared.TreeCommand.{TreeCommand};
ghost use Rattle.model.specs.Checks.{beside_checks, into_checks};
ghost use Rattle.treecommands.specs.Ready.{Ready};
ghost use Rattle.treecommands.specs.Steps.{Steps};
ghost use Rattle.treecommands.specs.Sighting.{PairJudged, PairFound};
ghost use Rattle.treecommands.specs.Moving.{move_command, move_checks};

use crate::finish::renew_kept;
use crate::indexing::move_edit;
use crate::place::is_synth;
use layout::{COUNT, NODES, NODES_END};
use names::node_place;
use refusals::Refusal;
use tree::{Position, move_to, place_by, subtree_end};
use values::NodeArgument;
use words::wide;

// "17 .. by argument order": the places of the nodes that two arguments mean.
fn pair_of(
    first: NodeArgument,
    second: NodeArgument,
    words: &[u32],
) -> Result<(usize, usize), Refusal>
    requires { Ready words.now }
    ensures { PairJudged first second words.now result }
{
    let a = node_place(words, first)?;
    let b = node_place(words, second)?;
    Ok((a, b))
}

// The checks of /n_before and /n_after: the places of the node that is moved and of the node that it goes beside.
fn beside(node: NodeArgument, place: NodeArgument, words: &[u32]) -> Result<(usize, usize), Refusal>
    requires { Ready words.now }
    ensures { PairFound (beside_checks node place) node place words.now result }
{
    let (a, b) = pair_of(node, place, words)?;
    if a == 0 || b == 0 {
        return Err(Refusal::WrongKind);
    }
    let count = wide(words[COUNT]);
    if tree::lies_below(&words[NODES..NODES_END], count, b, a) {
        return Err(Refusal::InsideItself);
    }
    Ok((a, b))
}

// The checks of /g_head and /g_tail: the places of the node that is moved and of the group that it goes into.
fn into(group: NodeArgument, node: NodeArgument, words: &[u32]) -> Result<(usize, usize), Refusal>
    requires { Ready words.now }
    ensures { PairFound (into_checks group node) node group words.now result }
{
    let (b, a) = pair_of(group, node, words)?;
    if is_synth(words, b) || a == 0 {
        return Err(Refusal::WrongKind);
    }
    let count = wide(words[COUNT]);
    if tree::lies_below(&words[NODES..NODES_END], count, b, a) {
        return Err(Refusal::InsideItself);
    }
    Ok((a, b))
}

// The checks of the move to a position: the places of the node that is moved and of the one by which it goes.
fn move_places(
    node: NodeArgument,
    position: Position,
    by: NodeArgument,
    words: &[u32],
) -> Result<(usize, usize), Refusal>
    requires { Ready words.now }
    ensures { PairFound (move_checks position node by) node by words.now result }
{
    match position {
        Position::Head | Position::Tail => into(by, node, words),
        Position::Before | Position::After => beside(node, by, words),
    }
}

// A node moved to a position by another.
fn move_node(
    node: NodeArgument,
    position: Position,
    by: NodeArgument,
    words: &mut [u32],
) -> Result<(), Refusal>
    requires { Ready words.old }
    ensures { Steps (move_command position node by) words.old (done_or result) words.new }
{
    let (a, b) = move_places(node, position, by, words)?;
    let count = wide(words[COUNT]);
    let end = subtree_end(&words[NODES..NODES_END], count, a);
    let to = place_by(&words[NODES..NODES_END], count, position, b);
    let edit = move_edit(a, end, to.at);
    move_to(&mut words[NODES..NODES_END], count, a, end, to);
    renew_kept(words, edit, count);
    Ok(())
}

// /n_before
pub fn move_before(
    node: NodeArgument,
    place: NodeArgument,
    words: &mut [u32],
) -> Result<(), Refusal>
    requires { Ready words.old }
    ensures { Steps (TreeCommand.Before node place) words.old (done_or result) words.new }
{
    move_node(node, Position::Before, place, words)
}

// /n_after
pub fn move_after(node: NodeArgument, place: NodeArgument, words: &mut [u32]) -> Result<(), Refusal>
    requires { Ready words.old }
    ensures { Steps (TreeCommand.After node place) words.old (done_or result) words.new }
{
    move_node(node, Position::After, place, words)
}

// /g_head
pub fn move_head(group: NodeArgument, node: NodeArgument, words: &mut [u32]) -> Result<(), Refusal>
    requires { Ready words.old }
    ensures { Steps (TreeCommand.Head group node) words.old (done_or result) words.new }
{
    move_node(node, Position::Head, group, words)
}

// /g_tail
pub fn move_tail(group: NodeArgument, node: NodeArgument, words: &mut [u32]) -> Result<(), Refusal>
    requires { Ready words.old }
    ensures { Steps (TreeCommand.Tail group node) words.old (done_or result) words.new }
{
    move_node(node, Position::Tail, group, words)
}
