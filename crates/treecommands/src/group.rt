// A new group.
ghost use Rattle.std.specs.Prelude.{◌≡◌};
ghost use Rattle.model.specs.Answers.{done_or};
ghost use Rattle.model.specs.declared.TreeCommand.{TreeCommand};
ghost use Rattle.tree.specs.Action.{number_of};
ghost use Rattle.treecommands.specs.Ready.{Ready};
ghost use Rattle.treecommands.specs.Settle.{renewed};
ghost use Rattle.treecommands.specs.Staying.{Added};
ghost use Rattle.treecommands.specs.Steps.{Steps};
ghost use Rattle.treecommands.specs.Grouping.{GroupPlaced};

use crate::adding::{bad_target, is_full};
use crate::finish::{renew, renew_kept};
use layout::{COUNT, GROUP, NODES, NODES_END};
use names::{node_place, place_of};
use nodes::Node;
use refusals::Refusal;
use reindex::Edit;
use tree::{Action, fill_gap, gap_by};
use values::NodeArgument;
use words::wide;

// The place of the target, behind the checks of /g_new that follow the add action's.
fn group_spot(
    number: u32,
    action: Action,
    target: NodeArgument,
    words: &[u32],
) -> Result<usize, Refusal>
    requires { Ready words.now }
    ensures { GroupPlaced number action target words.now result }
{
    if 2147483648 <= number {
        return Err(Refusal::BadNumber);
    }
    if place_of(words, number).is_some() {
        return Err(Refusal::NumberLive);
    }
    let at = node_place(words, target)?;
    if bad_target(action, at, words) {
        return Err(Refusal::WrongKind);
    }
    let count = wide(words[COUNT]);
    if is_full(action, count) {
        return Err(Refusal::NodesFull);
    }
    Ok(at)
}

// What is derived, written afresh after an add action: only one that replaces frees nodes.
fn renew_added(words: &mut [u32], action: Action, edit: Edit, count: usize)
    requires { Added action edit count words.old }
    ensures { words.new ≡ renewed count words.old }
{
    match action {
        Action::Put(_position) => renew_kept(words, edit, count),
        Action::Replace => renew(words, edit, count),
    }
}

// A new group put in by an add action.
fn add_group(
    number: u32,
    action: Action,
    target: NodeArgument,
    words: &mut [u32],
) -> Result<(), Refusal>
    requires { Ready words.old }
    ensures { Steps (TreeCommand.NewGroup number (number_of action) target) words.old (done_or result) words.new }
{
    let at = group_spot(number, action, target, words)?;
    let count = wide(words[COUNT]);
    let group = Node {
        number,
        depth: 0,
        run: 1,
        slot: GROUP,
        row: 0,
    };
    let gap = gap_by(&words[NODES..NODES_END], count, action, at);
    let edit = Edit::Put(gap.at, gap.end);
    let after = fill_gap(&mut words[NODES..NODES_END], count, gap, group);
    renew_added(words, action, edit, after);
    Ok(())
}

// /g_new
pub fn new_group(
    number: u32,
    action: u32,
    target: NodeArgument,
    words: &mut [u32],
) -> Result<(), Refusal>
    requires { Ready words.old }
    ensures { Steps (TreeCommand.NewGroup number action target) words.old (done_or result) words.new }
{
    let by = Action::try_from(action)?;
    add_group(number, by, target, words)
}
