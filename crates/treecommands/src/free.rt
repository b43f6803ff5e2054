// Commands that free nodes, and the run flag.
ghost use Rattle.model.specs.Answers.{done_or};
ghost use Rattle.model.specs.declared.TreeCommand.{TreeCommand};
ghost use Rattle.treecommands.specs.Ready.{Ready};
ghost use Rattle.treecommands.specs.Steps.{Steps};
ghost use Rattle.treecommands.specs.Emptying.{GroupFound};

use crate::finish::{renew, renew_in_place, renew_sifted, renew_without};
use crate::place::is_synth;
use layout::{COUNT, NODES, NODES_END, RECORD};
use names::node_place;
use refusals::Refusal;
use reindex::{Edit, kept_places};
use tree::subtree_end;
use values::NodeArgument;
use words::wide;

// /n_run
pub fn run_node(node: NodeArgument, flag: u32, words: &mut [u32]) -> Result<(), Refusal>
    requires { Ready words.old }
    ensures { Steps (TreeCommand.Run node flag) words.old (done_or result) words.new }
{
    if 1 < flag {
        return Err(Refusal::BadFlag);
    }
    let at = node_place(words, node)?;
    let count = wide(words[COUNT]);
    tree::set_run(&mut words[NODES..NODES_END], count, at, flag);
    renew_in_place(words, count);
    Ok(())
}

// /n_free
pub fn free_node(node: NodeArgument, words: &mut [u32]) -> Result<(), Refusal>
    requires { Ready words.old }
    ensures { Steps (TreeCommand.Free node) words.old (done_or result) words.new }
{
    let at = node_place(words, node)?;
    if at == 0 {
        return Err(Refusal::WrongKind);
    }
    let count = wide(words[COUNT]);
    let gone = words[NODES + RECORD * at];
    let left = tree::cut(&mut words[NODES..NODES_END], count, at);
    let end = at + (count - left);
    if end == at + 1 {
        renew_without(words, Edit::Cut(at, end), left, gone);
    } else {
        renew(words, Edit::Cut(at, end), left);
    }
    Ok(())
}

// The place of the group that an argument means.
fn group_at(words: &[u32], group: NodeArgument) -> Result<usize, Refusal>
    requires { Ready words.now }
    ensures { GroupFound group words.now result }
{
    let at = node_place(words, group)?;
    if is_synth(words, at) {
        return Err(Refusal::WrongKind);
    }
    Ok(at)
}

// /g_freeAll
pub fn free_all(group: NodeArgument, words: &mut [u32]) -> Result<(), Refusal>
    requires { Ready words.old }
    ensures { Steps (TreeCommand.FreeAll group) words.old (done_or result) words.new }
{
    let at = group_at(words, group)?;
    let count = wide(words[COUNT]);
    let left = tree::cut_below(&mut words[NODES..NODES_END], count, at);
    let first = at + 1;
    let end = first + (count - left);
    renew(words, Edit::Cut(first, end), left);
    Ok(())
}

// /g_deepFree
pub fn deep_free(group: NodeArgument, words: &mut [u32]) -> Result<(), Refusal>
    requires { Ready words.old }
    ensures { Steps (TreeCommand.DeepFree group) words.old (done_or result) words.new }
{
    let at = group_at(words, group)?;
    let count = wide(words[COUNT]);
    let end = subtree_end(&words[NODES..NODES_END], count, at);
    let places = kept_places(&words[NODES..NODES_END], count, at + 1, end);
    let left = tree::deep_free(&mut words[NODES..NODES_END], count, at);
    renew_sifted(words, &places, left);
    Ok(())
}
