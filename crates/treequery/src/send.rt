// The whole reply.
ghost use Rattle.std.specs.Prelude.{◌+◌, not, ◌≡◌, eqb};
ghost use Rattle.model.specs.declared.Query.TheVariants as query;
ghost use Rattle.model.specs.Answers.{replied_or};
ghost use Rattle.model.specs.Replies.{flag_number};
ghost use Rattle.replies.specs.Sent.{Sends};
ghost use Rattle.state.specs.Known.{Known};
ghost use Rattle.state.specs.Does.{Reply};
ghost use Rattle.treequery.specs.Rows.{Run, tree_message};
ghost use Rattle.treequery.specs.TreeMessage.{tree_front, FrontRoom};

use crate::children::tree_children;
use crate::count::count_tree;
use crate::places::Places;
use crate::shapes::{SHAPES, tree_shapes};
use crate::write::put_tree;
use layout::{COUNT, NODES, NODES_END, RECORD};
use names::{node_is_group, node_place};
use osc::{padded_length, put_bytes, put_padded, put_zeros};
use refusals::Refusal;
use replies::put_words;
use tree::subtree_end;
use values::NodeArgument;
use words::wide;

// "Any nonzero flag is 1."
fn is_shown(flag: u32) -> bool
    ensures { result ≡ not (eqb flag 0) }
{
    flag != 0
}

fn flag_number(shown: bool) -> u32
    ensures { result ≡ flag_number shown }
{
    u32::from(shown)
}

// What stands before and between the rows' tags and arguments: the address, the first tags, the zeros behind the tags, the first arguments.
fn put_front(out: &mut [u8], many: usize, front: usize, shown: bool, number: u32, children: u32)
    requires { FrontRoom many front out.old }
    ensures { out.new ≡ tree_front many front (flag_number shown) number children out.old }
{
    put_padded(out, 0, b"/g_queryTree.reply");
    put_bytes(out, 20, b",iii");
    put_zeros(out, 24 + many, 4 - (many + 4) % 4);
    let arguments = [flag_number(shown), number, children];
    put_words(out, front, &arguments);
}

// The reply of the group at a place, whose run ends at another.
fn send_tree(
    out: &mut [u8],
    words: &[u32],
    arena: &[u8],
    shown: bool,
    at: usize,
    end: usize,
) -> Result<usize, Refusal>
    requires { Run words.now arena.now (at + 1) end }
    ensures { Sends (tree_message shown words.now arena.now end at) out.old (replied_or result) out.new }
{
    let from = at + 1;
    let mut shapes = [0u32; SHAPES];
    if shown {
        tree_shapes(&mut shapes, words, arena, from, end);
    }
    let size = count_tree(words, arena, &shapes, shown, from, end);
    let many = size.tag;
    let front = 20 + padded_length(many + 4);
    let whole = front + 12 + size.byte;
    if out.len() < whole {
        return Err(Refusal::NoRoom);
    }
    let children = tree_children(words, at, end);
    let number = words[NODES + RECORD * at];
    put_front(out, many, front, shown, number, children[at] as u32);
    let places = Places {
        tag: 24,
        byte: front + 12,
    };
    put_tree(
        out, places, words, arena, &shapes, &children, shown, from, end,
    );
    Ok(whole)
}

// The tree below a group.
pub fn tree_query(
    words: &[u32],
    arena: &[u8],
    bytes: &[u8],
    out: &mut [u8],
    group: NodeArgument,
    flag: u32,
) -> Result<usize, Refusal>
    requires { Known words.now arena.now }
    ensures { Reply (query.Tree group flag) bytes.now words.now arena.now out.old (replied_or result) out.new }
{
    let at = node_place(words, group)?;
    if !node_is_group(words, at) {
        return Err(Refusal::WrongKind);
    }
    let count = wide(words[COUNT]);
    let end = subtree_end(&words[NODES..NODES_END], count, at);
    send_tree(out, words, arena, is_shown(flag), at, end)
}
