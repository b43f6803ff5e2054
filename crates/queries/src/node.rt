// /n_query
ghost use Rattle.model.specs.declared.Query.TheVariants as query;
ghost use Rattle.model.specs.Answers.{replied_or};
ghost use Rattle.state.specs.Known.{Known};
ghost use Rattle.state.specs.Does.{Reply};

use layout::{COUNT, GROUP, NODES, NODES_END, RECORD, SLOT};
use names::node_place;
use refusals::Refusal;
use replies::send_words;
use tree::{head_of, next_of, parent_of, previous_of, tail_of};
use values::NodeArgument;
use words::{MINUS_ONE, wide};

// Where a node stands, as /n_info.
pub fn node_query(
    words: &[u32],
    arena: &[u8],
    bytes: &[u8],
    out: &mut [u8],
    node: NodeArgument,
) -> Result<usize, Refusal>
    requires { Known words.now arena.now }
    ensures { Reply (query.Node node) bytes.now words.now arena.now out.old (replied_or result) out.new }
{
    let at = node_place(words, node)?;
    let count = wide(words[COUNT]);
    let nodes = &words[NODES..NODES_END];
    let number = nodes[RECORD * at];
    let parent = parent_of(nodes, at).unwrap_or(MINUS_ONE);
    let previous = previous_of(nodes, at).unwrap_or(MINUS_ONE);
    let next = next_of(nodes, count, at).unwrap_or(MINUS_ONE);
    if nodes[RECORD * at + SLOT] == GROUP {
        let head = head_of(nodes, count, at).unwrap_or(MINUS_ONE);
        let tail = tail_of(nodes, count, at).unwrap_or(MINUS_ONE);
        let arguments = [number, parent, previous, next, 1, head, tail];
        return send_words(out, b"/n_info", b",iiiiiii", &arguments);
    }
    let arguments = [number, parent, previous, next, 0];
    send_words(out, b"/n_info", b",iiiii", &arguments)
}
