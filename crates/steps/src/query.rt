// Queries in a well-formed state: each takes the words and the arena as `&`, so that it can't change them.
ghost use Rattle.model.specs.Answers.{replied_or};
ghost use Rattle.model.specs.declared.Query.{Query};
ghost use Rattle.state.specs.Known.{Known};
ghost use Rattle.state.specs.Does.{Reply};

use definitioncommands::export_query;
use model::Query;
use queries::{bus_query, control_query, node_query, status_query};
use refusals::Refusal;
use treequery::tree_query;

// A query: the size of its reply, which stands from the buffer's first byte on.
pub(crate) fn query_step(
    query: Query,
    bytes: &[u8],
    words: &[u32],
    arena: &[u8],
    reply: &mut [u8],
) -> Result<usize, Refusal>
    requires { Known words.now arena.now }
    ensures { Reply query bytes.now words.now arena.now reply.old (replied_or result) reply.new }
{
    match query {
        Query::Node { node } => node_query(words, arena, bytes, reply, node),
        Query::Control { node, key } => control_query(words, arena, bytes, reply, node, key),
        Query::Bus { bus } => bus_query(words, arena, bytes, reply, bus),
        Query::Tree { group, flag } => tree_query(words, arena, bytes, reply, group, flag),
        Query::Status => status_query(words, arena, bytes, reply),
        Query::Export => export_query(words, arena, reply),
    }
}
