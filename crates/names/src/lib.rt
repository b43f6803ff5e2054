// The node that an argument means, by its place, and whether the node at a place is a group.
#![tactic(auto)]

ghost use Rattle.std.specs.Prelude.{◌<◌, ◌≡◌, IfSome, length, unwrap_or};
ghost use Rattle.nodes.specs.Place.{place, is_group};
ghost use Rattle.nodes.specs.Formed.{most_nodes};
ghost use Rattle.model.specs.Layout.{words_length, count_in, nodes_in, record_in};
ghost use Rattle.names.specs.Named.{Findable, Named};
ghost use Rattle.names.specs.Judged.{Judged};

use index::find_indexed;
use layout::{COUNT, GROUP, INDEX, INDEX_END, LATEST, NODES, NODES_END, RECORD, SLOT};
use refusals::Refusal;
use values::{NodeArgument, Target, target_of};
use words::wide;

// The node at a place is a group.
pub fn node_is_group(words: &[u32], place: usize) -> bool
    requires { (length words.now ≡ words_length) × (place < most_nodes) }
    ensures { result ≡ is_group (record_in words.now place) }
{
    words[NODES + RECORD * place + SLOT] == GROUP
}

// The place of the node with a number.
pub fn place_of(words: &[u32], number: u32) -> Option<usize>
    requires { Findable words.now }
    ensures place { unwrap_or result (count_in words.now) ≡ place number (nodes_in words.now) }
    ensures below { IfSome result (λ at. at < count_in words.now) }
{
    let count = wide(words[COUNT]);
    find_indexed(
        &words[NODES..NODES_END],
        &words[INDEX..INDEX_END],
        count,
        number,
    )
}

// The place of the node whose number an argument means.
fn meant_place(words: &[u32], argument: NodeArgument) -> Option<usize>
    requires { Findable words.now }
    ensures named { Named argument words.now (unwrap_or result (count_in words.now)) }
    ensures below { IfSome result (λ at. at < count_in words.now) }
{
    match target_of(argument.number) {
        Target::Latest => {
            let latest = words[LATEST];
            if latest == 0 {
                return None;
            }
            place_of(words, latest)
        }
        Target::Number(number) => place_of(words, number),
        Target::Reserved => None,
    }
}

// A node argument, judged: every command and query that has one passes the refusal on as it comes.
pub fn node_place(words: &[u32], argument: NodeArgument) -> Result<usize, Refusal>
    requires { Findable words.now }
    ensures { Judged argument words.now result }
{
    meant_place(words, argument).ok_or(Refusal::NoNode)
}
