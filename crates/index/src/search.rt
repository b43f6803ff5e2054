// Looking a node up by the index, and the rule of the index.
ghost use Rattle.std.specs.Prelude.{◌≡◌, ◌<◌, IfSome, take, unwrap_or};
ghost use Rattle.nodes.specs.Table.{rows};
ghost use Rattle.index.specs.Index.{indexed};
ghost use Rattle.index.specs.Lookup.{most_steps, SettledBy};
ghost use Rattle.index.specs.Words.{IndexFits, Keeps};

use crate::step::{Known, answer, step};
use layout::RECORD;
use words::wide;

// The steps that settle every lookup.
const MOST_STEPS: usize = 10;

// The place of the node with this number. Stored numbers are handed to `step`, one each time, and to nothing else.
pub fn find_indexed(nodes: &[u32], index: &[u32], count: usize, number: u32) -> Option<usize>
    requires { Keeps nodes.now index.now count }
    ensures settled { SettledBy most_steps number (take count index.now) (rows count nodes.now) (unwrap_or result count) }
    ensures below { IfSome result (λ at. at < count) }
{
    let mut known = Known::Between(0, count);
    for _ in 0..MOST_STEPS {
        match known {
            Known::Found(place) => {
                return Some(place);
            }
            Known::Between(low, high) => {
                if high <= low {
                    return None;
                }
                let place = wide(index[low + (high - low) / 2]);
                known = step(known, number, place, nodes[RECORD * place]);
            }
        }
    }
    answer(known)
}

// The rule of the index: as many entries as nodes, each a node's place, and the nodes' numbers rise along them.
pub fn index_formed(nodes: &[u32], index: &[u32], count: usize) -> bool
    requires { IndexFits nodes.now index.now count }
    ensures { result ≡ indexed (take count index.now) (rows count nodes.now) }
{
    let mut least: usize = 0;
    for entry in &index[..count] {
        let place = wide(*entry);
        if count <= place {
            return false;
        }
        let number = wide(nodes[RECORD * place]);
        if number < least {
            return false;
        }
        least = number + 1;
    }
    true
}
