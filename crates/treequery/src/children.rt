// How many children each row of the reply has, and the group itself.
ghost use Rattle.std.specs.Prelude.{ℕ, List};
ghost use Rattle.treequery.specs.Nested.{Nested};
ghost use Rattle.treequery.specs.Children.{Families};

use layout::{DEPTH, MOST_NODES, NODES, RECORD};
use words::wide;

// The children of the records from one place of the table to another, in one walk, last record to first. `below` has for each
// depth how many children a record there has among those gone over.
pub fn tree_children(words: &[u32], at: usize, end: usize) -> [u8; MOST_NODES]
    requires { Nested words.now at end }
    ensures { (bs : List ℕ) → Families words.now bs at end result }
{
    let mut children = [0u8; MOST_NODES];
    let mut below = [0u8; MOST_NODES];
    for i in (at + 1..end).rev() {
        let depth = wide(words[NODES + RECORD * i + DEPTH]);
        children[i] = below[depth];
        below[depth] = 0;
        below[depth - 1] += 1;
    }
    children[at] = below[wide(words[NODES + RECORD * at + DEPTH])];
    children
}
