// The end of a node's run, along the table.
ghost use Rattle.std.specs.Prelude.{◌≡◌, ltb};
ghost use Rattle.nodes.specs.Sizes.{end_at};
ghost use Rattle.tree.specs.Sizes.{Placed};

use layout::{DEPTH, RECORD};

// Whether a record at the depth `other` lies below one at the depth `depth` that it follows.
fn is_deeper(depth: u32, other: u32) -> bool
    ensures { result ≡ ltb depth other }
{
    depth < other
}

// The end of the run of the node at this place: the first place behind it whose record is no deeper, or the count.
// Kept: the count is an end as any other: the run of the last node ends there.
pub fn subtree_end(nodes: &[u32], count: usize, at: usize) -> usize
    requires { Placed nodes.now count at }
    ensures { result ≡ end_at count nodes.now at }
{
    let depth = nodes[RECORD * at + DEPTH];
    for i in at + 1..count {
        if !is_deeper(depth, nodes[RECORD * i + DEPTH]) {
            return i;
        }
    }
    count
}
