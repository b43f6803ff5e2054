// Records in the region: read and written.
ghost use Rattle.std.specs.Prelude.{◌≡◌, ◌+◌, ◌*◌, ◌≤◌, length};
ghost use Rattle.words.specs.Parts.{over};
ghost use Rattle.nodes.specs.Table.{width, node_from, words_of};

use layout::{DEPTH, RECORD, ROW, RUN, SLOT};
use nodes::Node;

// The record at a place.
pub fn node_at(nodes: &[u32], at: usize) -> Node
    requires { width * at + width ≤ length nodes.now }
    ensures { result ≡ node_from nodes.now (width * at) }
{
    let from = RECORD * at;
    Node {
        number: nodes[from],
        depth: nodes[from + DEPTH],
        run: nodes[from + RUN],
        slot: nodes[from + SLOT],
        row: nodes[from + ROW],
    }
}

// A record written at a place.
pub fn put_node(nodes: &mut [u32], at: usize, node: Node)
    requires { width * at + width ≤ length nodes.old }
    ensures { nodes.new ≡ over (width * at) (words_of node) nodes.old }
{
    let from = RECORD * at;
    nodes[from] = node.number;
    nodes[from + DEPTH] = node.depth;
    nodes[from + RUN] = node.run;
    nodes[from + SLOT] = node.slot;
    nodes[from + ROW] = node.row;
}
