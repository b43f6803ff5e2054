// Changing the table: a record put in, a run taken out, a run flag set.
// Kept: the table is a run of the lent words with its count beside it (C interface): an edit changes the count and never the run.
ghost use Rattle.std.specs.Prelude.{◌≡◌, ◌∷◌, ◌++◌, ◌+◌, ◌*◌, ◌≤◌, length, take, drop};
ghost use Rattle.nodes.specs.Table.{width, rows, fill};
ghost use Rattle.nodes.specs.Edit.{edit_at, free_here, free_all_here, set_run_here};
ghost use Rattle.tree.specs.Sizes.{Placed, Leaves};

use crate::runs::{node_at, put_node};
use crate::search::subtree_end;
use layout::RECORD;
use nodes::Node;

// A record put in at a place.
pub fn insert(nodes: &mut [u32], count: usize, at: usize, node: Node) -> usize
    requires { (at ≤ count) × (width * count + width ≤ length nodes.old) }
    ensures { Leaves nodes.old (take at (rows count nodes.old) ++ node ∷ drop at (rows count nodes.old)) nodes.new result }
{
    nodes.copy_within(RECORD * at..RECORD * count, RECORD * (at + 1));
    put_node(nodes, at, node);
    count + 1
}

// The records from `from` up to `to` taken out.
pub fn remove(nodes: &mut [u32], count: usize, from: usize, to: usize) -> usize
    requires { (from ≤ to) × ((to ≤ count) × (width * count ≤ length nodes.old)) }
    ensures { Leaves nodes.old (take from (rows count nodes.old) ++ drop to (rows count nodes.old)) nodes.new result }
{
    nodes.copy_within(RECORD * to..RECORD * count, RECORD * from);
    count - (to - from)
}

// The node at this place taken out with all below it.
pub fn cut(nodes: &mut [u32], count: usize, at: usize) -> usize
    requires { Placed nodes.old count at }
    ensures { Leaves nodes.old (edit_at at free_here (rows count nodes.old)) nodes.new result }
{
    let end = subtree_end(nodes, count, at);
    remove(nodes, count, at, end)
}

// All below the node at this place taken out.
pub fn cut_below(nodes: &mut [u32], count: usize, at: usize) -> usize
    requires { Placed nodes.old count at }
    ensures { Leaves nodes.old (edit_at at free_all_here (rows count nodes.old)) nodes.new result }
{
    let end = subtree_end(nodes, count, at);
    remove(nodes, count, at + 1, end)
}

// The run flag of the node at this place set.
pub fn set_run(nodes: &mut [u32], count: usize, at: usize, flag: u32)
    requires { Placed nodes.old count at }
    ensures { nodes.new ≡ fill nodes.old (edit_at at (set_run_here flag) (rows count nodes.old)) }
{
    let node = node_at(nodes, at);
    put_node(nodes, at, Node { run: flag, ..node });
}
