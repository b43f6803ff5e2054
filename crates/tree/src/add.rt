// Adding a node by an add action.
// Kept: the table is a run of the lent words with its count beside it (C interface): an edit changes the count and never the run.
ghost use Rattle.std.specs.Prelude.{◌≡◌, ◌∷◌, ◌++◌, ◌*◌, ◌≤◌, ◌<◌, length, take, drop};
ghost use Rattle.nodes.specs.Table.{width, rows};
ghost use Rattle.nodes.specs.Edit.{level};
ghost use Rattle.tree.specs.Sizes.{Leaves};
ghost use Rattle.tree.specs.Add.{Target, Room, place_by};
ghost use Rattle.tree.specs.Gaps.{gap_by, in_gap, Gapped};

use crate::action::{Action, Position};
use crate::change::{insert, remove};
use crate::runs::put_node;
use crate::search::subtree_end;
use layout::{DEPTH, RECORD};
use nodes::Node;

// Where a record goes, and the depth that it has there.
#[derive(Clone, Copy)]
pub struct Place {
    pub at: usize,
    pub depth: u32,
}

// The place at a position by the node at another place.
pub fn place_by(nodes: &[u32], count: usize, position: Position, at: usize) -> Place
    requires { Target nodes.now count at }
    ensures { result ≡ place_by position count nodes.now at }
{
    let depth = nodes[RECORD * at + DEPTH];
    match position {
        Position::Head => Place {
            at: at + 1,
            depth: depth + 1,
        },
        Position::Tail => Place {
            at: subtree_end(nodes, count, at),
            depth: depth + 1,
        },
        Position::Before => Place { at, depth },
        Position::After => Place {
            at: subtree_end(nodes, count, at),
            depth,
        },
    }
}

// A record at another depth.
fn at_depth(node: Node, depth: u32) -> Node
    ensures { result ≡ level depth node }
{
    Node { depth, ..node }
}

// What a new record comes for, the records from `at` up to `end`, and the depth that it has there.
#[derive(Clone, Copy)]
pub struct Gap {
    pub at: usize,
    pub end: usize,
    pub depth: u32,
}

// The gap that an add action by the node at a place opens; one that replaces takes the target's run out.
pub fn gap_by(nodes: &[u32], count: usize, action: Action, at: usize) -> Gap
    requires { Room nodes.now count action at }
    ensures { result ≡ gap_by action count nodes.now at }
{
    match action {
        Action::Put(position) => {
            let to = place_by(nodes, count, position, at);
            Gap {
                at: to.at,
                end: to.at,
                depth: to.depth,
            }
        }
        Action::Replace => Gap {
            at,
            end: subtree_end(nodes, count, at),
            depth: nodes[RECORD * at + DEPTH],
        },
    }
}

// The records from `at` up to `end` taken out, and another put in there.
fn replace(nodes: &mut [u32], count: usize, at: usize, end: usize, node: Node) -> usize
    requires { (at < end) × ((end ≤ count) × (width * count ≤ length nodes.old)) }
    ensures { Leaves nodes.old (take at (rows count nodes.old) ++ node ∷ drop end (rows count nodes.old)) nodes.new result }
{
    let left = remove(nodes, count, at + 1, end);
    put_node(nodes, at, node);
    left
}

// A node put into a gap.
pub fn fill_gap(nodes: &mut [u32], count: usize, gap: Gap, node: Node) -> usize
    requires { Gapped nodes.old count gap }
    ensures { Leaves nodes.old (in_gap gap node (rows count nodes.old)) nodes.new result }
{
    let at = gap.at;
    let end = gap.end;
    let new = at_depth(node, gap.depth);
    if at < end {
        replace(nodes, count, at, end, new)
    } else {
        insert(nodes, count, at, new)
    }
}
