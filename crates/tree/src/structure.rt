// Who stands around the node at a place.
ghost use Rattle.std.specs.Prelude.{ℕ, ◌≡◌, ◌+◌, ◌*◌, ◌≤◌, length, unwrap_or};
ghost use Rattle.nodes.specs.Table.{width};
ghost use Rattle.nodes.specs.Structure.{first_or, last_or};
ghost use Rattle.tree.specs.Sizes.{Placed, TwoPlaces};
ghost use Rattle.tree.specs.Around.{parent_or, previous_or, next_or, children_at};
ghost use Rattle.tree.specs.Ends.{in_run};

use crate::search::subtree_end;
use layout::{DEPTH, RECORD};

// The number of the node's parent.
pub fn parent_of(nodes: &[u32], at: usize) -> Option<u32>
    requires { width * at + width ≤ length nodes.now }
    ensures { (none : ℕ) → unwrap_or result none ≡ parent_or none nodes.now at }
{
    let depth = nodes[RECORD * at + DEPTH];
    for i in (0..at).rev() {
        if nodes[RECORD * i + DEPTH] < depth {
            return Some(nodes[RECORD * i]);
        }
    }
    None
}

// The number of the node before it in its group.
pub fn previous_of(nodes: &[u32], at: usize) -> Option<u32>
    requires { width * at + width ≤ length nodes.now }
    ensures { (none : ℕ) → unwrap_or result none ≡ previous_or none nodes.now at }
{
    let depth = nodes[RECORD * at + DEPTH];
    for i in (0..at).rev() {
        let other = nodes[RECORD * i + DEPTH];
        if other < depth {
            return None;
        }
        if other == depth {
            return Some(nodes[RECORD * i]);
        }
    }
    None
}

// The number of the node after it in its group.
pub fn next_of(nodes: &[u32], count: usize, at: usize) -> Option<u32>
    requires { Placed nodes.now count at }
    ensures { (none : ℕ) → unwrap_or result none ≡ next_or none count nodes.now at }
{
    let end = subtree_end(nodes, count, at);
    if end < count && nodes[RECORD * end + DEPTH] == nodes[RECORD * at + DEPTH] {
        Some(nodes[RECORD * end])
    } else {
        None
    }
}

// The number of its first child.
pub fn head_of(nodes: &[u32], count: usize, at: usize) -> Option<u32>
    requires { Placed nodes.now count at }
    ensures { (none : ℕ) → unwrap_or result none ≡ first_or none (children_at count nodes.now at) }
{
    let depth = nodes[RECORD * at + DEPTH];
    for i in at + 1..count {
        let other = nodes[RECORD * i + DEPTH];
        if other <= depth {
            return None;
        }
        if other - depth == 1 {
            return Some(nodes[RECORD * i]);
        }
    }
    None
}

// The number of its last child.
pub fn tail_of(nodes: &[u32], count: usize, at: usize) -> Option<u32>
    requires { Placed nodes.now count at }
    ensures { (none : ℕ) → unwrap_or result none ≡ last_or none (children_at count nodes.now at) }
{
    let depth = nodes[RECORD * at + DEPTH];
    let mut last = None;
    for i in at + 1..count {
        let other = nodes[RECORD * i + DEPTH];
        if other <= depth {
            return last;
        }
        if other - depth == 1 {
            last = Some(nodes[RECORD * i]);
        }
    }
    last
}

// Whether the node at the place a is the one at the place b or lies below it.
pub fn lies_below(nodes: &[u32], count: usize, a: usize, b: usize) -> bool
    requires { TwoPlaces nodes.now count a b }
    ensures { result ≡ in_run count nodes.now a b }
{
    b <= a && a < subtree_end(nodes, count, b)
}
