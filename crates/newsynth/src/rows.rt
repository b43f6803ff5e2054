// The row of controls that a new synth takes: the lowest that no live synth has.
ghost use Rattle.std.specs.Prelude.{◌≡◌};
ghost use Rattle.nodes.specs.Table.{rows};
ghost use Rattle.nodes.specs.Edit.{edit_at, free_here};
ghost use Rattle.nodes.specs.Formed.{free_row};
ghost use Rattle.newsynth.specs.Rows.{Standing, staying_at};

use tree::{Action, subtree_end};

// The lowest free row once the node at a place is freed with all below it.
fn row_without(nodes: &[u32], count: usize, at: usize) -> u32
    requires { Standing nodes.now count at }
    ensures { result ≡ free_row (edit_at at free_here (rows count nodes.now)) }
{
    let end = subtree_end(nodes, count, at);
    tree::free_row_without(nodes, count, at, end)
}

// The row for a synth that goes in by an add action; one that replaces frees the target's subtree first.
pub fn row_for(nodes: &[u32], count: usize, action: Action, at: usize) -> u32
    requires { Standing nodes.now count at }
    ensures { result ≡ free_row (staying_at action at (rows count nodes.now)) }
{
    match action {
        Action::Put(_position) => tree::free_row(nodes, count),
        Action::Replace => row_without(nodes, count, at),
    }
}
