// Deep free, in place: the synths below a group go, at any depth, and the groups stay.
// Kept: the table is a run of the lent words with its count beside it (C interface): an edit changes the count and never the run.
ghost use Rattle.std.specs.Prelude.{◌≡◌, ◌+◌, ◌*◌, ◌≤◌, length};
ghost use Rattle.words.specs.Parts.{over};
ghost use Rattle.nodes.specs.Table.{width, node_from, words_of, rows};
ghost use Rattle.nodes.specs.Edit.{edit_at, deep_free_here};
ghost use Rattle.tree.specs.Sizes.{Placed, Leaves};
ghost use Rattle.tree.specs.Sweep.{Between, Swept};

use crate::change::remove;
use crate::runs::{node_at, put_node};
use layout::{DEPTH, GROUP, RECORD, SLOT};

// The place to read next, and the place to write to next.
#[derive(Clone, Copy)]
pub struct Places {
    pub read: usize,
    pub write: usize,
}

// The record at the place `from` copied to the place `to`.
fn copy_record(nodes: &mut [u32], from: usize, to: usize)
    requires { (width * from + width ≤ length nodes.old) × (width * to + width ≤ length nodes.old) }
    ensures { nodes.new ≡ over (width * to) (words_of (node_from nodes.old (width * from))) nodes.old }
{
    let node = node_at(nodes, from);
    put_node(nodes, to, node);
}

// The records from `from` on that are deeper than `depth`, one child after the other: a synth is passed over, a group
// is copied down to `to`, and what is below it is gone over by a call that is allowed one node less.
fn sweep(nodes: &mut [u32], count: usize, from: usize, to: usize, depth: u32, left: usize) -> Places
    requires { Between nodes.old count from to left }
    ensures { Swept nodes.old count from to depth nodes.new result.read result.write }
{
    let mut read = from;
    let mut write = to;
    // Kept: it goes on by one record or by a subtree.
    while read < count {
        let level = nodes[RECORD * read + DEPTH];
        if level <= depth {
            return Places { read, write };
        }
        if nodes[RECORD * read + SLOT] == GROUP {
            copy_record(nodes, read, write);
            let next = sweep(nodes, count, read + 1, write + 1, level, left - 1);
            read = next.read;
            write = next.write;
        } else {
            read += 1;
        }
    }
    Places { read, write }
}

// "`/g_deepFree` the synths at any depth, groups staying": of the node at this place.
pub fn deep_free(nodes: &mut [u32], count: usize, at: usize) -> usize
    requires { Placed nodes.old count at }
    ensures { Leaves nodes.old (edit_at at deep_free_here (rows count nodes.old)) nodes.new result }
{
    let depth = nodes[RECORD * at + DEPTH];
    let first = at + 1;
    let rest = sweep(nodes, count, first, first, depth, count - first);
    remove(nodes, count, rest.write, rest.read)
}
