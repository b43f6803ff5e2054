// The entries of the index at their nodes' new places, in place.
// Kept: the table is a run of the lent words with its count beside it (C interface): an edit changes the count and never the run.
ghost use Rattle.std.specs.Prelude.{◌+◌, ◌-◌, ◌≤◌, ◌<◌};
ghost use Rattle.reindex.specs.Follow.{gone};
ghost use Rattle.reindex.specs.FollowWords.{Followed, Entries};
ghost use Rattle.reindex.specs.Edits.{closed, swapped, new_place, Bounded};

use crate::edit::Edit;
use crate::one::{cut_entry, entry_spot, open_entries};
use crate::run::{GONE, Pair, Run};

// The entries where the nodes of a run went and so many came, in their order, without those of nodes that are gone; and how many are left.
fn close_entries(index: &mut [u32], count: usize, run: Run, by: u32) -> usize
    requires { (by ≤ 1) × Entries index.old count }
    ensures { Followed (closed run.from run.to by) index.old count index.new result }
{
    let mut left = 0;
    for i in 0..count {
        let place = run.closed_place(index[i], by);
        if place < GONE {
            index[left] = place;
            left += 1;
        }
    }
    left
}

// The entries where two runs were exchanged; all are left.
fn swap_entries(index: &mut [u32], count: usize, runs: Pair)
    requires { Entries index.old count }
    ensures { Followed (swapped runs.a runs.b runs.c) index.old count index.new count }
{
    for i in 0..count {
        index[i] = runs.swapped_place(index[i]);
    }
}

// The entries after a run was taken out.
fn follow_cut(index: &mut [u32], count: usize, run: Run) -> usize
    requires { Entries index.old count }
    ensures { Followed (closed run.from run.to 0) index.old count index.new result }
{
    if run.to - run.from == 1 {
        let spot = entry_spot(index, count, run.from);
        if spot < count && index[spot] == run.from {
            return cut_entry(index, count, spot, run.from);
        }
    }
    close_entries(index, count, run, 0)
}

// The entries after a new node took the place of a run, but for the new one's.
fn follow_put(index: &mut [u32], count: usize, run: Run) -> usize
    requires { (count < gone + (run.to - run.from)) × Entries index.old count }
    ensures { Followed (closed run.from run.to 1) index.old count index.new result }
{
    if run.from == run.to {
        open_entries(index, count, run.to);
        count
    } else {
        close_entries(index, count, run, 1)
    }
}

// The entries after an edit, but for that of a new node; and how many they are.
pub fn follow_edit(index: &mut [u32], count: usize, edit: Edit) -> usize
    requires { Bounded edit count × Entries index.old count }
    ensures { Followed (new_place edit) index.old count index.new result }
{
    match edit {
        Edit::Cut(from, to) => follow_cut(index, count, Run::new(from, to)),
        Edit::Put(from, to) => follow_put(index, count, Run::new(from, to)),
        Edit::Swap(a, b, c) => {
            swap_entries(index, count, Pair::new(a, b, c));
            count
        }
    }
}
