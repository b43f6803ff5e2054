// What is derived from the tree, written afresh after its nodes changed.
// Kept: the table is a run of the lent words with its count beside it (C interface): an edit changes the count and never the run.
ghost use Rattle.std.specs.Prelude.{◌≡◌, ◌≤◌, length};
ghost use Rattle.nodes.specs.Table.{rows};
ghost use Rattle.model.specs.Layout.{next_in, latest_in, put_header, node_words};
ghost use Rattle.model.specs.Effects.{latest_among};
ghost use Rattle.treecommands.specs.Settle.{Sorted, Changed, Sifted, settled, renewed};
ghost use Rattle.treecommands.specs.Staying.{Stays, Staying, latest_without, Freed};

use crate::indexing::{renew_index, sift_index};
use crate::ordering::renew_order;
use index::find_indexed;
use layout::{COUNT, INDEX, INDEX_END, LATEST, NEXT, NODES, NODES_END, ORDER_LENGTH};
use reindex::Edit;

// The first words, one after the other.
fn write_header(words: &mut [u32], count: u32, many: u32, next: u32, latest: u32)
    requires { 4 ≤ length words.old }
    ensures { words.new ≡ put_header count many next latest words.old }
{
    words[COUNT] = count;
    words[ORDER_LENGTH] = many;
    words[NEXT] = next;
    words[LATEST] = latest;
}

// The order, the index and the first words, for the table of so many nodes, after an edit.
pub fn settle(words: &mut [u32], edit: Edit, count: usize, next: u32, latest: u32)
    requires { Changed edit count words.old }
    ensures { words.new ≡ settled count next latest words.old }
{
    let many = renew_order(words, count);
    renew_index(words, edit, count);
    write_header(words, count as u32, many, next, latest);
}

// The first words, where the next number stays, and the latest synth too while it lives.
fn renew_header(words: &mut [u32], count: usize, many: u32)
    requires { Sorted count words.old }
    ensures { words.new ≡ put_header count many (next_in words.old) (latest_among (rows count (node_words words.old)) (latest_in words.old)) words.old }
{
    let next = words[NEXT];
    let latest = words[LATEST];
    let lives = find_indexed(
        &words[NODES..NODES_END],
        &words[INDEX..INDEX_END],
        count,
        latest,
    )
    .is_some();
    if lives {
        write_header(words, count as u32, many, next, latest);
    } else {
        write_header(words, count as u32, many, next, 0);
    }
}

// The latest synth after the node with a number was freed: none if it was that one.
fn latest_without(latest: u32, gone: u32) -> u32
    ensures { result ≡ latest_without gone latest }
{
    if latest == gone { 0 } else { latest }
}

// What `settle` writes, where the next number stays, and the latest synth too while it lives.
pub fn renew(words: &mut [u32], edit: Edit, count: usize)
    requires { Changed edit count words.old }
    ensures { words.new ≡ renewed count words.old }
{
    let many = renew_order(words, count);
    renew_index(words, edit, count);
    renew_header(words, count, many);
}

// The same, where these are the new places of the nodes, and none is new.
pub fn renew_sifted(words: &mut [u32], places: &[u32], count: usize)
    requires { Sifted places.now count words.old }
    ensures { words.new ≡ renewed count words.old }
{
    let many = renew_order(words, count);
    sift_index(words, places, count);
    renew_header(words, count, many);
}

// The same, where the node with this number alone was freed: the latest synth lives if its number is another.
pub fn renew_without(words: &mut [u32], edit: Edit, count: usize, gone: u32)
    requires { Freed edit count gone words.old }
    ensures { words.new ≡ renewed count words.old }
{
    let next = words[NEXT];
    let latest = latest_without(words[LATEST], gone);
    settle(words, edit, count, next, latest);
}

// The same, where no node was freed, so that the latest synth stays.
pub fn renew_kept(words: &mut [u32], edit: Edit, count: usize)
    requires { Staying edit count words.old }
    ensures { words.new ≡ renewed count words.old }
{
    let next = words[NEXT];
    let latest = words[LATEST];
    settle(words, edit, count, next, latest);
}

// The same, where the nodes are where they were, so that the index is right too.
pub fn renew_in_place(words: &mut [u32], count: usize)
    requires { Sorted count words.old × Stays count words.old }
    ensures { words.new ≡ renewed count words.old }
{
    let next = words[NEXT];
    let latest = words[LATEST];
    let many = renew_order(words, count);
    write_header(words, count as u32, many, next, latest);
}
