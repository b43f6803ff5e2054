// The index after an edit of the table: where the edit takes the nodes, and the index region in place.
// Kept: the table is a run of the lent words with its count beside it (C interface): an edit changes the count and never the run.
ghost use Rattle.std.specs.Prelude.{◌≡◌, ◌++◌, ◌+◌, ◌≤◌, length, take, drop};
ghost use Rattle.words.specs.Parts.{put};
ghost use Rattle.nodes.specs.Table.{rows, numbers};
ghost use Rattle.index.specs.Index.{index_of, put_in};
ghost use Rattle.reindex.specs.Spot.{Reads};
ghost use Rattle.model.specs.Layout.{words_length, index_place, index_words, put_index, node_words, entries_in};
ghost use Rattle.treecommands.specs.Edits.{move_edit};
ghost use Rattle.treecommands.specs.Settle.{Changed, Sifted};

use layout::{COUNT, INDEX, INDEX_END, NODES, NODES_END};
use reindex::{Edit, follow_edit, follow_places, put_entry, spot_of};
use words::wide;

// What a move of the run from the place a up to its end to another place does.
pub fn move_edit(a: usize, end: usize, place: usize) -> Edit
    ensures { result ≡ move_edit a end place }
{
    if place <= a {
        Edit::Swap(place, a, end)
    } else {
        Edit::Swap(a, end, place)
    }
}

// The entry of the new node at a place put in.
fn put_new(words: &mut [u32], count: usize, at: usize)
    requires { (length words.old ≡ words_length) × (Reads (node_words words.old) (entries_in words.old) count × (at ≤ count)) }
    ensures { words.new ≡ put index_place index_words (put_in (numbers (rows (count + 1) (node_words words.old))) at (take count (entries_in words.old)) ++ drop (count + 1) (entries_in words.old)) words.old }
{
    let spot = spot_of(
        &words[NODES..NODES_END],
        &words[INDEX..INDEX_END],
        count,
        at,
    );
    put_entry(&mut words[INDEX..INDEX_END], count, spot, at);
}

// The index, for the table of so many nodes: it was right for the table before the edit.
pub fn renew_index(words: &mut [u32], edit: Edit, count: usize)
    requires { Changed edit count words.old }
    ensures { words.new ≡ put_index (index_of (rows count (node_words words.old))) words.old }
{
    let before = wide(words[COUNT]);
    let left = follow_edit(&mut words[INDEX..INDEX_END], before, edit);
    if let Edit::Put(at, _to) = edit {
        put_new(words, left, at);
    }
}

// The same, where these are the new places of the nodes, and none is new.
pub fn sift_index(words: &mut [u32], places: &[u32], count: usize)
    requires { Sifted places.now count words.old }
    ensures { words.new ≡ put_index (index_of (rows count (node_words words.old))) words.old }
{
    let before = wide(words[COUNT]);
    follow_places(&mut words[INDEX..INDEX_END], before, places);
}
