// A run of records moved to another place, with its new depths.
// Kept: the table is a run of the lent words with its count beside it (C interface): an edit changes the count and never the run.
ghost use Rattle.std.specs.Prelude.{◌≡◌, ◌+◌, ◌-◌, ◌*◌, ◌≤◌, ◌<◌, length, take, drop};
ghost use Rattle.nodes.specs.Table.{width, fill};
ghost use Rattle.nodes.specs.Sizes.{end_at};
ghost use Rattle.nodes.specs.Formed.{most_nodes};
ghost use Rattle.tree.specs.Moves.{without, put_in, Opened};
ghost use Rattle.tree.specs.Depths.{Levels, releveled};
ghost use Rattle.tree.specs.MoveRun.{Movable, moved_words, moved_to, place_without};
ghost use Rattle.tree.specs.Ends.{MoveTo};

use crate::add::Place;
use layout::{DEPTH, NODES_WORDS, RECORD};
use words::copy_run;

// Room made at a place for the words from `from` up to `to`: those between come over them.
fn make_room(words: &mut [u32], from: usize, to: usize, at: usize)
    requires { (from ≤ to) × ((to ≤ length words.old) × (at + (to - from) ≤ length words.old)) }
    ensures { Opened words.old from to at words.new }
{
    let end = at + (to - from);
    if at <= from {
        words.copy_within(at..from, end);
    } else {
        words.copy_within(to..end, from);
    }
}

// The words from `from` up to `to` taken out, and put in at a place of those that are left, by way of `run`.
fn move_through(words: &mut [u32], from: usize, to: usize, at: usize, run: &mut [u32])
    requires { (from ≤ to) × ((to ≤ length words.old) × ((at + (to - from) ≤ length words.old) × (to - from ≤ length run.old))) }
    ensures { words.new ≡ put_in at (take (to - from) (drop from words.old)) (without from to words.old) }
{
    let count = to - from;
    copy_run(&mut run[..count], &words[from..to]);
    make_room(words, from, to, at);
    copy_run(&mut words[at..at + count], &run[..count]);
}

// The words of a short run, of up to 16 records.
const SHORT: usize = 16 * RECORD;

// The same. A short run goes by way of a short array.
fn move_words(words: &mut [u32], from: usize, to: usize, at: usize)
    requires { (from ≤ to) × ((to ≤ length words.old) × ((at + (to - from) ≤ length words.old) × (to - from ≤ width * most_nodes))) }
    ensures { words.new ≡ put_in at (take (to - from) (drop from words.old)) (without from to words.old) }
{
    if to - from <= SHORT {
        let mut run = [0u32; SHORT];
        move_through(words, from, to, at, &mut run);
    } else {
        let mut run = [0u32; NODES_WORDS];
        move_through(words, from, to, at, &mut run);
    }
}

// The records from `from` up to `to` taken from the depth `old` to the depth `new`.
fn set_depths(nodes: &mut [u32], from: usize, to: usize, old: u32, new: u32)
    requires { Levels nodes.old from to old new }
    ensures { nodes.new ≡ releveled old new nodes.old from to }
{
    for i in from..to {
        let at = RECORD * i + DEPTH;
        nodes[at] = nodes[at] - old + new;
    }
}

// The records from `from` up to `to` taken out, and put in at a place of those that are left, from the depth `old` to the depth `new`.
fn move_run(nodes: &mut [u32], from: usize, to: usize, at: usize, old: u32, new: u32)
    requires { Movable nodes.old from to at old new }
    ensures { nodes.new ≡ moved_words from to at old new nodes.old }
{
    set_depths(nodes, from, to, old, new);
    move_words(nodes, RECORD * from, RECORD * to, RECORD * at);
}

// A place of the table as it is without the records from `from` up to `to`, which it is not inside of.
fn place_without(place: usize, from: usize, to: usize) -> usize
    requires { (from ≤ to) × ((from < place) → to ≤ place) }
    ensures { result ≡ place_without from to place }
{
    if place <= from {
        place
    } else {
        place - (to - from)
    }
}

// The run of the node at a place, up to its end, moved to another place, which is not inside the run.
pub fn move_to(nodes: &mut [u32], count: usize, at: usize, end: usize, place: Place)
    requires { MoveTo nodes.old count at place × (end ≡ end_at count nodes.old at) }
    ensures { nodes.new ≡ fill nodes.old (moved_to count nodes.old at place) }
{
    let old = nodes[RECORD * at + DEPTH];
    let to = place_without(place.at, at, end);
    move_run(nodes, at, end, to, old, place.depth);
}
