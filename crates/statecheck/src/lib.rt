// The state check: refusal 1's test of any words and any arena at all.
#![tactic(auto)]

ghost use Rattle.std.specs.Prelude.{◌≤◌, ◌≡◌, length};
ghost use Rattle.nodes.specs.Formed.{most_nodes};
ghost use Rattle.model.specs.Layout.{words_length, arena_length, count_in};
ghost use Rattle.model.specs.Formed.{formed};
ghost use Rattle.statecheck.specs.Parts.{tree_part, slots_part};

use controls::controls_formed;
use definitions::{held_slots, slots_formed};
use index::index_formed;
use layout::{
    ARENA, COUNT, INDEX, INDEX_END, LATEST, LENGTHS, MOST_NODES, NEXT, NODES, NODES_END, ORDER,
    ORDER_END, ORDER_LENGTH, RESIDENT_END, WORDS,
};
use order::{nodes_hold, same_order};
use words::wide;

// The rules on nodes and on their index, and that the kept running order is the one worked out afresh.
fn tree_formed(words: &[u32]) -> bool
    requires { length words.now ≡ words_length }
    ensures { result ≡ tree_part words.now }
{
    let count = wide(words[COUNT]);
    if MOST_NODES < count {
        return false;
    }
    let next = words[NEXT];
    let latest = words[LATEST];
    if !nodes_hold(&words[NODES..NODES_END], count, next, latest) {
        return false;
    }
    // That numbers differ, a rule on nodes, is the index's rule too, since they rise along it: it is tested here alone.
    if !index_formed(&words[NODES..NODES_END], &words[INDEX..INDEX_END], count) {
        return false;
    }
    let many = wide(words[ORDER_LENGTH]);
    same_order(
        &words[ORDER..ORDER_END],
        many,
        &words[NODES..NODES_END],
        count,
    )
}

// The rules on slots.
fn slots_hold(words: &[u32], arena: &[u8]) -> bool
    requires { (length words.now ≡ words_length) × ((length arena.now ≡ arena_length) × (count_in words.now ≤ most_nodes)) }
    ensures { result ≡ slots_part words.now arena.now }
{
    let count = wide(words[COUNT]);
    let held = held_slots(&words[NODES..NODES_END], count);
    slots_formed(&words[LENGTHS..RESIDENT_END], arena, held)
}

// The words and the arena are a well-formed state.
pub fn well_formed(words: &[u32], arena: &[u8]) -> bool
    ensures { result ≡ formed words.now arena.now }
{
    if words.len() != WORDS {
        return false;
    }
    if arena.len() != ARENA {
        return false;
    }
    if !tree_formed(words) {
        return false;
    }
    if !slots_hold(words, arena) {
        return false;
    }
    controls_formed(words, arena)
}
