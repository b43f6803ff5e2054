// The controls of the synths of the node table.
ghost use Rattle.std.specs.Prelude.{◌-◌, ◌≤◌, ◌≡◌, take, drop};
ghost use Rattle.model.specs.Layout.{count_in, nodes_in, controls_in, put_controls};
ghost use Rattle.model.specs.Engine.{decode};
ghost use Rattle.model.specs.Effects.{change_all};
ghost use Rattle.model.specs.Formed.{controls_formed};
ghost use Rattle.controls.specs.Change.{change_of};
ghost use Rattle.controls.specs.Ready.{Ready};

use crate::control::Change;
use crate::cover::{slot_controls, slot_cover};
use crate::node::{node_row, node_slot};
use crate::synth::{change_node, row_formed};
use layout::{CONTROLS, CONTROLS_END, COUNT, SLOTS};
use names::node_is_group;
use readable::Cover;
use values::Key;
use words::wide;

// The controls of the synths among the nodes from one place of the table to another. Each slot is looked up once.
pub fn change_all(
    words: &mut [u32],
    arena: &[u8],
    from: usize,
    to: usize,
    key: Key,
    name: &[u8],
    count: u32,
    change: Change,
)
    requires { (Ready words.old arena.now) × (to ≤ count_in words.old) }
    ensures { words.new ≡ put_controls (change_all (change_of change) key name.now count (decode words.old arena.now).slots (take (to - from) (drop from (nodes_in words.old))) (controls_in words.old)) words.old }
{
    let mut covers: [Option<Option<Cover>>; SLOTS] = [None; SLOTS];
    for i in from..to {
        if !node_is_group(words, i) {
            let slot = node_slot(words, i);
            let cover = slot_cover(words, arena, slot, key, name, covers[slot]);
            covers[slot] = Some(cover);
            change_node(words, i, cover, count, change);
        }
    }
}

// The state check's part on controls: the mapping words of each synth's own controls. Each slot is looked up once.
pub fn controls_formed(words: &[u32], arena: &[u8]) -> bool
    requires { Ready words.now arena.now }
    ensures { result ≡ controls_formed (decode words.now arena.now).slots (controls_in words.now) (nodes_in words.now) }
{
    let count = wide(words[COUNT]);
    let mut known: [Option<u32>; SLOTS] = [None; SLOTS];
    for i in 0..count {
        if !node_is_group(words, i) {
            let slot = node_slot(words, i);
            let many = slot_controls(words, arena, slot, known[slot]);
            known[slot] = Some(many);
            if !row_formed(&words[CONTROLS..CONTROLS_END], node_row(words, i), many) {
                return false;
            }
        }
    }
    true
}
