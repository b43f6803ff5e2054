// A synth's controls in the words: changed by its own definition, checked and read.
ghost use Rattle.std.specs.Prelude.{◌+◌, ◌*◌, ◌≤◌, ◌<◌, ◌≡◌, length, drop, get_or, leb};
ghost use Rattle.nodes.specs.Formed.{most_nodes, most_rows};
ghost use Rattle.words.specs.Choice.{both};
ghost use Rattle.values.specs.Controls.{control_at, shown_by};
ghost use Rattle.model.specs.Formed.{mappings_formed};
ghost use Rattle.model.specs.Layout.{row_words, bus_count, words_length, put_controls, controls_in, record_in};
ghost use Rattle.model.specs.Effects.{change_covered};
ghost use Rattle.readable.specs.Lookup.{cover_at};
ghost use Rattle.controls.specs.Change.{change_of};
ghost use Rattle.controls.specs.Cover.{Inside};

use crate::control::{Change, change_row};
use crate::node::node_row;
use layout::{CONTROLS, CONTROLS_END, MOST_BUSES, ROW_WORDS};
use readable::Cover;
use values::Control;
use words::wide;

// The controls of the synth at a place of the table changed, as far as they are covered.
pub fn change_node(
    words: &mut [u32],
    place: usize,
    cover: Option<Cover>,
    count: u32,
    change: Change,
)
    requires { (length words.old ≡ words_length) × (place < most_nodes) × ((record_in words.old place).row < most_rows) × Inside cover }
    ensures { words.new ≡ put_controls (change_covered (change_of change) (cover_at cover) (record_in words.old place).row count (controls_in words.old)) words.old }
{
    let Some(cover) = cover else {
        return;
    };
    let many = count.min(cover.width);
    if 0 < many {
        let row = node_row(words, place);
        let start = cover.index;
        change_row(&mut words[CONTROLS..CONTROLS_END], row, start, many, change);
    }
}

// A row that was formed so far, with one more mapping word.
fn still_formed(formed: bool, word: u32) -> bool
    ensures { result ≡ both formed (leb word bus_count) }
{
    if MOST_BUSES < wide(word) {
        return false;
    }
    formed
}

// The mapping words of a row's first controls, so many: each at most 4,096. It goes to the end whatever it meets, so that several are looked at at
// once.
// No `.all(..)`, which stops at the first that fails: a branch-free inner loop.
pub(crate) fn row_formed(controls: &[u32], row: u32, many: u32) -> bool
    requires { row_words * row + 2 * many ≤ length controls.now }
    ensures { result ≡ mappings_formed many (drop (row_words * row) controls.now) }
{
    let start = ROW_WORDS * wide(row) + 1;
    let end = wide(many);
    let mut formed = true;
    for i in 0..end {
        formed = still_formed(formed, controls[start + 2 * i]);
    }
    formed
}

// What reading a control gives: the bus where it is mapped, otherwise its own float.
pub(crate) fn read_at(controls: &[u32], buses: &[u32], at: usize) -> u32
    requires { at + 1 < length controls.now }
    ensures { result ≡ shown_by buses.now (control_at (get_or controls.now at 0) (get_or controls.now (at + 1) 0)) }
{
    let control = Control::from_words(controls[at], controls[at + 1]);
    control.read(buses)
}
