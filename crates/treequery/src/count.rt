// The rows of the reply counted: how many arguments they have, and how many bytes.
ghost use Rattle.std.specs.Prelude.{true};
ghost use Rattle.treequery.specs.RowArguments.{row_arguments};
ghost use Rattle.treequery.specs.Counting.{Counts, Counted, Size};
ghost use Rattle.treequery.specs.Controls.{Shaped};
ghost use Rattle.treequery.specs.Rows.{RowOf, RowsOf, left_rows};
ghost use Rattle.treequery.specs.SynthRow.{controls_shown};

use crate::piece::Piece;
use crate::places::{Places, count_pair, count_piece};
use crate::row::{label_at, string_at, value_at};
use crate::shapes::{SHAPES, synth_at};
use controls::node_definition;
use names::node_is_group;

// The controls of a row's synth.
fn count_controls(
    places: Places,
    words: &[u32],
    arena: &[u8],
    shapes: &[u32; SHAPES],
    place: usize,
) -> Places
    requires { (Shaped words.now arena.now shapes.now place) × (Counts (controls_shown words.now arena.now place true) places) }
    ensures { Counted (controls_shown words.now arena.now place true) places result }
{
    let definition = node_definition(words, arena, place);
    let synth = synth_at(words, arena, shapes, place);
    let mut next = count_piece(places, definition, Piece::Whole(synth.many));
    for j in 0..synth.many {
        next = count_piece(
            next,
            definition,
            label_at(definition, shapes, synth.first, j),
        );
        next = count_piece(next, definition, value_at(words, synth.row, j));
    }
    next
}

// A row.
fn count_row(
    places: Places,
    words: &[u32],
    arena: &[u8],
    shapes: &[u32; SHAPES],
    shown: bool,
    end: usize,
    place: usize,
) -> Places
    requires { (RowOf shown words.now arena.now shapes.now end place) × (Counts (row_arguments shown words.now arena.now end place) places) }
    ensures { Counted (row_arguments shown words.now arena.now end place) places result }
{
    let next = count_pair(places);
    if node_is_group(words, place) {
        return next;
    }
    let definition = node_definition(words, arena, place);
    let titled = count_piece(next, definition, string_at(definition, 0));
    if shown {
        return count_controls(titled, words, arena, shapes, place);
    }
    titled
}

// The rows from one place of the table to another.
pub fn count_tree(
    words: &[u32],
    arena: &[u8],
    shapes: &[u32; SHAPES],
    shown: bool,
    from: usize,
    end: usize,
) -> Places
    requires { RowsOf shown words.now arena.now shapes.now from end }
    ensures { Size (left_rows shown words.now arena.now end from) result }
{
    let mut next = Places { tag: 0, byte: 0 };
    for i in from..end {
        next = count_row(next, words, arena, shapes, shown, end, i);
    }
    next
}
