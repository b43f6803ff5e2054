// The rows of the reply written: the tags and the arguments, each at their place.
ghost use Rattle.std.specs.Prelude.{◌≤◌, true, ◌≡◌, length};
ghost use Rattle.treequery.specs.RowArguments.{children_at, row_arguments};
ghost use Rattle.treequery.specs.Children.{Families};
ghost use Rattle.treequery.specs.Writing.{Room, Wrote};
ghost use Rattle.treequery.specs.Controls.{Shaped};
ghost use Rattle.treequery.specs.Rows.{RowOf, RowsOf, left_rows};
ghost use Rattle.treequery.specs.SynthRow.{controls_shown};

use crate::piece::Piece;
use crate::places::{Places, put_argument, put_pair};
use crate::row::{label_at, string_at, value_at};
use crate::shapes::{SHAPES, synth_at};
use controls::node_definition;
use layout::{NODES, RECORD};
use names::node_is_group;
use words::MINUS_ONE;

// The controls of a row's synth.
fn put_controls(
    out: &mut [u8],
    places: Places,
    words: &[u32],
    arena: &[u8],
    shapes: &[u32; SHAPES],
    place: usize,
) -> Places
    requires { (Shaped words.now arena.now shapes.now place) × (Room places (controls_shown words.now arena.now place true) out.old) }
    ensures { Wrote places (controls_shown words.now arena.now place true) out.old result out.new }
{
    let definition = node_definition(words, arena, place);
    let synth = synth_at(words, arena, shapes, place);
    let mut next = put_argument(out, places, definition, Piece::Whole(synth.many));
    for j in 0..synth.many {
        next = put_argument(
            out,
            next,
            definition,
            label_at(definition, shapes, synth.first, j),
        );
        next = put_argument(out, next, definition, value_at(words, synth.row, j));
    }
    next
}

// A row.
fn put_row(
    out: &mut [u8],
    places: Places,
    words: &[u32],
    arena: &[u8],
    shapes: &[u32; SHAPES],
    children: u32,
    shown: bool,
    end: usize,
    place: usize,
) -> Places
    requires { (RowOf shown words.now arena.now shapes.now end place) × (children ≡ children_at words.now arena.now end place) × (Room places (row_arguments shown words.now arena.now end place) out.old) }
    ensures { Wrote places (row_arguments shown words.now arena.now end place) out.old result out.new }
{
    let number = words[NODES + RECORD * place];
    if node_is_group(words, place) {
        return put_pair(out, places, number, children);
    }
    let next = put_pair(out, places, number, MINUS_ONE);
    let definition = node_definition(words, arena, place);
    let titled = put_argument(out, next, definition, string_at(definition, 0));
    if shown {
        return put_controls(out, titled, words, arena, shapes, place);
    }
    titled
}

// The rows from one place of the table to another.
pub fn put_tree(
    out: &mut [u8],
    places: Places,
    words: &[u32],
    arena: &[u8],
    shapes: &[u32; SHAPES],
    children: &[u8],
    shown: bool,
    from: usize,
    end: usize,
) -> Places
    requires { (RowsOf shown words.now arena.now shapes.now from end) × (end ≤ length children.now) × (Families words.now arena.now from end children.now) × (Room places (left_rows shown words.now arena.now end from) out.old) }
    ensures { Wrote places (left_rows shown words.now arena.now end from) out.old result out.new }
{
    let mut next = places;
    for i in from..end {
        let many = u32::from(children[i]);
        next = put_row(out, next, words, arena, shapes, many, shown, end, i);
    }
    next
}
