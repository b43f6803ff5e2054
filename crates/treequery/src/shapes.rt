// What the reply needs of the definitions, looked up once for each slot: 33 words, P + 1 (0 before the slot was looked up) and for each
// control the place of its label, 0 where it has no name.
ghost use Rattle.std.specs.Prelude.{◌<◌, ◌≡◌, length};
ghost use Rattle.readable.specs.Readable.{Readable};
ghost use Rattle.queries.specs.Held.{At};
ghost use Rattle.treequery.specs.Shapes.{shapes_length, Shapes, Filled, ShapesKnown, LookedUp};
ghost use Rattle.treequery.specs.Rows.{Run};
ghost use Rattle.treequery.specs.Controls.{Shaped, SynthAt};

use controls::{node_definition, node_row, node_slot, parameter_count};
use names::node_is_group;
use readable::labels;

// The words of a slot's part: one, and one for each control that a definition can have.
const SHAPE: usize = 33;

// The words of all parts.
pub const SHAPES: usize = 1056;

// A synth: the row of its controls, the place of its definition's shape, P.
#[derive(Clone, Copy)]
pub struct Synth {
    pub row: u32,
    pub first: usize,
    pub many: u32,
}

// The synth at a place of the table.
pub fn synth_at(words: &[u32], arena: &[u8], shapes: &[u32; SHAPES], place: usize) -> Synth
    requires { Shaped words.now arena.now shapes.now place }
    ensures { SynthAt words.now arena.now place result }
{
    let row = node_row(words, place);
    let first = SHAPE * node_slot(words, place);
    Synth {
        row,
        first,
        many: shapes[first] - 1,
    }
}

// A definition's shape into its slot's part.
fn look_up(shapes: &mut [u32; SHAPES], slot: usize, definition: &[u8])
    requires { (slot < 32) × (length shapes.old ≡ shapes_length) × (Readable definition.now) }
    ensures { Filled definition.now slot shapes.old shapes.new }
{
    let places = labels(definition);
    let first = SHAPE * slot;
    shapes[first] = parameter_count(definition) + 1;
    for j in 0..places.len() {
        shapes[first + 1 + j] = places[j];
    }
}

// The shape of the definition of a row's synth, unless its slot was looked up before.
fn look_up_row(shapes: &mut [u32; SHAPES], words: &[u32], arena: &[u8], place: usize)
    requires { (At words.now arena.now place) × (ShapesKnown words.now arena.now shapes.old) }
    ensures { LookedUp words.now arena.now place shapes.old shapes.new }
{
    if node_is_group(words, place) {
        return;
    }
    let slot = node_slot(words, place);
    if shapes[SHAPE * slot] != 0 {
        return;
    }
    look_up(shapes, slot, node_definition(words, arena, place));
}

// The shapes of the synths' definitions, from one place of the table to another, into a table that is all zeros.
pub fn tree_shapes(shapes: &mut [u32; SHAPES], words: &[u32], arena: &[u8], from: usize, end: usize)
    requires { (Run words.now arena.now from end) × (ShapesKnown words.now arena.now shapes.old) }
    ensures { Shapes words.now arena.now from end shapes.new }
{
    for i in from..end {
        look_up_row(shapes, words, arena, i);
    }
}
