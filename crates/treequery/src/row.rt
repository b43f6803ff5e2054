// One row of the reply: which arguments it has.
ghost use Rattle.std.specs.Prelude.{◌+◌, ◌≤◌, ◌<◌, true, ◌≡◌, length, get_or};
ghost use Rattle.format.specs.Fields.{string_at};
ghost use Rattle.format.specs.Reader.{most_parameters};
ghost use Rattle.nodes.specs.Formed.{most_rows};
ghost use Rattle.readable.specs.Labels.{label_at};
ghost use Rattle.osc.specs.Message.{text};
ghost use Rattle.values.specs.Controls.{seen};
ghost use Rattle.model.specs.Layout.{words_length, controls_in};
ghost use Rattle.model.specs.Replies.{label_argument};
ghost use Rattle.controls.specs.Asked.{control_in};
ghost use Rattle.treequery.specs.Pieces.{piece_argument, is_small};
ghost use Rattle.treequery.specs.Shown.{Shown};
ghost use Rattle.treequery.specs.Controls.{LabelThere};

use crate::piece::Piece;
use crate::shapes::SHAPES;
use layout::{CONTROLS, CONTROLS_END, ROW_WORDS};
use values::{Control, Mapping};
use words::wide;

// The string whose length byte is at a place.
pub fn string_at(definition: &[u8], at: usize) -> Piece
    requires { at + 1 + get_or definition.now at 0 ≤ length definition.now }
    ensures { (piece_argument definition.now result ≡ text (string_at definition.now at)) × (is_small result ≡ true) }
{
    let start = at + 1;
    let size = definition[at] as usize;
    Piece::Part(start, start + size)
}

// The label of a control whose definition's shape starts at a place of the table: its first name, or else its index.
pub fn label_at(definition: &[u8], shapes: &[u32; SHAPES], first: usize, index: u32) -> Piece
    requires { LabelThere definition.now shapes.now first index }
    ensures { (piece_argument definition.now result ≡ label_argument (label_at definition.now (get_or shapes.now (first + 1 + index) 0)) index) × (is_small result ≡ true) }
{
    let place = wide(shapes[first + 1 + wide(index)]);
    if place == 0 {
        return Piece::Whole(index);
    }
    string_at(definition, place)
}

// What a control shows: its own float, or its bus.
fn shown_piece(control: Control) -> Piece
    ensures { Shown (seen control) result }
{
    match control.mapping {
        Mapping::Unmapped => Piece::Pattern(control.own_word()),
        Mapping::Bus(bus) => Piece::Mapped(bus),
    }
}

// The same of a control of a row.
pub fn value_at(words: &[u32], row: u32, index: u32) -> Piece
    requires { (length words.now ≡ words_length) × (row < most_rows) × (index < most_parameters) }
    ensures { Shown (control_in (controls_in words.now) row index) result }
{
    let controls = &words[CONTROLS..CONTROLS_END];
    let at = ROW_WORDS * wide(row) + 2 * wide(index);
    shown_piece(Control::from_words(controls[at], controls[at + 1]))
}
