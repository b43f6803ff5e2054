// One control and one row of controls: functions on the controls' part of the words.
ghost use Rattle.std.specs.Prelude.{◌+◌, ◌*◌, ◌≤◌, ◌≡◌, length, get_or};
ghost use Rattle.words.specs.Parts.{over};
ghost use Rattle.values.specs.Controls.{control_at};
ghost use Rattle.model.specs.Layout.{row_words};
ghost use Rattle.model.specs.Effects.{control_words, change_row};
ghost use Rattle.controls.specs.Change.{change_of};

use layout::ROW_WORDS;
use values::{Control, Mapping};
use words::wide;

// What a command does to each control that it reaches.
// Kept: an `impl Fn(Control) -> Control` here is no plainer: each contract up to `change_all` would speak of F's post, not of `change_of`.
#[derive(Clone, Copy)]
pub enum Change {
    Set(u32),
    Map(Mapping),
}

// The control in the two words at a place, taken as its struct, changed and put back. Mapping keeps the own float, so its word is left as it stands.
fn change_one(controls: &mut [u32], at: usize, change: Change)
    requires { at + 2 ≤ length controls.old }
    ensures { controls.new ≡ over at (control_words (change_of change (control_at (get_or controls.old at 0) (get_or controls.old (at + 1) 0)))) controls.old }
{
    let before = Control::from_words(controls[at], controls[at + 1]);
    match change {
        Change::Set(pattern) => {
            let after = before.set(pattern);
            let own = after.own_word();
            let word = after.mapping_word();
            controls[at] = own;
            controls[at + 1] = word;
        }
        Change::Map(mapping) => {
            let after = before.map_to(mapping);
            let word = after.mapping_word();
            controls[at + 1] = word;
        }
    }
}

// The controls of a row from start on, so many.
pub fn change_row(controls: &mut [u32], row: u32, start: u32, many: u32, change: Change)
    requires { row_words * row + 2 * (start + many) ≤ length controls.old }
    ensures { controls.new ≡ change_row (change_of change) row start many controls.old }
{
    let mut at = ROW_WORDS * wide(row) + 2 * wide(start);
    for _ in 0..many {
        change_one(controls, at, change);
        at += 2;
    }
}
