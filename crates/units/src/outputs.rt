// The outputs of earlier units: those of the last ones are remembered, and those further back are found from marks.
ghost use Rattle.std.specs.Prelude.{◌≤◌, ◌≡◌, length};
ghost use Rattle.units.specs.Marks.{unit_outputs, unit_end, unit_place, most_marks, Marked, Marking};

use crate::shape::{unit_end, unit_outputs};
use format::Width;
use words::wide;

// The outputs of the last so many units are remembered. In version 2 a unit takes at least 12 bytes and a definition 20
// besides, so a definition within the size limit has fewer units than this.
pub const REMEMBERED: usize = 256;

// A definition of more units has marks besides, where every so many units start: so many marks at most, which are 64 KB of stack.
// The outputs of a unit further back are found by a walk from its mark.
pub const MARKS: usize = 16384;

// Marks stand at least so many units apart, so that units are read in runs of as many.
pub const NEAREST: usize = 2;

// What all units of a definition are read with: the width of its fields, how many constants it has, where its first unit starts, and of how
// many units one has a mark.
#[derive(Clone, Copy)]
pub struct Scope {
    pub width: Width,
    pub constants: u32,
    pub start: usize,
    pub stride: u32,
}

// How many outputs the unit so many units behind the one at a place has.
#[tactic(auto, using(crate::specs::Marks::place_up), unfolding(crate::specs::Marks::unit_place))]
fn outputs_behind(s: &[u8], start: usize, width: Width, unit: u32) -> u32
    requires { unit_end width s.now (unit_place width s.now start unit) ≤ length s.now }
    ensures { result ≡ unit_outputs width s.now (unit_place width s.now start unit) }
{
    let mut at = start;
    for _ in 0..unit {
        at = unit_end(s, at, width);
    }
    unit_outputs(s, at, width)
}

// How many outputs a unit has, by a walk from its mark.
#[tactic(auto, using(crate::specs::Marks::mark_place, crate::specs::Marks::mark_within), unfolding(crate::specs::Marks::unit_end, crate::specs::Marks::unit_counts))]
pub fn far_outputs(s: &[u8], scope: Scope, unit: u32, marks: &[u32]) -> u32
    requires { (unit_end scope.width s.now (unit_place scope.width s.now scope.start unit) ≤ length s.now) × Marked scope.width s.now scope.start scope.stride marks.now }
    ensures { result ≡ unit_outputs scope.width s.now (unit_place scope.width s.now scope.start unit) }
{
    match marks.get(wide(unit / scope.stride)) {
        Some(mark) => outputs_behind(
            s,
            scope.start + wide(*mark),
            scope.width,
            unit % scope.stride,
        ),
        None => outputs_behind(s, scope.start, scope.width, unit),
    }
}

// Marks the unit at a place, so many bytes behind the first one, if it is the next to be marked and there is room: how many are marked.
pub fn mark_unit(marks: &mut [u32], known: usize, stride: u32, unit: u32, place: usize) -> usize
    requires { (known ≤ length marks.old) × (length marks.old ≤ most_marks) }
    ensures { Marking marks.old marks.new known stride unit place result }
{
    if known * wide(stride) != wide(unit) || marks.len() <= known || 0xFFFF_FFFF < place {
        return known;
    }
    marks[known] = place as u32;
    known + 1
}
