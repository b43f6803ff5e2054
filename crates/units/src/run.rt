// The units of a definition, one after the other.
ghost use Rattle.std.specs.Prelude.{◌≤◌, ◌<◌, ◌≡◌, length};
ghost use Rattle.fields.specs.Answers.{number_of};
ghost use Rattle.units.specs.Marks.{most_marks};
ghost use Rattle.units.specs.Units.{remembered, count_units, UnitsRead, Ran};

use crate::outputs::{MARKS, NEAREST, REMEMBERED, Scope, mark_unit};
use crate::shape::field_size;
use crate::unit::read_unit;
use fields::{Cursor, Reading};
use format::Width;
use words::wide;

// The units from one number to another: how many counts and indices they and those before them have, which have so many.
#[tactic(auto, unfolding(crate::specs::Units::Ran))]
fn read_run(
    s: &[u8],
    cursor: Cursor,
    scope: Scope,
    from: u32,
    to: u32,
    before: usize,
    outs: &mut [u32; REMEMBERED],
    marks: &[u32],
) -> Reading<usize>
    requires { (from ≤ to) × UnitsRead scope.width s.now scope.start outs.old scope.stride marks.now cursor.at from before }
    ensures { Ran scope.width scope.constants s.now scope.start from to cursor.at scope.stride marks.now outs.new (number_of result) }
{
    let mut fields = before;
    let mut here = cursor;
    for i in from..to {
        let ((inputs, outputs), next) = read_unit(s, here, scope, i, outs, marks)?;
        fields += 2 + 2 * wide(inputs);
        outs[wide(i) % REMEMBERED] = outputs;
        here = next;
    }
    Ok((fields, here))
}

// So many units, the first of a definition, with no marks. What the lent ring holds before and after it says nothing.
#[tactic(auto, using(crate::specs::Units::stood_first, crate::specs::Units::run_whole, crate::specs::Units::run_sized))]
fn read_few(
    s: &[u8],
    cursor: Cursor,
    width: Width,
    constants: u32,
    count: u32,
    outs: &mut [u32; REMEMBERED],
) -> Reading<usize>
    requires { length outs.old ≡ remembered }
    ensures { (number_of result ≡ count_units width constants s.now count cursor.at) × (length outs.new ≡ remembered) }
{
    let scope = Scope {
        width,
        constants,
        start: cursor.at,
        stride: 1,
    };
    let marks = [0u32; 1];
    read_run(s, cursor, scope, 0, count, 0, outs, &marks[..0])
}

// Where the run of units from one number on ends, before the next mark.
fn run_end(from: u32, stride: u32, count: u32) -> u32
    requires { (from < count) × (0 < stride) }
    ensures { (from < result) × (result ≤ count) }
{
    from + stride.min(count - from)
}

// So many units, the first of a definition, with room for marks of every so many.
fn read_marked(s: &[u8], scope: Scope, count: u32, marks: &mut [u32]) -> Reading<usize>
    requires { (0 < scope.stride) × (length marks.old ≤ most_marks) }
    ensures { number_of result ≡ count_units scope.width scope.constants s.now count scope.start }
{
    let mut outs = [0; REMEMBERED];
    let mut known = 0;
    let mut fields = 0;
    let mut here = Cursor { at: scope.start };
    let mut i = 0;
    while i < count {
        known = mark_unit(marks, known, scope.stride, i, here.at - scope.start);
        let to = run_end(i, scope.stride, count);
        (fields, here) = read_run(s, here, scope, i, to, fields, &mut outs, &marks[..known])?;
        i = to;
    }
    Ok((fields, here))
}

// How many of so many units the file has room for, from a place on. Each takes at least its two counts and four bytes.
fn units_within(s: &[u8], at: usize, width: Width, count: u32) -> usize
    ensures { result ≤ count }
{
    let room = s.len().saturating_sub(at) / (2 * field_size(width) + 4);
    room.min(wide(count))
}

// So many units can't all be remembered, and at most so many of them are there. Since it calls itself, the compiler keeps it apart:
// the marks' room is not part of what every definition takes. No caller names more units than the count, so it never comes to that,
// and the room stands on the stack once.
fn read_many(
    s: &[u8],
    cursor: Cursor,
    width: Width,
    constants: u32,
    count: u32,
    most: usize,
) -> Reading<usize>
    ensures { number_of result ≡ count_units width constants s.now count cursor.at }
{
    if wide(count) < most {
        return read_many(s, cursor, width, constants, count, wide(count));
    }
    let stride = most / MARKS + NEAREST;
    let scope = Scope {
        width,
        constants,
        start: cursor.at,
        stride: stride as u32,
    };
    let mut marks = [0; MARKS];
    read_marked(s, scope, count, &mut marks)
}

// So many units, the first of a definition. What the lent ring holds before and after it says nothing.
pub fn read_units(
    s: &[u8],
    cursor: Cursor,
    width: Width,
    constants: u32,
    count: u32,
    outs: &mut [u32; REMEMBERED],
) -> Reading<usize>
    requires { length outs.old ≡ remembered }
    ensures { (number_of result ≡ count_units width constants s.now count cursor.at) × (length outs.new ≡ remembered) }
{
    if REMEMBERED < wide(count) {
        let most = units_within(s, cursor.at, width, count);
        if REMEMBERED < most {
            return read_many(s, cursor, width, constants, count, most);
        }
    }
    read_few(s, cursor, width, constants, count, outs)
}
