// One unit, read against the outputs of the units before it.
ghost use Rattle.std.specs.Prelude.{◌≡◌};
ghost use Rattle.fields.specs.Answers.{step_of};
ghost use Rattle.format.specs.Fields.{rate, index_below_by};
ghost use Rattle.format.specs.Read.{ending, repeat};
ghost use Rattle.format.specs.Reader.{input_by};
ghost use Rattle.units.specs.Answers.{unit_of};
ghost use Rattle.units.specs.Units.{outs_from, skip_unit, Remembered};

use crate::outputs::{REMEMBERED, Scope, far_outputs};
use faults::{Fault, FileError};
use fields::{Cursor, Reading, skip_many};
use format::{HIGHEST, Width};
use words::{MINUS_ONE, wide};

// An index below a bound.
fn read_index(s: &[u8], cursor: Cursor, width: Width, bound: u32) -> Result<Cursor, FileError>
    ensures { step_of result ≡ ending (index_below_by width bound s.now cursor.at) }
{
    let (_, next) = cursor.index_below(s, width, bound)?;
    Ok(next)
}

// One input of the unit behind so many others, whose outputs `outs` holds as far as they are remembered.
#[tactic(auto, using(crate::specs::Units::outs_length, crate::specs::Units::outs_at, crate::specs::Units::input_cut, crate::specs::Units::input_constant, crate::specs::Units::input_output, crate::specs::Units::input_bad, crate::specs::Marks::place_up), unfolding(crate::specs::Marks::unit_place))]
fn read_input(
    s: &[u8],
    cursor: Cursor,
    scope: Scope,
    units: u32,
    outs: &[u32; REMEMBERED],
    marks: &[u32],
) -> Result<Cursor, FileError>
    requires { Remembered scope.width s.now scope.start units outs.now scope.stride marks.now }
    ensures { step_of result ≡ ending (input_by scope.width scope.constants (outs_from scope.width s.now scope.start units) s.now cursor.at) }
{
    let at = cursor.at;
    let (unit, next) = cursor.integer(s, scope.width)?;
    if unit == MINUS_ONE {
        return read_index(s, next, scope.width, scope.constants);
    }
    if units <= unit {
        return Err(FileError(Fault::BadIndex, at));
    }
    if wide(units) <= wide(unit) + REMEMBERED {
        return read_index(s, next, scope.width, outs[wide(unit) % REMEMBERED]);
    }
    read_index(s, next, scope.width, far_outputs(s, scope, unit, marks))
}

// So many inputs.
fn read_inputs(
    s: &[u8],
    cursor: Cursor,
    count: u32,
    scope: Scope,
    units: u32,
    outs: &[u32; REMEMBERED],
    marks: &[u32],
) -> Result<Cursor, FileError>
    requires { Remembered scope.width s.now scope.start units outs.now scope.stride marks.now }
    ensures { step_of result ≡ ending (repeat (input_by scope.width scope.constants (outs_from scope.width s.now scope.start units) s.now) count cursor.at) }
{
    skip_many(
        cursor,
        count,
        |here| read_input(s, here, scope, units, outs, marks),
    )
}

// So many rates.
fn read_rates(s: &[u8], cursor: Cursor, count: u32) -> Result<Cursor, FileError>
    ensures { step_of result ≡ ending (repeat (rate s.now) count cursor.at) }
{
    skip_many(cursor, count, |here| {
        let (_, next) = here.rate(s)?;
        Ok(next)
    })
}

// A unit behind so many others: how many inputs and outputs it has.
#[tactic(auto, unfolding(crate::specs::Units::skip_unit))]
pub fn read_unit(
    s: &[u8],
    cursor: Cursor,
    scope: Scope,
    units: u32,
    outs: &[u32; REMEMBERED],
    marks: &[u32],
) -> Reading<(u32, u32)>
    requires { Remembered scope.width s.now scope.start units outs.now scope.stride marks.now }
    ensures { unit_of result ≡ skip_unit scope.width scope.constants (outs_from scope.width s.now scope.start units) s.now cursor.at }
{
    let (_, p1) = cursor.name(s)?;
    let (_, p2) = p1.rate(s)?;
    let (inputs, p3) = p2.count_to(s, scope.width, HIGHEST)?;
    let (outputs, p4) = p3.count_to(s, scope.width, HIGHEST)?;
    let (_, p5) = p4.int16(s)?;
    let p6 = read_inputs(s, p5, inputs, scope, units, outs, marks)?;
    let end = read_rates(s, p6, outputs)?;
    Ok(((inputs, outputs), end))
}
