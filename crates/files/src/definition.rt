// A whole definition, of which only the end is kept.
ghost use Rattle.std.specs.Prelude.{ℕ, ◌≡◌, length};
ghost use Rattle.fields.specs.Answers.{number_of, step_of};
ghost use Rattle.format.specs.Definition.{Definition};
ghost use Rattle.format.specs.Read.{got, ending, map_read, repeat};
ghost use Rattle.format.specs.Reader.{variant, definition_by};
ghost use Rattle.format.specs.Writer.{write_definition};
ghost use Rattle.units.specs.Units.{remembered};
ghost use Rattle.encoding.specs.Encoding.{fields_in};
ghost use Rattle.files.specs.Skips.{counted_units, counted_variants};

use encoding::encoded_length;
use faults::FileError;
use fields::{Cursor, Reading, skip_many};
use format::{HIGHEST, HIGHEST_SHORT, Width};
use front::{read_front, skip_floats};
use units::{REMEMBERED, read_units};
use words::wide;

// One variant, in a definition of so many parameters.
pub fn read_variant(s: &[u8], cursor: Cursor, parameters: u32) -> Result<Cursor, FileError>
    ensures { step_of result ≡ ending (variant parameters s.now cursor.at) }
{
    let (_, values) = cursor.name(s)?;
    skip_floats(s, values, parameters)
}

// So many variants.
pub fn read_variants(
    s: &[u8],
    cursor: Cursor,
    parameters: u32,
    count: u32,
) -> Result<Cursor, FileError>
    ensures { step_of result ≡ ending (repeat (variant parameters s.now) count cursor.at) }
{
    skip_many(cursor, count, |here| read_variant(s, here, parameters))
}

// A count of units and as many units: how many counts and indices these have.
fn counted_units(
    s: &[u8],
    cursor: Cursor,
    width: Width,
    constants: u32,
    outs: &mut [u32; REMEMBERED],
) -> Reading<usize>
    requires { length outs.old ≡ remembered }
    ensures { (number_of result ≡ counted_units width constants s.now cursor.at) × (length outs.new ≡ remembered) }
{
    let (units, first) = cursor.count_to(s, width, HIGHEST)?;
    read_units(s, first, width, constants, units, outs)
}

// A count of variants and as many variants.
fn counted_variants(s: &[u8], cursor: Cursor, parameters: u32) -> Result<Cursor, FileError>
    ensures { step_of result ≡ counted_variants parameters s.now cursor.at }
{
    let (variants, first) = cursor.short_count_to(s, HIGHEST_SHORT)?;
    read_variants(s, first, parameters, variants)
}

// The next definition: how many counts and indices it has. What the lent ring holds before and after it says nothing.
pub(crate) fn next_definition(
    s: &[u8],
    cursor: Cursor,
    width: Width,
    outs: &mut [u32; REMEMBERED],
) -> Reading<usize>
    requires { length outs.old ≡ remembered }
    ensures { (number_of result ≡ map_read fields_in (definition_by width s.now cursor.at)) × (length outs.new ≡ remembered) }
{
    let (counts, p1) = read_front(s, cursor, width)?;
    let (fields, p2) = counted_units(s, p1, width, counts.constants, outs)?;
    let next = counted_variants(s, p2, counts.parameters)?;
    Ok((4 + wide(counts.names) + fields, next))
}

// The next definition.
pub fn read_definition(s: &[u8], cursor: Cursor, width: Width) -> Result<Cursor, FileError>
    ensures { step_of result ≡ ending (definition_by width s.now cursor.at) }
{
    let mut outs = [0; REMEMBERED];
    let (_, next) = next_definition(s, cursor, width, &mut outs)?;
    Ok(next)
}

// How long the encoding of the definition that starts at a place is.
pub fn encoded_size(s: &[u8], at: usize, width: Width) -> usize
    ensures { (d : Definition) (end : ℕ) → definition_by width s.now at ≡ got d end → result ≡ length (write_definition d) }
{
    let mut outs = [0; REMEMBERED];
    match next_definition(s, Cursor { at }, width, &mut outs) {
        Ok((fields, next)) => encoded_length(s, at, next.at, width, fields),
        Err(FileError(_, place)) => place,
    }
}
