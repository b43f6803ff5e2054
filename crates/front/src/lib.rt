// The definition's front: its name, constants, initial values and parameter names.
#![tactic(auto)]

ghost use Rattle.std.specs.Prelude.{◌≡◌};
ghost use Rattle.fields.specs.Answers.{step_of};
ghost use Rattle.front.specs.Front.{entry_of, floats_of, counted_floats, counts_read, counts_from_values, read_counts, counts_of};
ghost use Rattle.format.specs.Read.{map_read, repeat, ending};
ghost use Rattle.format.specs.Fields.{float32};
ghost use Rattle.format.specs.Reader.{parameter_name_by, front_by};

use faults::{Fault, FileError};
use fields::{Cursor, Reading, skip_many};
use format::{HIGHEST, MOST_PARAMETERS, Width};
use words::wide;

// A parameter name: where its bytes start and end, and its index.
#[derive(Clone, Copy)]
pub struct Entry {
    pub start: usize,
    pub end: usize,
    pub index: u32,
}

// A count of floats and where the first one starts.
#[derive(Clone, Copy)]
pub struct Floats {
    pub count: u32,
    pub at: usize,
}

// What a definition's front tells: the place past its name, K, where the initial values start, P, where the first name starts, N.
#[derive(Clone, Copy)]
pub struct Counts {
    pub past: usize,
    pub constants: u32,
    pub values: usize,
    pub parameters: u32,
    pub first: usize,
    pub names: u32,
}

// So many floats. Any pattern is one, so where they end is a sum.
#[tactic(auto, using(format::specs::RepeatLaws::floats_whole, format::specs::RepeatLaws::float_cut), unfolding(format::specs::Read::repeat))]
pub fn skip_floats(s: &[u8], cursor: Cursor, count: u32) -> Result<Cursor, FileError>
    ensures { step_of result ≡ ending (repeat (float32 s.now) count cursor.at) }
{
    let at = cursor.at;
    if count == 0 {
        return Ok(cursor);
    }
    if s.len() < at {
        return Err(FileError(Fault::Truncated, at));
    }
    let many = wide(count);
    let room = (s.len() - at) / 4;
    if many <= room {
        return Ok(Cursor { at: at + 4 * many });
    }
    Err(FileError(Fault::Truncated, at + 4 * room))
}

// One parameter name, in a definition of so many parameters.
pub fn parameter_name(s: &[u8], cursor: Cursor, width: Width, parameters: u32) -> Reading<Entry>
    ensures { entry_of s.now result ≡ parameter_name_by width parameters s.now cursor.at }
{
    let (start, named) = cursor.name(s)?;
    let (index, next) = named.index_below(s, width, parameters)?;
    let entry = Entry {
        start,
        end: named.at,
        index,
    };
    Ok((entry, next))
}

// So many parameter names.
pub fn skip_parameter_names(
    s: &[u8],
    cursor: Cursor,
    width: Width,
    parameters: u32,
    count: u32,
) -> Result<Cursor, FileError>
    ensures { step_of result ≡ ending (repeat (parameter_name_by width parameters s.now) count cursor.at) }
{
    skip_many(cursor, count, |here| {
        let (_, next) = parameter_name(s, here, width, parameters)?;
        Ok(next)
    })
}

// A count of at most so many, and then as many floats.
pub fn counted_floats(s: &[u8], cursor: Cursor, width: Width, most: u32) -> Reading<Floats>
    ensures { floats_of result ≡ counted_floats width most s.now cursor.at }
{
    let (count, first) = cursor.count_to(s, width, most)?;
    let next = skip_floats(s, first, count)?;
    let at = first.at;
    Ok((Floats { count, at }, next))
}

// The front from its count of parameters up to its first parameter name, behind a name that ends at a place and so many constants.
fn counts_from_values(
    s: &[u8],
    cursor: Cursor,
    width: Width,
    past: usize,
    constants: u32,
) -> Reading<Counts>
    ensures { counts_read result ≡ counts_from_values width s.now past constants cursor.at }
{
    let (values, before_names) = counted_floats(s, cursor, width, MOST_PARAMETERS)?;
    let (names, first) = before_names.count_to(s, width, HIGHEST)?;
    let counts = Counts {
        past,
        constants,
        values: values.at,
        parameters: values.count,
        first: first.at,
        names,
    };
    Ok((counts, first))
}

// The front up to its first parameter name.
pub fn read_counts(s: &[u8], cursor: Cursor, width: Width) -> Reading<Counts>
    ensures { counts_read result ≡ read_counts width s.now cursor.at }
{
    let (_, named) = cursor.definition_name(s)?;
    let (constants, before_values) = counted_floats(s, named, width, HIGHEST)?;
    counts_from_values(s, before_values, width, named.at, constants.count)
}

// The whole front.
pub fn read_front(s: &[u8], cursor: Cursor, width: Width) -> Reading<Counts>
    ensures { counts_read result ≡ map_read (counts_of width cursor.at) (front_by width s.now cursor.at) }
{
    let (counts, first) = read_counts(s, cursor, width)?;
    let past = skip_parameter_names(s, first, width, counts.parameters, counts.names)?;
    Ok((counts, past))
}
