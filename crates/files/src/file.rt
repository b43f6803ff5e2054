// A whole file: accepted, with the number of its definitions, or refused, with the reason and the place.
ghost use Rattle.std.specs.Prelude.{◌≡◌, ◌+◌, ◌*◌, ◌≤◌, [], length};
ghost use Rattle.fields.specs.Answers.{number_of, step_of};
ghost use Rattle.format.specs.Fields.{string_at};
ghost use Rattle.format.specs.Read.{ending, map_read};
ghost use Rattle.format.specs.Reader.{Header, most_definitions, same_name, among, is_version, read_header, read_definitions, read_file, file_width};
ghost use Rattle.units.specs.Units.{remembered};
ghost use Rattle.files.specs.File.{Named, verdict, names_from, skip_fitting};

use crate::definition::next_definition;
use encoding::too_long;
use faults::{Fault, FileError};
use fields::{Cursor, Reading, name_at, same_long, word_at};
use format::{FILE_TYPE, FILE_VERSION, FIRST_VERSION, MOST_DEFINITIONS, Width};
use units::REMEMBERED;
use words::wide;

// A version that can be read.
fn is_version(version: u32) -> bool
    ensures { result ≡ is_version version }
{
    version == FIRST_VERSION || version == FILE_VERSION
}

// How wide the fields of a file are, by its version.
#[tactic(auto, using(crate::specs::FileLaws::short_width))]
pub fn width_of(s: &[u8]) -> Width
    ensures { result ≡ file_width s.now }
{
    if 8 <= s.len() && word_at(s, 4) == FIRST_VERSION {
        Width::Short
    } else {
        Width::Long
    }
}

// The file's head: how many definitions there are, and the cursor at the first.
#[tactic(auto, using(crate::specs::FileLaws::head_count))]
fn read_header(s: &[u8]) -> Reading<u32>
    ensures { number_of result ≡ map_read (λ (h : Header). h.count) (read_header s.now) }
{
    let start = Cursor { at: 0 };
    let (kind, p1) = start.int32(s)?;
    if kind != FILE_TYPE {
        return Err(FileError(Fault::NotSynthDef, 0));
    }
    let (version, p2) = p1.int32(s)?;
    if !is_version(version) {
        return Err(FileError(Fault::BadVersion, p1.at));
    }
    p2.short_count_to(s, MOST_DEFINITIONS as u32)
}

// The length and the first letter of a name, as one number.
fn name_key(size: u8, first: u8) -> u16
    ensures { result ≡ 256 * size + first }
{
    u16::from_be_bytes([size, first])
}

// Whether the names at two places are the same, the second of which lies whole in the file and is not empty. The two bytes at their
// starts tell most names apart.
fn same_names(s: &[u8], other: usize, at: usize) -> bool
    requires { Named s.now at }
    ensures { result ≡ same_name (string_at s.now other) (string_at s.now at) }
{
    if other < at && name_key(s[other], s[other + 1]) != name_key(s[at], s[at + 1]) {
        return false;
    }
    same_long(name_at(s, other), name_at(s, at))
}

// The name of the definition at a place is that of one of those that start at `starts`.
fn name_among(s: &[u8], at: usize, starts: &[usize]) -> bool
    requires { Named s.now at }
    ensures { result ≡ among (string_at s.now at) (names_from s.now starts.now) }
{
    starts.iter().any(|start| same_names(s, *start, at))
}

// The next definition, no longer than the limit, and named as none of those that start at `starts`.
fn read_fitting(
    s: &[u8],
    cursor: Cursor,
    width: Width,
    starts: &[usize],
    outs: &mut [u32; REMEMBERED],
) -> Result<Cursor, FileError>
    requires { length outs.old ≡ remembered }
    ensures { (step_of result ≡ skip_fitting width s.now (names_from s.now starts.now) cursor.at) × (length outs.new ≡ remembered) }
{
    let at = cursor.at;
    let (fields, next) = next_definition(s, cursor, width, outs)?;
    if too_long(s, at, next.at, width, fields) {
        return Err(FileError(Fault::TooLong, at));
    }
    if name_among(s, at, starts) {
        return Err(FileError(Fault::NameTwice, at));
    }
    Ok(next)
}

// A file's definitions.
fn read_definitions(s: &[u8], cursor: Cursor, width: Width, count: u32) -> Result<Cursor, FileError>
    requires { count ≤ most_definitions }
    ensures { step_of result ≡ ending (read_definitions width s.now count [] cursor.at) }
{
    let mut starts = [0; MOST_DEFINITIONS];
    let mut outs = [0; REMEMBERED];
    let mut here = cursor;
    for i in 0..wide(count) {
        let next = read_fitting(s, here, width, &starts[..i], &mut outs)?;
        starts[i] = here.at;
        here = next;
    }
    Ok(here)
}

// How many definitions an accepted file has; or why it is refused, and at which place.
pub fn check_file(s: &[u8]) -> Result<u32, FileError>
    ensures { result ≡ verdict (read_file s.now) }
{
    let (count, first) = read_header(s)?;
    let end = read_definitions(s, first, width_of(s), count)?;
    if end.at < s.len() {
        return Err(FileError(Fault::BytesLeft, end.at));
    }
    Ok(count)
}
