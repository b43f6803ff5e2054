// An accepted file's twin: the file of version 2 with the same definitions.
ghost use Rattle.std.specs.Prelude.{◌≤◌, ◌≡◌, length};
ghost use Rattle.format.specs.declared.Width.TheVariants.{Long};
ghost use Rattle.format.specs.Writer.{version_of, write_header};
ghost use Rattle.words.specs.Parts.{over};
ghost use Rattle.synthdef.specs.Twin.{Accepted, twin};

use files::{encoded_size, width_of};
use format::{FILE_TYPE, FILE_VERSION, FIRST_PLACE, FIRST_VERSION, Width};
use osc::{put_byte, put_int};
use reader::place_after;
use widening::widen;

// The version whose fields are so wide.
pub(crate) fn version_of(width: Width) -> u32
    ensures { result ≡ version_of width }
{
    match width {
        Width::Short => FIRST_VERSION,
        Width::Long => FILE_VERSION,
    }
}

// How long the twin of an accepted file of so many definitions is.
pub(crate) fn twin_size(file: &[u8], count: u32) -> usize
    requires { Accepted file.now count }
    ensures { result ≡ length (twin file.now) }
{
    let width = width_of(file);
    let mut size = FIRST_PLACE;
    let mut at = FIRST_PLACE;
    for _ in 0..count {
        size += encoded_size(file, at, width);
        at = place_after(file, at);
    }
    size
}

// The head of a file of version 2.
fn write_head(out: &mut [u8], count: u32)
    requires { 10 ≤ length out.old }
    ensures { out.new ≡ over 0 (write_header Long count) out.old }
{
    put_int(out, 0, FILE_TYPE);
    put_int(out, 4, FILE_VERSION);
    put_byte(out, 8, (count / 256 % 256) as u8);
    put_byte(out, 9, (count % 256) as u8);
}

// The twin of an accepted file of so many definitions, from the first byte on.
pub(crate) fn write_twin(out: &mut [u8], file: &[u8], count: u32)
    requires { Accepted file.now count × (length (twin file.now) ≤ length out.old) }
    ensures { out.new ≡ over 0 (twin file.now) out.old }
{
    write_head(out, count);
    let width = width_of(file);
    let mut to = FIRST_PLACE;
    let mut at = FIRST_PLACE;
    for _ in 0..count {
        let next = place_after(file, at);
        to = widen(out, to, file, at, next, width);
        at = next;
    }
}
