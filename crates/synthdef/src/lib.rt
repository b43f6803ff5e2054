// What Rust and C call of SynthDef files; `synthdef_c` exports each under its name.
// Kept: numbers, 0 among them, since C calls these seven; inside they are Results and Options.
#![tactic(auto)]

mod twin;

ghost use Rattle.std.specs.Prelude.{◌≡◌};
ghost use Rattle.format.specs.Reader.{read_file};
ghost use Rattle.files.specs.File.{verdict, refusal_number, refusal_place, definition_count};
ghost use Rattle.synthdef.specs.Twin.{accepted_version, Widens};
ghost use Rattle.reader.specs.Spans.{definition_span, name_start, name_end};

use crate::twin::{twin_size, version_of, write_twin};
use faults::FileError;
use files::{check_file, width_of};
use reader::definition_span;

// 0 where the file is accepted, or the refusal's number.
pub fn synthdef_refusal(file: &[u8]) -> u32
    ensures { result ≡ refusal_number (verdict (read_file file.now)) }
{
    match check_file(file) {
        Ok(_) => 0,
        Err(FileError(fault, _)) => u32::from(fault),
    }
}

// The refusal's place; 0 where the file is accepted.
pub fn synthdef_place(file: &[u8]) -> u64
    ensures { result ≡ refusal_place (verdict (read_file file.now)) }
{
    match check_file(file) {
        Ok(_) => 0,
        Err(FileError(_, place)) => place as u64,
    }
}

// How many definitions an accepted file has; 0 where it is refused.
pub fn synthdef_count(file: &[u8]) -> u32
    ensures { result ≡ definition_count (verdict (read_file file.now)) }
{
    match check_file(file) {
        Ok(count) => count,
        Err(_) => 0,
    }
}

// The place of the first byte of a definition's name; 0 where an accepted file has no such definition.
#[tactic(auto, using(reader::specs::SpanLaws::span_inside))]
pub fn synthdef_name_start(file: &[u8], index: u32) -> u64
    ensures { result ≡ name_start (definition_span file.now index) }
{
    match definition_span(file, index) {
        Some((start, _)) => (start + 1) as u64,
        None => 0,
    }
}

// The place past it.
#[tactic(auto, using(reader::specs::SpanLaws::span_inside))]
pub fn synthdef_name_end(file: &[u8], index: u32) -> u64
    ensures { result ≡ name_end file.now (definition_span file.now index) }
{
    match definition_span(file, index) {
        Some((start, _)) => (start + 1 + usize::from(file[start])) as u64,
        None => 0,
    }
}

// The version of an accepted file; 0 where it is refused.
pub fn synthdef_version(file: &[u8]) -> u32
    ensures { result ≡ accepted_version file.now }
{
    match check_file(file) {
        Ok(_) => version_of(width_of(file)),
        Err(_) => 0,
    }
}

// Writes the twin of an accepted file from the first byte on, where it has room, and answers its length; else 0, and nothing is written.
pub fn synthdef_widen(file: &[u8], out: &mut [u8]) -> u64
    ensures { Widens file.now out.old out.new result }
{
    match check_file(file) {
        Ok(count) => {
            let size = twin_size(file, count);
            if out.len() < size {
                return 0;
            }
            write_twin(out, file, count);
            size as u64
        }
        Err(_) => 0,
    }
}
