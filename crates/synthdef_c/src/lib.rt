// What Rust and C call of SynthDef files: slices as a pointer and a length. Each is the function of `synthdef` of its name, and promises what that
// promises.
#![tactic(auto)]

ghost use Rattle.std.specs.Prelude.{◌≡◌};
ghost use Rattle.format.specs.Reader.{read_file};
ghost use Rattle.files.specs.File.{verdict, refusal_number, refusal_place, definition_count};
ghost use Rattle.synthdef.specs.Twin.{accepted_version, Widens};
ghost use Rattle.reader.specs.Spans.{definition_span, name_start, name_end};

// 0 where the file is accepted, or the refusal's number.
#[unsafe(no_mangle)]
pub extern "C" fn synthdef_refusal(file: &[u8]) -> u32
    ensures { result ≡ refusal_number (verdict (read_file file.now)) }
{
    synthdef::synthdef_refusal(file)
}

// The refusal's place; 0 where the file is accepted.
#[unsafe(no_mangle)]
pub extern "C" fn synthdef_place(file: &[u8]) -> u64
    ensures { result ≡ refusal_place (verdict (read_file file.now)) }
{
    synthdef::synthdef_place(file)
}

// How many definitions an accepted file has; 0 where it is refused.
#[unsafe(no_mangle)]
pub extern "C" fn synthdef_count(file: &[u8]) -> u32
    ensures { result ≡ definition_count (verdict (read_file file.now)) }
{
    synthdef::synthdef_count(file)
}

// The place of the first byte of a definition's name; 0 where an accepted file has no such definition.
#[unsafe(no_mangle)]
pub extern "C" fn synthdef_name_start(file: &[u8], index: u32) -> u64
    ensures { result ≡ name_start (definition_span file.now index) }
{
    synthdef::synthdef_name_start(file, index)
}

// The place past it.
#[unsafe(no_mangle)]
pub extern "C" fn synthdef_name_end(file: &[u8], index: u32) -> u64
    ensures { result ≡ name_end file.now (definition_span file.now index) }
{
    synthdef::synthdef_name_end(file, index)
}

// The version of an accepted file; 0 where it is refused.
#[unsafe(no_mangle)]
pub extern "C" fn synthdef_version(file: &[u8]) -> u32
    ensures { result ≡ accepted_version file.now }
{
    synthdef::synthdef_version(file)
}

// Writes the twin of an accepted file from the first byte on, where it has room, and answers its length; else 0, and nothing is written.
#[unsafe(no_mangle)]
pub extern "C" fn synthdef_widen(file: &[u8], out: &mut [u8]) -> u64
    ensures { Widens file.now out.old out.new result }
{
    synthdef::synthdef_widen(file, out)
}
