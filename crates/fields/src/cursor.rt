// The place in a file: it goes in and comes back by value. Each method reads one field.
ghost use Rattle.std.specs.Prelude.{◌+◌, ◌*◌, ◌≤◌, ◌≡◌, IfOk, leb, length};
ghost use Rattle.fields.specs.Answers.{number_of, text_of};
ghost use Rattle.format.specs.declared.Width.TheVariants.{Short};
ghost use Rattle.format.specs.Read.{checked};
ghost use Rattle.format.specs.Fields.{half, word, size_of, extended, value_by, int8, int16, int32, integer_by, float32, pstring, name, definition_name, count_to_by, short_count_to, rate, index_below_by};

use crate::name::is_name;
use faults::{Fault, FileError};
use format::{HIGHEST_RATE, Width};

#[derive(Clone, Copy)]
pub struct Cursor {
    pub at: usize,
}

// What was read and the cursor past it, or the fault and its place.
pub type Reading<T> = Result<(T, Cursor), FileError>;

// The number of four bytes at a place.
pub fn word_at(s: &[u8], at: usize) -> u32
    requires { at + 4 ≤ length s.now }
    ensures { result ≡ word s.now at }
{
    u32::from_be_bytes([s[at], s[at + 1], s[at + 2], s[at + 3]])
}

// A signed number of two bytes as the pattern of the same number in four: -1 stays -1. It is how far it lies above the lowest, and the
// lowest, without a test: the compiler has one instruction for it.
fn extend(a: u8, b: u8) -> u32
    ensures { result ≡ extended (256 * a + b) }
{
    let above = (u32::from(u16::from_be_bytes([a, b])) + 0x8000) % 0x1_0000;
    ((above as u64 + 0xFFFF_8000) % 0x1_0000_0000) as u32
}

// The number of two bytes at a place, extended.
fn half_at(s: &[u8], at: usize) -> u32
    requires { at + 2 ≤ length s.now }
    ensures { result ≡ extended (half s.now at) }
{
    extend(s[at], s[at + 1])
}

// The count or index at a place.
pub fn value_at(s: &[u8], at: usize, width: Width) -> u32
    requires { at + size_of width ≤ length s.now }
    ensures { result ≡ value_by width s.now at }
{
    match width {
        Width::Short => half_at(s, at),
        Width::Long => word_at(s, at),
    }
}

// A number that was read from a place on, if it is at most so many; else a refusal at that place.
fn at_most(read: Reading<u32>, most: u32, fault: Fault, at: usize) -> Reading<u32>
    ensures { number_of result ≡ checked fault (λ n. leb n most) at (number_of read) }
{
    let (n, next) = read?;
    if n <= most {
        return Ok((n, next));
    }
    Err(FileError(fault, at))
}

impl Cursor {
    pub fn int8(self, s: &[u8]) -> Reading<u32>
        ensures { number_of result ≡ int8 s.now self.at }
    {
        let at = self.at;
        if s.len() <= at {
            return Err(FileError(Fault::Truncated, at));
        }
        Ok((u32::from(s[at]), Cursor { at: at + 1 }))
    }

    pub fn int16(self, s: &[u8]) -> Reading<u32>
        ensures { number_of result ≡ int16 s.now self.at }
    {
        let at = self.at;
        if s.len() < 2 || s.len() - 2 < at {
            return Err(FileError(Fault::Truncated, at));
        }
        let n = u16::from_be_bytes([s[at], s[at + 1]]);
        Ok((u32::from(n), Cursor { at: at + 2 }))
    }

    pub fn int32(self, s: &[u8]) -> Reading<u32>
        ensures { number_of result ≡ int32 s.now self.at }
    {
        let at = self.at;
        if s.len() < 4 || s.len() - 4 < at {
            return Err(FileError(Fault::Truncated, at));
        }
        Ok((word_at(s, at), Cursor { at: at + 4 }))
    }

    // A signed number of two bytes, extended.
    fn extended(self, s: &[u8]) -> Reading<u32>
        ensures { number_of result ≡ integer_by Short s.now self.at }
    {
        let at = self.at;
        if s.len() < 2 || s.len() - 2 < at {
            return Err(FileError(Fault::Truncated, at));
        }
        Ok((half_at(s, at), Cursor { at: at + 2 }))
    }

    // The field of a count or an index.
    pub fn integer(self, s: &[u8], width: Width) -> Reading<u32>
        ensures { number_of result ≡ integer_by width s.now self.at }
    {
        match width {
            Width::Short => self.extended(s),
            Width::Long => self.int32(s),
        }
    }

    // A float is its pattern.
    pub fn float32(self, s: &[u8]) -> Reading<u32>
        ensures { number_of result ≡ float32 s.now self.at }
    {
        self.int32(s)
    }

    // A count of at most so many.
    pub fn count_to(self, s: &[u8], width: Width, most: u32) -> Reading<u32>
        ensures { number_of result ≡ count_to_by width most s.now self.at }
    {
        at_most(self.integer(s, width), most, Fault::BadCount, self.at)
    }

    // The same of two bytes in both versions.
    pub fn short_count_to(self, s: &[u8], most: u32) -> Reading<u32>
        ensures { number_of result ≡ short_count_to most s.now self.at }
    {
        at_most(self.int16(s), most, Fault::BadCount, self.at)
    }

    pub fn rate(self, s: &[u8]) -> Reading<u32>
        ensures { number_of result ≡ rate s.now self.at }
    {
        at_most(self.int8(s), HIGHEST_RATE, Fault::BadRate, self.at)
    }

    // An index below a bound.
    pub fn index_below(self, s: &[u8], width: Width, bound: u32) -> Reading<u32>
        ensures { number_of result ≡ index_below_by width bound s.now self.at }
    {
        let at = self.at;
        let (n, next) = self.integer(s, width)?;
        if n < bound {
            return Ok((n, next));
        }
        Err(FileError(Fault::BadIndex, at))
    }

    // A pstring, of bytes of any kind. They lie in the file, so that nobody asks again.
    pub fn pstring(self, s: &[u8]) -> Reading<usize>
        ensures { (text_of s.now result ≡ pstring s.now self.at) × IfOk result (λ r. (r.0 ≤ r.1.at) × (r.1.at ≤ length s.now)) }
    {
        let at = self.at;
        if s.len() <= at {
            return Err(FileError(Fault::Truncated, at));
        }
        let size = usize::from(s[at]);
        let start = at + 1;
        if size <= s.len() - start {
            return Ok((start, Cursor { at: start + size }));
        }
        Err(FileError(Fault::Truncated, at))
    }

    pub fn name(self, s: &[u8]) -> Reading<usize>
        ensures { text_of s.now result ≡ name s.now self.at }
    {
        let at = self.at;
        let (start, next) = self.pstring(s)?;
        if is_name(&s[start..next.at]) {
            return Ok((start, next));
        }
        Err(FileError(Fault::BadName, at))
    }

    // A name that is not empty.
    pub fn definition_name(self, s: &[u8]) -> Reading<usize>
        ensures { text_of s.now result ≡ definition_name s.now self.at }
    {
        let at = self.at;
        let (start, next) = self.pstring(s)?;
        if start < next.at && is_name(&s[start..next.at]) {
            return Ok((start, next));
        }
        Err(FileError(Fault::BadName, at))
    }
}
