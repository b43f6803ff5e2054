// Fields written over a lent run of bytes, and zeros.
ghost use Rattle.std.specs.Prelude.{◌≡◌, ◌∷◌, ◌+◌, ◌≤◌, length};
ghost use Rattle.words.specs.Parts.{over};
ghost use Rattle.words.specs.Bytes.{bytes16};
ghost use Rattle.tagged.specs.Fields.{head_size, write_field};
ghost use Rattle.store.specs.Writing.{name_field};
ghost use Rattle.store.specs.Edit.{number_field_of, number_field, zeroed_from};

use crate::tags::{NAME_TAG, NUMBER_SIZE};
use osc::{put_bytes, put_int};
use tagged::HEAD_SIZE;

// The head of a field: its tag and the length of its contents.
pub fn put_head(bytes: &mut [u8], at: usize, tag: u8, size: usize)
    requires { at + head_size ≤ length bytes.old }
    ensures { bytes.new ≡ over at (tag ∷ bytes16 size) bytes.old }
{
    let [high, low] = ((size % 65536) as u16).to_be_bytes();
    bytes[at..at + HEAD_SIZE].copy_from_slice(&[tag, high, low]);
}

// A field that holds a number.
pub fn put_number(bytes: &mut [u8], at: usize, tag: u8, number: u32)
    requires { at + number_field ≤ length bytes.old }
    ensures { bytes.new ≡ over at (write_field (number_field_of tag number)) bytes.old }
{
    put_head(bytes, at, tag, NUMBER_SIZE);
    put_int(bytes, at + HEAD_SIZE, number);
}

// A field that holds a definition name.
pub fn put_name(bytes: &mut [u8], at: usize, name: &[u8])
    requires { at + (head_size + length name.now) ≤ length bytes.old }
    ensures { bytes.new ≡ over at (write_field (name_field name.now)) bytes.old }
{
    put_head(bytes, at, NAME_TAG, name.len());
    put_bytes(bytes, at + HEAD_SIZE, name);
}

// Zeros from a place on.
pub fn zero_from(bytes: &mut [u8], at: usize)
    requires { at ≤ length bytes.old }
    ensures { bytes.new ≡ zeroed_from at bytes.old }
{
    bytes[at..].fill(0);
}
