// How long a definition of a file is in version 2, in which the limit is measured.
#![tactic(auto)]

ghost use Rattle.std.specs.Prelude.{◌≡◌, ltb, length};
ghost use Rattle.format.specs.Definition.{Definition};
ghost use Rattle.format.specs.Read.{got};
ghost use Rattle.format.specs.Reader.{size_limit, definition_by};
ghost use Rattle.format.specs.Writer.{write_definition};
ghost use Rattle.encoding.specs.Encoding.{Measured};

use format::{SIZE_LIMIT, Width};

// How many bytes the version 2 encoding of the definition has that was read from one place to another, with so many counts and indices:
// each of these takes two bytes more than in version 1.
pub fn encoded_length(s: &[u8], at: usize, end: usize, width: Width, fields: usize) -> usize
    requires { Measured width s.now at end fields }
    ensures { (d : Definition) → definition_by width s.now at ≡ got d end → result ≡ length (write_definition d) }
{
    let size = end - at;
    match width {
        Width::Long => size,
        Width::Short => size + 2 * fields,
    }
}

// Whether the encoding is longer than the limit.
pub fn too_long(s: &[u8], at: usize, end: usize, width: Width, fields: usize) -> bool
    requires { Measured width s.now at end fields }
    ensures { (d : Definition) → definition_by width s.now at ≡ got d end → result ≡ ltb size_limit (length (write_definition d)) }
{
    SIZE_LIMIT < encoded_length(s, at, end, width, fields)
}
