// Tagged fields: a one-byte tag, a two-byte length, and so many bytes.
#![tactic(auto)]

ghost use Rattle.std.specs.Prelude.{◌+◌, ◌≤◌, ◌≡◌, length, drop};
ghost use Rattle.tagged.specs.Fields.{head_size, size_in};

// The bytes of a field before its contents.
pub const HEAD_SIZE: usize = 3;

// The length of a field's contents, as its head at a place tells it.
pub fn size_at(s: &[u8], at: usize) -> usize
    requires { at + head_size ≤ length s.now }
    ensures { result ≡ size_in (drop at s.now) }
{
    usize::from(u16::from_be_bytes([s[at + 1], s[at + 2]]))
}

// The place past a field.
pub fn past_field(s: &[u8], at: usize) -> usize
    requires { at + (head_size + size_in (drop at s.now)) ≤ length s.now }
    ensures { result ≡ at + (head_size + size_in (drop at s.now)) }
{
    at + (HEAD_SIZE + size_at(s, at))
}
