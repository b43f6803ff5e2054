// Names: the bytes of a pstring.
ghost use Rattle.std.specs.Prelude.{◌-◌, ◌≡◌, length};
ghost use Rattle.words.specs.Parts.{region};
ghost use Rattle.format.specs.Fields.{name_bytes, string_at};
ghost use Rattle.format.specs.Reader.{same_name};

// All bytes are those of a name.
pub(crate) fn is_name(bytes: &[u8]) -> bool
    ensures { result ≡ name_bytes bytes.now }
{
    bytes.iter().all(|b| 1 <= *b && *b <= 127)
}

// The bytes from one place to another are bytes of a name.
pub fn name_bytes(s: &[u8], from: usize, to: usize) -> bool
    ensures { result ≡ name_bytes (region from (to - from) s.now) }
{
    is_name(part(s, from, to))
}

// The bytes of the pstring at a place, a part of the lent bytes.
pub fn name_at(s: &[u8], at: usize) -> &[u8]
    ensures { result.now ≡ string_at s.now at }
{
    if s.len() <= at {
        return &s[..0];
    }
    let start = at + 1;
    part(s, start, start + usize::from(s[at]))
}

// The bytes from one place to another, as far as there are any.
pub fn part(s: &[u8], from: usize, to: usize) -> &[u8]
    ensures { result.now ≡ region from (to - from) s.now }
{
    if to <= from || s.len() <= from {
        return &s[..0];
    }
    &s[from..to.min(s.len())]
}

// How many bytes are compared at once.
const PART: usize = 16;

// Two parts are the same. It goes to the end whatever it meets, so that all bytes are compared at once.
#[tactic(auto, using(crate::specs::SameLaws::same_turn, crate::specs::SameLaws::same_end, words::specs::ChoiceLaws::both_assoc))]
fn same_part(a: &[u8], b: &[u8]) -> bool
    requires { (length a.now ≡ 16) × (length b.now ≡ 16) }
    ensures { result ≡ same_name a.now b.now }
{
    let mut same = true;
    for i in 0..PART {
        same &= a[i] == b[i];
    }
    same
}

// Two runs of one length are the same, the last bytes compared first.
#[tactic(auto, using(crate::specs::SameLaws::same_differs, crate::specs::SameLaws::same_end, crate::specs::SameLaws::same_before))]
fn same_run(a: &[u8], b: &[u8]) -> bool
    requires { length a.now ≡ length b.now }
    ensures { result ≡ same_name a.now b.now }
{
    for i in (0..a.len()).rev() {
        if a[i] != b[i] {
            return false;
        }
    }
    true
}

// Two names are the same. Their last bytes are compared first: names of a family differ at the end.
#[tactic(auto, using(crate::specs::SameLaws::same_lengths))]
pub fn same_name(a: &[u8], b: &[u8]) -> bool
    ensures { result ≡ same_name a.now b.now }
{
    a.len() == b.len() && same_run(a, b)
}

// The same, by whole parts: where many names are compared with each other, long ones that differ late take no longer than they must.
#[tactic(auto, using(crate::specs::SameLaws::same_lengths, crate::specs::SameLaws::same_end, crate::specs::SameLaws::same_front, crate::specs::SameLaws::part_differs, crate::specs::SameLaws::part_same))]
pub fn same_long(a: &[u8], b: &[u8]) -> bool
    ensures { result ≡ same_name a.now b.now }
{
    if a.len() != b.len() {
        return false;
    }
    let mut i = a.len();
    while PART <= i {
        let end = i;
        i -= PART;
        if !same_part(&a[i..end], &b[i..end]) {
            return false;
        }
    }
    same_run(&a[..i], &b[..i])
}
