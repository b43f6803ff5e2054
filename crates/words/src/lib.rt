// What every crate stands on: runs of words and bytes.
#![tactic(auto)]

ghost use Rattle.std.specs.Prelude.{◌≡◌, length, replicate};

// The pattern of -1.
pub const MINUS_ONE: u32 = 0xFFFF_FFFF;

// A word as an index.
pub fn wide(x: u32) -> usize
    ensures { result ≡ x }
{
    x as usize
}

// Every word zero.
pub fn zero_words(words: &mut [u32])
    ensures { words.new ≡ replicate (length words.old) 0 }
{
    words.fill(0);
}

// A run over another of its length, one element after the other: the library's `copy_from_slice` calls memmove, which a host without a C library
// need not have.
pub fn copy_run<T: Copy>(to: &mut [T], from: &[T])
    requires { length to.old ≡ length from.now }
    ensures { to.new ≡ from.now }
{
    for (i, element) in from.iter().enumerate() {
        to[i] = *element;
    }
}
