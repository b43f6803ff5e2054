// Reply messages, written piece by piece into a lent buffer.
#![tactic(auto)]

ghost use Rattle.std.specs.Prelude.{◌≡◌, ◌+◌, ◌-◌, ◌%◌, ◌≤◌, ◌<◌, [], ◌∷◌, length, get_or, replicate};
ghost use Rattle.words.specs.Bytes.{bytes32};
ghost use Rattle.osc.specs.Message.{padded, decimal};
ghost use Rattle.words.specs.Parts.{over};
ghost use Rattle.osc.specs.Over.{Decimal};

use words::copy_run;

// One byte at a place.
pub fn put_byte(out: &mut [u8], at: usize, byte: u8)
    requires { at + 1 ≤ length out.old }
    ensures { out.new ≡ over at (byte ∷ []) out.old }
{
    out[at] = byte;
}

// A number as four bytes, the highest first.
// Kept: a name for the library's two calls, whose contract is in the words of `over`.
pub fn put_int(out: &mut [u8], at: usize, n: u32)
    requires { at + 4 ≤ length out.old }
    ensures { out.new ≡ over at (bytes32 n) out.old }
{
    out[at..at + 4].copy_from_slice(&n.to_be_bytes());
}

// Bytes as they stand.
// Kept: a name for one copy, whose contract is in the words of `over`.
pub fn put_bytes(out: &mut [u8], at: usize, bytes: &[u8])
    requires { at + length bytes.now ≤ length out.old }
    ensures { out.new ≡ over at bytes.now out.old }
{
    copy_run(&mut out[at..at + bytes.len()], bytes);
}

// So many zeros.
pub fn put_zeros(out: &mut [u8], at: usize, count: usize)
    requires { at + count ≤ length out.old }
    ensures { out.new ≡ over at (replicate count 0) out.old }
{
    out[at..at + count].fill(0);
}

// The length of a string of so many bytes with the zeros that end it.
pub fn padded_length(bytes: usize) -> usize
    requires { bytes + 4 < 18446744073709551616 }
    ensures { result ≡ bytes + (4 - bytes % 4) }
{
    bytes + (4 - bytes % 4)
}

// The byte at a place, 0 past the end.
// Kept: 0 past the end is the padding itself.
fn byte_or_zero(bytes: &[u8], i: usize) -> u8
    ensures { result ≡ get_or bytes.now i 0 }
{
    bytes.get(i).copied().unwrap_or(0)
}

// Four bytes at a place.
fn put_four(out: &mut [u8], at: usize, four: [u8; 4])
    requires { at + 4 ≤ length out.old }
    ensures { out.new ≡ over at four out.old }
{
    out[at..at + 4].copy_from_slice(&four);
}

// A string and the zeros that end it, four bytes at a time: for strings as short as names are, the compiler would make calls of loops over single
// bytes.
pub fn put_padded(out: &mut [u8], at: usize, bytes: &[u8])
    requires { at + length (padded bytes.now) ≤ length out.old }
    ensures { out.new ≡ over at (padded bytes.now) out.old }
{
    let size = bytes.len();
    let mut i = 0;
    // Four bytes at a time, since the compiler would make calls of loops over single bytes.
    while 3 < size - i {
        put_four(
            out,
            at + i,
            [bytes[i], bytes[i + 1], bytes[i + 2], bytes[i + 3]],
        );
        i += 4;
    }
    put_four(
        out,
        at + i,
        [
            byte_or_zero(bytes, i),
            byte_or_zero(bytes, i + 1),
            byte_or_zero(bytes, i + 2),
            0,
        ],
    );
}

// How many decimal digits a number below 10,000 has.
pub fn decimal_length(n: u32) -> usize
    ensures { result ≡ length (decimal n) }
{
    match n {
        0..=9 => 1,
        10..=99 => 2,
        100..=999 => 3,
        _ => 4,
    }
}

// A number below 10,000 in decimal digits.
pub fn put_decimal(out: &mut [u8], at: usize, n: u32)
    requires { Decimal n at out.old }
    ensures { out.new ≡ over at (decimal n) out.old }
{
    let ones = (48 + n % 10) as u8;
    let tens = (48 + n / 10 % 10) as u8;
    let hundreds = (48 + n / 100 % 10) as u8;
    let thousands = (48 + n / 1000) as u8;
    match n {
        0..=9 => put_bytes(out, at, &[ones]),
        10..=99 => put_bytes(out, at, &[tens, ones]),
        100..=999 => put_bytes(out, at, &[hundreds, tens, ones]),
        _ => put_bytes(out, at, &[thousands, hundreds, tens, ones]),
    }
}
