// The lookups.
ghost use Rattle.std.specs.Prelude.{◌≡◌, Some};
ghost use Rattle.readable.specs.Lookup.{cover_at, name_in, parameters_in, units_in, values_in, cover_in};
ghost use Rattle.readable.specs.Readable.{Readable, ReadableWhole};

use crate::cover::Cover;
use crate::entries::Names;
use crate::places::counts;
use fields::{name_at, word_at};

// P, the number of parameters.
pub fn parameters(s: &[u8]) -> u32
    requires { Readable s.now }
    ensures { Some result ≡ parameters_in s.now }
{
    counts(s).parameters
}

// Where the initial values start, and how many there are.
pub fn values(s: &[u8]) -> (usize, u32)
    requires { Readable s.now }
    ensures { Some result ≡ values_in s.now }
{
    let places = counts(s);
    (places.values, places.parameters)
}

// The definition's name, a part of the lent bytes.
pub fn name(s: &[u8]) -> &[u8]
    requires { Readable s.now }
    ensures { result.now ≡ name_in s.now }
{
    name_at(s, 0)
}

// What a control name covers: it means its first entry, and its width ends at the next larger index that has a name.
pub fn name_cover(s: &[u8], name: &[u8]) -> Option<Cover>
    requires { Readable s.now }
    ensures { cover_at result ≡ cover_in name.now s.now }
{
    let places = counts(s);
    let names = Names { s, places };
    let index = names.find(name)?;
    let next = names.next_index(index, places.parameters);
    Some(Cover {
        index,
        width: next - index,
    })
}

// U, the number of units, which stands behind the names.
pub fn units(s: &[u8]) -> u32
    requires { ReadableWhole s.now }
    ensures { Some result ≡ units_in s.now }
{
    let places = counts(s);
    let names = Names { s, places };
    word_at(s, names.end())
}
