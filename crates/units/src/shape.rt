// A unit that was read, by its counts alone.
ghost use Rattle.std.specs.Prelude.{◌≤◌, ◌≡◌, length};
ghost use Rattle.format.specs.Fields.{size_of};
ghost use Rattle.units.specs.Marks.{unit_counts, unit_inputs, unit_outputs, unit_end};

use fields::value_at;
use format::Width;

// How many bytes a count or an index takes.
pub fn field_size(width: Width) -> usize
    ensures { result ≡ size_of width }
{
    match width {
        Width::Short => 2,
        Width::Long => 4,
    }
}

// The place of the counts of the unit at a place.
#[tactic(auto, unfolding(crate::specs::Marks::unit_counts, crate::specs::Marks::unit_end))]
pub fn unit_counts(s: &[u8], at: usize) -> usize
    requires { unit_counts s.now at ≤ length s.now }
    ensures { result ≡ unit_counts s.now at }
{
    at + 2 + usize::from(s[at])
}

// How many inputs the unit at a place has.
#[tactic(auto, unfolding(crate::specs::Marks::unit_inputs, crate::specs::Marks::unit_end))]
pub fn unit_inputs(s: &[u8], at: usize, width: Width) -> u32
    requires { unit_end width s.now at ≤ length s.now }
    ensures { result ≡ unit_inputs width s.now at }
{
    value_at(s, unit_counts(s, at), width)
}

// How many outputs the unit at a place has.
#[tactic(auto, unfolding(crate::specs::Marks::unit_outputs, crate::specs::Marks::unit_end))]
pub fn unit_outputs(s: &[u8], at: usize, width: Width) -> u32
    requires { unit_end width s.now at ≤ length s.now }
    ensures { result ≡ unit_outputs width s.now at }
{
    let counts = unit_counts(s, at);
    value_at(s, counts + field_size(width), width)
}

// The place past the unit at a place.
pub fn unit_end(s: &[u8], at: usize, width: Width) -> usize
    requires { unit_end width s.now at ≤ length s.now }
    ensures { result ≡ unit_end width s.now at }
{
    let size = field_size(width);
    let counts = unit_counts(s, at);
    let inputs = unit_inputs(s, at, width);
    let outputs = unit_outputs(s, at, width);
    counts + 2 * size + 2 + 2 * size * inputs as usize + outputs as usize
}
