// Small types by value: a control, a value and a node argument of a command.
#![tactic(auto)]

ghost use Rattle.std.specs.Prelude.{◌≡◌};
ghost use Rattle.values.specs.Controls.{Holds, control_at, seen, mapping_of, mapping_word, set_to, map_to, shown_by, bus_at};
ghost use Rattle.values.specs.Targets.{argument, target_of};
ghost use Rattle.values.specs.Values.{pattern_of};

use words::{MINUS_ONE, wide};

// "an enum Unmapped or Bus(number), matched when read and when shown"
// Kept: paper 01 names the enum, and `Some(bus)` would not say that the control is mapped.
#[derive(Clone, Copy, Debug, PartialEq, Eq)]
pub enum Mapping {
    Unmapped,
    Bus(u32),
}

// "a control is a struct by value with an f32 beside its mapping". An own float that is a number is in `own`, and `nan` is 0.
// A NaN is kept by its pattern, in `nan`, and `own` is 0.0: so every float is kept bit for bit, and equal controls are equal structs.
#[derive(Clone, Copy)]
pub struct Control {
    pub own: f32,
    pub nan: u32,
    pub mapping: Mapping,
}

// A value in a command: a float by its pattern, or an integer by its pattern.
// Kept: two kinds of value, and neither is a refusal: no Result.
#[derive(Clone, Copy, Debug, PartialEq, Eq)]
pub enum Value {
    Float(u32),
    Integer(u32),
}

// A control by its index, or by the name in the bytes beside the command.
// Kept: `None` would not say that a name stands in the bytes beside the command.
#[derive(Clone, Copy, Debug, PartialEq, Eq)]
pub enum Key {
    Index(u32),
    Name,
}

// A node as a command names it: by the pattern of its signed number.
#[derive(Clone, Copy, Debug, PartialEq, Eq)]
pub struct NodeArgument {
    pub number: u32,
}

// What a node argument names.
#[derive(Clone, Copy, Debug, PartialEq, Eq)]
pub enum Target {
    Latest,
    Number(u32),
    Reserved,
}

// A mapping word: 0 unmapped, or the bus plus 1.
fn mapping_of(word: u32) -> Mapping
    ensures { result ≡ mapping_of word }
{
    match word.checked_sub(1) {
        Some(bus) => Mapping::Bus(bus),
        None => Mapping::Unmapped,
    }
}

// The word of a mapping.
fn word_of(mapping: Mapping) -> u32
    ensures { result ≡ mapping_word mapping }
{
    match mapping {
        Mapping::Unmapped => 0,
        Mapping::Bus(bus) => bus.saturating_add(1),
    }
}

// A bus's pattern, 0 past the last bus.
// Kept: 0 past the last bus is the paper's: a bus that is not there reads 0.
pub fn bus_at(buses: &[u32], bus: u32) -> u32
    ensures { result ≡ bus_at buses.now bus }
{
    buses.get(wide(bus)).copied().unwrap_or(0)
}

impl Control {
    // The control with an own float, by its pattern, and a mapping.
    pub fn new(own: u32, mapping: Mapping) -> Control
        ensures { Holds result (record { own = own; mapping = mapping }) }
    {
        if own % 2147483648 > 2139095040 {
            return Control {
                own: 0.0,
                nan: own,
                mapping,
            };
        }
        Control {
            own: f32::from_bits(own),
            nan: 0,
            mapping,
        }
    }

    // The control that two words of the state hold.
    pub fn from_words(own: u32, mapping: u32) -> Control
        ensures { Holds result (control_at own mapping) }
    {
        Control::new(own, mapping_of(mapping))
    }

    // The own float's pattern. No function here puts a NaN into `own` itself: one that is there reads as 0x7FC0_0000.
    pub fn own_word(self) -> u32
        ensures { result ≡ (seen self).own }
    {
        if self.nan != 0 {
            return self.nan;
        }
        let own = self.own;
        if own != own {
            return 2143289344;
        }
        f32::to_bits(own)
    }

    // The mapping's word.
    #[tactic(auto, unfolding(crate::specs::Controls::seen))]
    pub fn mapping_word(self) -> u32
        ensures { result ≡ mapping_word (seen self).mapping }
    {
        word_of(self.mapping)
    }

    // The control set to a float: a new one, unmapped.
    pub fn set(self, pattern: u32) -> Control
        ensures { Holds result (set_to pattern (seen self)) }
    {
        Control::new(pattern, Mapping::Unmapped)
    }

    // The control mapped to a bus, or unmapped: its own float stays.
    pub fn map_to(self, mapping: Mapping) -> Control
        ensures { Holds result (map_to mapping (seen self)) }
    {
        Control::new(self.own_word(), mapping)
    }

    // What reading the control gives.
    #[tactic(auto, unfolding(crate::specs::Controls::seen))]
    pub fn read(self, buses: &[u32]) -> u32
        ensures { result ≡ shown_by buses.now (seen self) }
    {
        match self.mapping {
            Mapping::Unmapped => self.own_word(),
            Mapping::Bus(bus) => bus_at(buses, bus),
        }
    }
}

// The argument that names a node by its number.
// Kept: `NodeArgument::from(n)` would hide that a number, and no birth, names the node (paper 02, 9/14).
pub fn by_number(number: u32) -> NodeArgument
    ensures { result ≡ argument number }
{
    NodeArgument { number }
}

// What a node argument names, by its number.
pub fn target_of(number: u32) -> Target
    ensures { result ≡ target_of number }
{
    if number < 2147483648 {
        return Target::Number(number);
    }
    if number == MINUS_ONE {
        return Target::Latest;
    }
    Target::Reserved
}

// An integer's pattern as a float's: by sign and magnitude; none where it is out of bounds.
fn integer_pattern(integer: u32) -> Option<u32>
    ensures { result ≡ pattern_of (Value.Integer integer) }
{
    if integer <= 16777216 {
        let number = integer as f32;
        return Some(f32::to_bits(number));
    }
    if integer < 4278190080 {
        return None;
    }
    let magnitude = 4294967295 - integer + 1;
    let number = -(magnitude as f32);
    Some(f32::to_bits(number))
}

// The pattern of the float that a value becomes; none where it is out of bounds, refusal 23.
#[tactic(auto, using(crate::specs::ValueLaws::float_pattern))]
pub fn value_pattern(value: Value) -> Option<u32>
    ensures { result ≡ pattern_of value }
{
    match value {
        Value::Float(pattern) => Some(pattern),
        Value::Integer(integer) => integer_pattern(integer),
    }
}
