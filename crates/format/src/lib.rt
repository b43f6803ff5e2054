// SynthDef files: the numbers of the format and the bounds of the paper. The format as read and written is in specs/.

// "SCgf" as a number, the versions, and where the first definition starts.
#![tactic(auto)]

pub const FILE_TYPE: u32 = 0x5343_6766;

pub const FIRST_VERSION: u32 = 1;

pub const FILE_VERSION: u32 = 2;

pub const FIRST_PLACE: usize = 10;

pub const MOST_DEFINITIONS: usize = 32;

// A definition takes at most so many bytes.
pub const SIZE_LIMIT: usize = 2048;

pub const MOST_PARAMETERS: u32 = 32;

// The highest counts of four bytes and of two.
pub const HIGHEST: u32 = 0x7FFF_FFFF;

pub const HIGHEST_SHORT: u32 = 0x7FFF;

// The highest rate: 0 is scalar, 1 control, 2 audio, 3 demand.
pub const HIGHEST_RATE: u32 = 3;

// How wide the field of a count or an index is: two bytes in version 1, four in version 2.
#[derive(Clone, Copy)]
pub enum Width {
    Short,
    Long,
}
