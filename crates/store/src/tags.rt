// The tags of a store's fields, and its sizes.
// Kept: the tags are bytes of the store's form, and the law of their order (`past_tags`) compares them.

// A definition name, which starts an entry.
pub const NAME_TAG: u8 = 1;

// A version of the name.
pub const VERSION_TAG: u8 = 2;

// A control's name and its float, of the version.
pub const SETTING_TAG: u8 = 3;

// The highest version ever given for the name.
pub const HIGHEST_TAG: u8 = 4;

// The bytes of a version, of a highest version and of a float.
pub const NUMBER_SIZE: usize = 4;

// The bytes of the longest name.
pub const LONGEST_NAME: usize = 255;

// How many versions a name may have.
pub const MOST_VERSIONS: usize = 16;
