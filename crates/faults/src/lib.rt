// Why a file is refused: 2 to 11, each told with its place. The paper's number of each is `u32::from`.
#![tactic(auto)]

ghost use Rattle.std.specs.Prelude.{◌≡◌};
ghost use Rattle.faults.specs.Faults.{fault_number};

#[derive(Clone, Copy, Debug, PartialEq, Eq)]
pub enum Fault {
    Truncated,
    NotSynthDef,
    BadVersion,
    BadCount,
    BadName,
    BadRate,
    BadIndex,
    TooLong,
    NameTwice,
    BytesLeft,
}

// A fault's number.
impl From<Fault> for u32 {
    ghost from_gives = { λ fault n. n ≡ fault_number fault };

    fn from(fault: Fault) -> u32 {
        match fault {
            Fault::Truncated => 2,
            Fault::NotSynthDef => 3,
            Fault::BadVersion => 4,
            Fault::BadCount => 5,
            Fault::BadName => 6,
            Fault::BadRate => 7,
            Fault::BadIndex => 8,
            Fault::TooLong => 9,
            Fault::NameTwice => 10,
            Fault::BytesLeft => 11,
        }
    }
}

// Why a file is refused, and at which place.
#[derive(Clone, Copy, Debug, PartialEq, Eq)]
pub struct FileError(pub Fault, pub usize);
