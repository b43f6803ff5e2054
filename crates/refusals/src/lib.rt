// Why a command is refused, faults of a file aside. The paper's number of each is `number_of`.
#![tactic(auto)]

ghost use Rattle.std.specs.Prelude.{◌≡◌};
ghost use Rattle.refusals.specs.Refusals.{number_of};

#[derive(Clone, Copy, Debug, PartialEq, Eq)]
pub enum Refusal {
    BadState,
    NoSlot,
    BadFlag,
    BadNumber,
    NumberLive,
    NoDefinition,
    NoNode,
    WrongKind,
    InsideItself,
    NodesFull,
    NoControl,
    NoBus,
    BadValue,
    NoRoom,
    NoNumber,
    Malformed,
    UnknownMessage,
    PastWidth,
    VersionsFull,
    StoreUnformed,
    NoVersion,
    StoreFull,
    ListUnfit,
}

// A refusal's number.
impl From<Refusal> for u32 {
    ghost from_gives = { λ refusal n. n ≡ number_of refusal };

    fn from(refusal: Refusal) -> u32 {
        match refusal {
            Refusal::BadState => 1,
            Refusal::NoSlot => 12,
            Refusal::BadFlag => 13,
            Refusal::BadNumber => 14,
            Refusal::NumberLive => 15,
            Refusal::NoDefinition => 16,
            Refusal::NoNode => 17,
            Refusal::WrongKind => 18,
            Refusal::InsideItself => 19,
            Refusal::NodesFull => 20,
            Refusal::NoControl => 21,
            Refusal::NoBus => 22,
            Refusal::BadValue => 23,
            Refusal::NoRoom => 24,
            Refusal::NoNumber => 25,
            Refusal::Malformed => 26,
            Refusal::UnknownMessage => 27,
            Refusal::PastWidth => 28,
            Refusal::VersionsFull => 30,
            Refusal::StoreUnformed => 31,
            Refusal::NoVersion => 32,
            Refusal::StoreFull => 33,
            Refusal::ListUnfit => 34,
        }
    }
}
