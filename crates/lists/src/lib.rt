// A list of commands in one call: the list judged as a whole, the state check, and then its commands one by one up to the first refusal.
#![tactic(auto)]

mod item;
mod judged;
mod number;
mod run;

use model::Answer;

// The words of an item.
pub const ITEM_WORDS: usize = 12;

// "up to 512 commands"
pub const MOST_COMMANDS: usize = 512;

// A list as a whole: none, one that is refused with 34, or one whose commands are tried.
#[derive(Clone, Copy, Debug, PartialEq, Eq)]
pub enum Verdict {
    NoList,
    Unfit,
    Fit,
}

// One item: none, a command that no list holds (one that replies, a recall), or one that is tried.
// Kept: `Unlisted` does not end the check of the list, so that it is no `Err`.
#[derive(Clone, Copy, Debug, PartialEq, Eq)]
pub enum Kind {
    NoItem,
    Unlisted,
    Acts,
}

// What a list ends in: an answer, and how many commands were accepted before it; none where it is no list.
pub type Outcome = Option<(Answer, usize)>;

pub use judged::judge;
pub use number::{list_number, refusal_in};
pub use run::list;
