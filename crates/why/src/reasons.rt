// The reason of a row, and `why`.
ghost use Rattle.std.specs.Prelude.{◌≤◌, ◌<◌, ◌≡◌, length};
ghost use Rattle.words.specs.Parts.{region};
ghost use Rattle.model.specs.Layout.{words_length, nodes_place, nodes_words, count_in};
ghost use Rattle.why.specs.Held.{why_told};
ghost use Rattle.why.specs.Rows.{row_reason};
ghost use Rattle.why.specs.Seen.{SeenBefore};

use crate::Reason;
use crate::place::asked_place;
use crate::sight::{SeenSoFar, sight_to};
use layout::{DEPTH, GROUP, NODES, NODES_END, RECORD, RUN, SLOT};
use refusals::Refusal;
use statecheck::well_formed;

// The reason of the row at a place, by what was seen on the way to it: a row too deep for it is below the last that was not, and that one is off.
fn reason_at(words: &[u32], at: usize, seen: SeenSoFar) -> Reason
    requires { (length words.now ≡ words_length) × ((count_in words.now ≤ 256) × ((at < count_in words.now) × SeenBefore (region nodes_place nodes_words words.now) at seen)) }
    ensures { result ≡ row_reason (region nodes_place nodes_words words.now) (count_in words.now) at }
{
    let slot = words[NODES + RECORD * at + SLOT];
    let run = words[NODES + RECORD * at + RUN];
    let depth = words[NODES + RECORD * at + DEPTH];
    if slot == GROUP {
        return Reason::Group;
    }
    if run != 1 {
        return Reason::Off;
    }
    if seen.limit < depth {
        return Reason::AncestorOff(seen.named);
    }
    Reason::Running(seen.many + 1)
}

// Why the node that a number names is silent, or where it runs, in any state at all: refusal 1 where the state is not well formed.
pub fn why(number: u32, words: &[u32], arena: &[u8]) -> Result<Reason, Refusal>
    ensures { result ≡ why_told number words.now arena.now }
{
    if !well_formed(words, arena) {
        return Err(Refusal::BadState);
    }
    match asked_place(words, number) {
        Some(at) => {
            let seen = sight_to(&words[NODES..NODES_END], at);
            Ok(reason_at(words, at, seen))
        }
        None => Ok(Reason::NoNode),
    }
}
