// A list as a whole, before any of its commands is done.
ghost use Rattle.std.specs.Prelude.{◌≡◌};
ghost use Rattle.lists.specs.Lent.{verdict};

use crate::item::item_kind;
use crate::{ITEM_WORDS, Kind, MOST_COMMANDS, Verdict};

// Whether these words, beside these bytes, are a list, and one whose commands are tried.
pub fn judge(items: &[u32], bytes: &[u8]) -> Verdict
    ensures { result ≡ verdict items.now bytes.now }
{
    if items.len() % ITEM_WORDS != 0 {
        return Verdict::NoList;
    }
    let room = bytes.len();
    let count = items.len() / ITEM_WORDS;
    let mut fit = count <= MOST_COMMANDS;
    for i in 0..count {
        match item_kind(&items[ITEM_WORDS * i..], room) {
            Kind::NoItem => {
                return Verdict::NoList;
            }
            Kind::Unlisted => {
                fit = false;
            }
            Kind::Acts => {}
        }
    }
    if fit {
        return Verdict::Fit;
    }
    Verdict::Unfit
}
