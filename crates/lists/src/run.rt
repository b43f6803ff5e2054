// The commands of a list, one by one: each item is read where it lies, when it is reached.
ghost use Rattle.std.specs.Prelude.{◌+◌, ◌≤◌, true, ◌≡◌, length};
ghost use Rattle.model.specs.Formed.{formed};
ghost use Rattle.lists.specs.declared.Kind.TheVariants.{Acts};
ghost use Rattle.lists.specs.declared.Verdict.TheVariants.{Fit};
ghost use Rattle.lists.specs.Lent.{item_words, item_in, kind_of, verdict};
ghost use Rattle.lists.specs.OneByOne.{Lists};
ghost use Rattle.lists.specs.Running.{Goes, Ran};

use crate::item::{command_in, part_size, part_start};
use crate::judged::judge;
use crate::{ITEM_WORDS, Outcome, Verdict};
use model::{Accepted, Answer, Denied};
use refusals::Refusal;
use statecheck::well_formed;
use steps::step;

// The command of an item, in a well-formed state: there is no room for a reply, since none of these replies.
fn item_step(item: &[u32], bytes: &[u8], words: &mut [u32], arena: &mut [u8]) -> Answer
    requires { (item_words ≤ length item.now) × ((kind_of (length bytes.now) (item_in item.now) ≡ Acts) × (formed words.old arena.old ≡ true)) }
    ensures { Goes (item_in item.now) bytes.now words.old arena.old result words.new arena.new }
{
    let start = part_start(item);
    let end = start + part_size(item);
    let mut reply = [0; 0];
    match command_in(item) {
        Some(command) => step(command, &bytes[start..end], words, arena, &mut reply),
        // No item that acts is without a command.
        None => Err(Denied::Refused(Refusal::ListUnfit)),
    }
}

// The commands of a list whose commands are tried, in a well-formed state: the answer that ends it, and how many were accepted before it.
fn run(items: &[u32], bytes: &[u8], words: &mut [u32], arena: &mut [u8]) -> (Answer, usize)
    requires { (verdict items.now bytes.now ≡ Fit) × (formed words.old arena.old ≡ true) }
    ensures { Ran items.now bytes.now words.old arena.old (Some result) words.new arena.new }
{
    let count = items.len() / ITEM_WORDS;
    for i in 0..count {
        let answer = item_step(&items[ITEM_WORDS * i..], bytes, words, arena);
        if answer.is_err() {
            return (answer, i);
        }
    }
    (Ok(Accepted::Done), count)
}

// A list in any state at all: what is none; then refusal 1 where the state is not well formed, the one state check; then 34; and otherwise its
// commands up to the first that is refused.
pub fn list(items: &[u32], bytes: &[u8], words: &mut [u32], arena: &mut [u8]) -> Outcome
    ensures { Lists items.now bytes.now words.old arena.old result words.new arena.new }
{
    match judge(items, bytes) {
        Verdict::NoList => None,
        Verdict::Unfit => {
            if !well_formed(words, arena) {
                return Some((Err(Denied::Refused(Refusal::BadState)), 0));
            }
            Some((Err(Denied::Refused(Refusal::ListUnfit)), 0))
        }
        Verdict::Fit => {
            if !well_formed(words, arena) {
                return Some((Err(Denied::Refused(Refusal::BadState)), 0));
            }
            Some(run(items, bytes, words, arena))
        }
    }
}
