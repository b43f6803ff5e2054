// One item of a list, read where it lies: the words from its first on.
ghost use Rattle.std.specs.Prelude.{◌≡◌, ◌≤◌, length};
ghost use Rattle.lists.specs.Lent.{item_words, item_in, parsed, zeros, is_laid, of_parsed, kind_of};

use crate::Kind;
use calls::ops::RECALL;
use calls::{Numbers, command_of};
use model::Command;
use words::wide;

// Its command, or none.
pub(crate) fn command_in(item: &[u32]) -> Option<Command>
    requires { item_words ≤ length item.now }
    ensures { result ≡ parsed (item_in item.now) }
{
    command_of(Numbers {
        op: item[0],
        a: item[1],
        b: item[2],
        c: item[3],
        d: item[4],
        e: item[5],
    })
}

// Where its bytes begin.
pub(crate) fn part_start(item: &[u32]) -> usize
    requires { item_words ≤ length item.now }
    ensures { result ≡ (item_in item.now).start }
{
    wide(item[6])
}

// How many they are.
pub(crate) fn part_size(item: &[u32]) -> usize
    requires { item_words ≤ length item.now }
    ensures { result ≡ (item_in item.now).size }
{
    wide(item[7])
}

// The words that are kept for later are 0.
#[tactic(auto, unfolding(crate::specs::Lent::zeros))]
fn later_zero(item: &[u32]) -> bool
    requires { item_words ≤ length item.now }
    ensures { result ≡ zeros (item_in item.now).later }
{
    item[8] == 0 && item[9] == 0 && item[10] == 0 && item[11] == 0
}

// And its part lies within so many bytes.
fn is_laid(item: &[u32], room: usize) -> bool
    requires { item_words ≤ length item.now }
    ensures { result ≡ is_laid room (item_in item.now) }
{
    let start = part_start(item);
    later_zero(item) && start <= room && part_size(item) <= room - start
}

// A command that replies is one that a list can't hold.
fn kind_of(command: Option<Command>) -> Kind
    ensures { result ≡ of_parsed command }
{
    match command {
        Some(Command::Query(_)) => Kind::Unlisted,
        Some(_) => Kind::Acts,
        None => Kind::NoItem,
    }
}

// What it is, beside so many bytes.
pub(crate) fn item_kind(item: &[u32], room: usize) -> Kind
    requires { item_words ≤ length item.now }
    ensures { result ≡ kind_of room (item_in item.now) }
{
    if !is_laid(item, room) {
        return Kind::NoItem;
    }
    if item[0] == RECALL {
        return Kind::Unlisted;
    }
    kind_of(command_in(item))
}
