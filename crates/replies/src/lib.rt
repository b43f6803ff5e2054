// Replies sent whole, or refused where they have no room.
#![tactic(auto)]

ghost use Rattle.std.specs.Prelude.{◌+◌, ◌*◌, ◌≤◌, ◌≡◌, length};
ghost use Rattle.words.specs.Parts.{over};
ghost use Rattle.model.specs.Answers.{replied_or};
ghost use Rattle.replies.specs.Words.{word_bytes};
ghost use Rattle.replies.specs.Sent.{Sends, Short, Roomy, word_message, named_message};

use osc::{padded_length, put_int, put_padded};
use refusals::Refusal;

// Words one behind the other, four bytes each.
pub fn put_words(out: &mut [u8], at: usize, words: &[u32])
    requires { at + 4 * length words.now ≤ length out.old }
    ensures { out.new ≡ over at (word_bytes words.now) out.old }
{
    for (i, word) in words.iter().enumerate() {
        put_int(out, at + 4 * i, *word);
    }
}

// A message of integers and floats, from the first byte on: of so many bytes.
#[tactic(auto, using(osc::specs::Lengths::padded_size))]
pub fn put_message(out: &mut [u8], address: &[u8], tags: &[u8], words: &[u32])
    requires { Roomy address.now tags.now words.now out.old }
    ensures { out.new ≡ over 0 (word_message address.now tags.now words.now) out.old }
{
    let start = padded_length(address.len());
    let front = start + padded_length(tags.len());
    put_padded(out, 0, address);
    put_padded(out, start, tags);
    put_words(out, front, words);
}

// A message of integers and floats: how many bytes it has.
pub fn send_words(
    out: &mut [u8],
    address: &[u8],
    tags: &[u8],
    words: &[u32],
) -> Result<usize, Refusal>
    requires { Short address.now tags.now words.now }
    ensures { Sends (word_message address.now tags.now words.now) out.old (replied_or result) out.new }
{
    let front = padded_length(address.len()) + padded_length(tags.len());
    let size = front + 4 * words.len();
    if out.len() < size {
        return Err(Refusal::NoRoom);
    }
    put_message(out, address, tags, words);
    Ok(size)
}

// A message of an integer, a string and a float: /n_set with a control's name.
pub fn send_named(out: &mut [u8], number: u32, name: &[u8], value: u32) -> Result<usize, Refusal>
    ensures { Sends (named_message number name.now value) out.old (replied_or result) out.new }
{
    let end = 20 + padded_length(name.len());
    if out.len() < end + 4 {
        return Err(Refusal::NoRoom);
    }
    put_message(out, b"/n_set", b",isf", &[number]);
    put_padded(out, 20, name);
    put_int(out, end, value);
    Ok(end + 4)
}
