// The parts of a message, written one behind the other into a buffer that has room for them.
// Kept: what is written goes from a place of the lent run on; each part as a slice of its own would be cut and joined at every call.
ghost use Rattle.std.specs.Prelude.{ℕ, List, ◌∷◌, ◌≡◌};
ghost use Rattle.osc.specs.Message.{padded, tags, arguments, message};
ghost use Rattle.words.specs.Parts.{over};
ghost use Rattle.messages.specs.Rows.{slots_of, address_of};
ghost use Rattle.messages.specs.Table.{give_all};
ghost use Rattle.messagewrite.specs.Codes.{given};
ghost use Rattle.messagewrite.specs.Pieces.{AddressRoom, TagsRoom, TagStringRoom, ArgumentsRoom, MessageRoom};

use crate::slot::{argument_size, argument_tag, put_argument, slot};
use calls::Numbers;
use messages::{address_length, address_middle, address_start, address_third};
use osc::{padded_length, put_byte, put_int, put_zeros};

// The address and the zeros that end it: two words, a third where it has eight bytes, and zeros behind twelve.
fn put_address(out: &mut [u8], op: u32, size: usize)
    requires { AddressRoom op size out.old }
    ensures { out.new ≡ over 0 (padded (address_of op)) out.old }
{
    put_int(out, 0, address_start(op));
    put_int(out, 4, address_middle(op));
    if size < 8 {
        return;
    }
    put_int(out, 8, address_third(op));
    if size < 12 {
        return;
    }
    put_int(out, 12, 0);
}

fn put_tags(out: &mut [u8], at: usize, numbers: Numbers, count: usize)
    requires { TagsRoom at numbers.op count out.old }
    ensures { (bytes : List ℕ) → out.new ≡ over at (tags (give_all (slots_of numbers.op) (given numbers bytes))) out.old }
{
    let op = numbers.op;
    for k in 0..count {
        put_byte(out, at + k, argument_tag(numbers, slot(op, k)));
    }
}

// The comma, the tags, and the zeros that end them.
fn put_tag_string(out: &mut [u8], at: usize, numbers: Numbers, count: usize)
    requires { TagStringRoom at numbers.op count out.old }
    ensures { (bytes : List ℕ) → out.new ≡ over at (padded (44 ∷ tags (give_all (slots_of numbers.op) (given numbers bytes)))) out.old }
{
    put_byte(out, at, b',');
    put_tags(out, at + 1, numbers, count);
    put_zeros(out, at + 1 + count, 4 - (count + 1) % 4);
}

fn put_arguments(out: &mut [u8], start: usize, numbers: Numbers, bytes: &[u8], count: usize)
    requires { ArgumentsRoom start numbers.op count bytes.now out.old }
    ensures { out.new ≡ over start (arguments (give_all (slots_of numbers.op) (given numbers bytes.now))) out.old }
{
    let op = numbers.op;
    let mut at = start;
    for k in 0..count {
        let slot = slot(op, k);
        let more = argument_size(slot, bytes.len(), out.len() - at).unwrap();
        put_argument(out, at, numbers, slot, bytes);
        at += more;
    }
}

pub(crate) fn put_message(out: &mut [u8], numbers: Numbers, bytes: &[u8], count: usize)
    requires { MessageRoom numbers.op count bytes.now out.old }
    ensures { out.new ≡ over 0 (message (address_of numbers.op) (give_all (slots_of numbers.op) (given numbers bytes.now))) out.old }
{
    let op = numbers.op;
    let size = address_length(op);
    let start = padded_length(size);
    let front = start + padded_length(count + 1);
    put_address(out, op, size);
    put_tag_string(out, start, numbers, count);
    put_arguments(out, front, numbers, bytes, count);
}
