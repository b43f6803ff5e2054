// What Rust and C call, through `engine_c`, which exports each of these under its name: integers and floats as their 32-bit patterns.
ghost use Rattle.std.specs.Prelude.{◌≡◌};
ghost use Rattle.model.specs.Layout.{words_length, arena_length};
ghost use Rattle.calls.specs.Ops.{command_of};
ghost use Rattle.why.specs.Held.{why_told};
ghost use Rattle.why.specs.Numbers.{told_number};
ghost use Rattle.engine.specs.Calls.{Made, Called, Sent, Listed, is_written, Wrote};

use crate::commands::apply;
use crate::sent::message;
use crate::start::fresh;
use calls::ops::RECALL;
use calls::{NO_COMMAND, Numbers, call_number, command_of};
use layout::{ARENA, WORDS};
use lists::{list, list_number};
use messagewrite::write;
use why::{told_number, why};

// The length of the words.
pub fn engine_words() -> u64
    ensures { result ≡ words_length }
{
    WORDS as u64
}

// The length of the arena in bytes.
pub fn engine_arena() -> u64
    ensures { result ≡ arena_length }
{
    ARENA as u64
}

// A fresh engine: 0, or the refusal's number.
pub fn engine_fresh(words: &mut [u32], arena: &mut [u8]) -> u32
    ensures { Made words.old arena.old result words.new arena.new }
{
    call_number(fresh(words, arena)) as u32
}

// One call: the command of `op` with its numbers, on what is lent.
// Kept: six numbers of the C interface.
pub fn engine_apply(
    op: u32,
    a: u32,
    b: u32,
    c: u32,
    d: u32,
    e: u32,
    bytes: &[u8],
    words: &mut [u32],
    arena: &mut [u8],
    reply: &mut [u8],
) -> u64
    ensures { Called (command_of op a b c d e) bytes.now words.old arena.old reply.old result words.new arena.new reply.new }
{
    match command_of(Numbers { op, a, b, c, d, e }) {
        Some(command) => call_number(apply(command, bytes, words, arena, reply)),
        None => NO_COMMAND,
    }
}

// One call: a message, on what is lent.
pub fn engine_message(sent: &[u8], words: &mut [u32], arena: &mut [u8], reply: &mut [u8]) -> u64
    ensures { Sent sent.now words.old arena.old reply.old result words.new arena.new reply.new }
{
    call_number(message(sent, words, arena, reply))
}

// One call: a list of commands, on what is lent. `NO_COMMAND` where it is no list.
pub fn engine_list(items: &[u32], bytes: &[u8], words: &mut [u32], arena: &mut [u8]) -> u64
    ensures { Listed items.now bytes.now words.old arena.old result words.new arena.new }
{
    list_number(list(items, bytes, words, arena))
}

// Why the node that a number names is silent, or where it runs.
pub fn engine_why(number: u32, words: &[u32], arena: &[u8]) -> u64
    ensures { result ≡ told_number (why_told number words.now arena.now) }
{
    told_number(why(number, words, arena))
}

// The command of `op` with its numbers as a message in the lent buffer.
pub fn message_write(
    op: u32,
    a: u32,
    b: u32,
    c: u32,
    d: u32,
    e: u32,
    bytes: &[u8],
    out: &mut [u8],
) -> u64
    ensures { Wrote (is_written op (command_of op a b c d e)) (record { numbers = record { op = op; a = a; b = b; c = c; d = d; e = e }; bytes = bytes.now }) out.old result out.new }
{
    let numbers = Numbers { op, a, b, c, d, e };
    if op != RECALL && command_of(numbers).is_none() {
        return NO_COMMAND;
    }
    call_number(write(numbers, bytes, out))
}
