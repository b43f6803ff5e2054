// A fresh engine: "tests the sizes only", and writes every word and byte.
ghost use Rattle.std.specs.Prelude.{◌≡◌, length, replicate};
ghost use Rattle.model.specs.Layout.{words_length};
ghost use Rattle.model.specs.After.{fresh_state};
ghost use Rattle.model.specs.Apply.{Freshly};

use layout::{ARENA, COUNT, GROUP, NEXT, NODES, RUN, SLOT, WORDS};
use model::{Accepted, Answer, Denied};
use refusals::Refusal;
use words::zero_words;

// Every byte zero.
fn zero_bytes(arena: &mut [u8])
    ensures { arena.new ≡ replicate (length arena.old) 0 }
{
    arena.fill(0);
}

// The words of a fresh engine: one node, -8 the next number to give, the root running and a group; zeros elsewhere.
fn fresh_words(words: &mut [u32])
    requires { length words.old ≡ words_length }
    ensures { words.new ≡ fresh_state }
{
    zero_words(words);
    words[COUNT] = 1;
    words[NEXT] = 4294967288;
    words[NODES + RUN] = 1;
    words[NODES + SLOT] = GROUP;
}

// A fresh engine in the lent words and in the lent arena; refused where a size is wrong.
pub fn fresh(words: &mut [u32], arena: &mut [u8]) -> Answer
    ensures { Freshly words.old arena.old result words.new arena.new }
{
    if words.len() != WORDS {
        return Err(Denied::Refused(Refusal::BadState));
    }
    if arena.len() != ARENA {
        return Err(Denied::Refused(Refusal::BadState));
    }
    fresh_words(words);
    zero_bytes(arena);
    Ok(Accepted::Done)
}
