// The slots of definitions: the bytes of the definition in a slot, which lie in the arena where only this crate and a load know, and how many are
// resident.
#![tactic(auto)]

ghost use Rattle.std.specs.Prelude.{ℕ, ◌<◌, min, ◌≡◌, List, length, ◌==◌, count_by};
ghost use Rattle.model.specs.Layout.{slot_count, words_length, start_of};
ghost use Rattle.model.specs.Engine.{residents};
ghost use Rattle.slots.specs.Slots.{table_words, slots_on, bytes_on, slot_bytes};

use format::SIZE_LIMIT;
use layout::{LENGTHS, RESIDENT_END, SLOT_ROOM, SLOTS};
use words::wide;

// Where a slot's bytes start in the arena; the arena's end where that is past it.
// Kept: the arena's end where a slot is past it, as the definition says, so that a part of it is always a part.
pub fn start_of(arena: &[u8], slot: usize) -> usize
    ensures { result ≡ min (start_of slot) (length arena.now) }
{
    if arena.len() / SLOT_ROOM < slot {
        return arena.len();
    }
    SLOT_ROOM * slot
}

// By the table of slots, the slots' part of the words; none past the last slot.
pub fn bytes_on<'a, 'b>(table: &'b [u32], arena: &'a [u8], slot: usize) -> &'a [u8]
    ensures { result.now ≡ bytes_on table.now arena.now slot }
{
    let start = start_of(arena, slot);
    let room = SIZE_LIMIT.min(arena.len() - start);
    let size = wide(table.get(slot).copied().unwrap_or(0));
    &arena[start..start + room.min(size)]
}

// By the words.
pub fn slot_bytes<'a, 'b>(words: &'b [u32], arena: &'a [u8], slot: usize) -> &'a [u8]
    requires { (length words.now ≡ words_length) × (slot < slot_count) }
    ensures { result.now ≡ slot_bytes words.now arena.now slot }
{
    bytes_on(&words[LENGTHS..RESIDENT_END], arena, slot)
}

// How many flags are 1.
fn ones(flags: &[u32]) -> usize
    ensures { result ≡ count_by (λ x. x == 1) flags.now }
{
    flags.iter().filter(|flag| **flag == 1).count()
}

// How many definitions are resident.
pub fn resident_count(table: &[u32]) -> u32
    requires { length table.now ≡ table_words }
    ensures { (arena : List ℕ) → result ≡ length (residents (slots_on table.now arena)) }
{
    ones(&table[SLOTS..]) as u32
}
