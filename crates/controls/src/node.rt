// The fields of a node's record, by its place in the table, and the bytes of its definition.
ghost use Rattle.std.specs.Prelude.{◌<◌, ◌≡◌, length};
ghost use Rattle.nodes.specs.Formed.{most_nodes};
ghost use Rattle.model.specs.Layout.{slot_count, words_length, record_in};
ghost use Rattle.slots.specs.Slots.{slot_bytes};

use layout::{NODES, RECORD, ROW, SLOT};
use slots::slot_bytes;
use words::wide;

// The slot of the node at a place.
pub fn node_slot(words: &[u32], place: usize) -> usize
    requires { (length words.now ≡ words_length) × (place < most_nodes) }
    ensures { result ≡ (record_in words.now place).slot }
{
    wide(words[NODES + RECORD * place + SLOT])
}

// The row of the node at a place.
pub fn node_row(words: &[u32], place: usize) -> u32
    requires { (length words.now ≡ words_length) × (place < most_nodes) }
    ensures { result ≡ (record_in words.now place).row }
{
    words[NODES + RECORD * place + ROW]
}

// The bytes of the definition of the synth at a place.
pub fn node_definition<'a, 'b>(words: &'b [u32], arena: &'a [u8], place: usize) -> &'a [u8]
    requires { (length words.now ≡ words_length) × (place < most_nodes) × ((record_in words.now place).slot < slot_count) }
    ensures { result.now ≡ slot_bytes words.now arena.now (record_in words.now place).slot }
{
    slot_bytes(words, arena, node_slot(words, place))
}
