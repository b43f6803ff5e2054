// A new node's entry put in.
// Kept: the table is a run of the lent words with its count beside it (C interface): an edit changes the count and never the run.
ghost use Rattle.std.specs.Prelude.{◌≡◌, ◌∷◌, ◌++◌, ◌+◌, ◌*◌, ◌≤◌, ◌<◌, length, take, drop, get_or};
ghost use Rattle.nodes.specs.Table.{width, rows, numbers};
ghost use Rattle.reindex.specs.Spot.{spot, Reads};

use layout::RECORD;
use words::wide;

// How many entries stand before the first whose number is higher than that of the node at a place; their numbers rise.
pub fn spot_of(nodes: &[u32], index: &[u32], count: usize, at: usize) -> usize
    requires { Reads nodes.now index.now count × (at ≤ count) }
    ensures { result ≡ spot (numbers (rows (count + 1) nodes.now)) (get_or nodes.now (width * at) 0) (take count index.now) }
{
    let number = nodes[RECORD * at];
    // Kept: `partition_point` asks for a test that can be made of any word, and a word past the table can't be looked up.
    let mut low = 0;
    let mut high = count;
    while low < high {
        let middle = low + (high - low) / 2;
        let place = wide(index[middle]);
        if number < nodes[RECORD * place] {
            high = middle;
        } else {
            low = middle + 1;
        }
    }
    low
}

// An entry put in before those from a spot on.
pub fn put_entry(index: &mut [u32], count: usize, spot: usize, place: usize)
    requires { (spot ≤ count) × ((count < length index.old) × (place ≤ 256)) }
    ensures { index.new ≡ (take spot (take count index.old) ++ place ∷ drop spot (take count index.old)) ++ drop (count + 1) index.old }
{
    index.copy_within(spot..count, spot + 1);
    index[spot] = place as u32;
}
