// A set of nodes taken out: the synths from one place up to another.
ghost use Rattle.std.specs.Prelude.{◌≡◌, ◌+◌, ◌*◌, ◌≤◌, length};
ghost use Rattle.nodes.specs.Table.{width, rows, node_from};
ghost use Rattle.nodes.specs.Sizes.{TableFits};
ghost use Rattle.reindex.specs.FollowWords.{Followed};
ghost use Rattle.reindex.specs.Kept.{stays, place_in, PlacesTold};

use crate::run::GONE;
use layout::{GROUP, MOST_NODES, RECORD, SLOT};
use words::wide;

// Whether the node at a place stays.
fn stays_at(nodes: &[u32], at: usize, from: usize, to: usize) -> bool
    requires { width * at + width ≤ length nodes.now }
    ensures { result ≡ stays from to at (node_from nodes.now (width * at)) }
{
    at < from || to <= at || nodes[RECORD * at + SLOT] == GROUP
}

// The new place of each node, by its place.
pub fn kept_places(nodes: &[u32], count: usize, from: usize, to: usize) -> [u32; MOST_NODES]
    requires { TableFits nodes.now count }
    ensures { PlacesTold from to (rows count nodes.now) result }
{
    let mut places = [GONE; MOST_NODES];
    let mut next: u32 = 0;
    for i in 0..count {
        if stays_at(nodes, i, from, to) {
            places[i] = next;
            next += 1;
        }
    }
    places
}

// The new place of the node that was at this place.
fn place_in(places: &[u32], place: usize) -> u32
    ensures { result ≡ place_in places.now place }
{
    if place < places.len() {
        places[place]
    } else {
        GONE
    }
}

// The entries at these places, in their order, without those of nodes that are gone; and how many are left.
pub fn follow_places(index: &mut [u32], count: usize, places: &[u32]) -> usize
    requires { count ≤ length index.old }
    ensures { Followed (place_in places.now) index.old count index.new result }
{
    let mut left = 0;
    for i in 0..count {
        let place = place_in(places, wide(index[i]));
        if place < GONE {
            index[left] = place;
            left += 1;
        }
    }
    left
}
