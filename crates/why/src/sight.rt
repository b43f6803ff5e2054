// What is seen on the way along the rows to one of them.
ghost use Rattle.std.specs.Prelude.{◌+◌};
ghost use Rattle.nodes.specs.Sizes.{TableFits};
ghost use Rattle.why.specs.Seen.{SeenBefore};

use layout::{DEPTH, GROUP, RECORD, RUN, SLOT};

// How deep a row may be with every node above it on, how many synths ran so far, and the number of the last row that had every node above it on.
#[derive(Clone, Copy)]
pub struct SeenSoFar {
    pub limit: u32,
    pub many: u32,
    pub named: u32,
}

// One row further. A row deeper than the limit has a node above it that is off, and changes nothing.
fn see_row(nodes: &[u32], i: usize, so: SeenSoFar) -> SeenSoFar
    requires { TableFits nodes.now (i + 1) × SeenBefore nodes.now i so }
    ensures { SeenBefore nodes.now (i + 1) result }
{
    let at = RECORD * i;
    let number = nodes[at];
    let depth = nodes[at + DEPTH];
    let run = nodes[at + RUN];
    let slot = nodes[at + SLOT];
    if so.limit < depth {
        return so;
    }
    if run != 1 {
        return SeenSoFar {
            limit: depth,
            named: number,
            ..so
        };
    }
    if slot == GROUP {
        return SeenSoFar {
            limit: depth + 1,
            named: number,
            ..so
        };
    }
    SeenSoFar {
        limit: depth + 1,
        many: so.many + 1,
        named: number,
    }
}

// The rows before a place, from the root on.
pub fn sight_to(nodes: &[u32], to: usize) -> SeenSoFar
    requires { TableFits nodes.now to }
    ensures { SeenBefore nodes.now to result }
{
    let mut seen = SeenSoFar {
        limit: 0,
        many: 0,
        named: 0,
    };
    for i in 0..to {
        seen = see_row(nodes, i, seen);
    }
    seen
}
