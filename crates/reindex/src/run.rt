// Runs of places in the table, and where an edit of one takes a node.
ghost use Rattle.std.specs.Prelude.{◌≡◌, ◌≤◌, ◌<◌};
ghost use Rattle.reindex.specs.Follow.{gone};
ghost use Rattle.reindex.specs.Edits.{closed, swapped};

// From this place on, a new place says that the node is gone.
// Kept: `gone` of the definition `closed`, which the clauses of a pass over plain words speak of.
pub(crate) const GONE: u32 = 256;

// The places from one up to another.
#[derive(Clone, Copy)]
pub struct Run {
    pub from: u32,
    pub to: u32,
    ghost ordered: { from ≤ to },
}

impl Run {
    pub fn new(from: usize, to: usize) -> Run
        requires { (from ≤ to) × (to ≤ gone) }
        ensures { (result.from ≡ from) × (result.to ≡ to) }
    {
        Run {
            from: from as u32,
            to: to as u32,
        }
    }

    // The new place where the nodes of the run went, and so many came there.
    pub fn closed_place(self, place: u32, by: u32) -> u32
        requires { (by ≤ 1) × (place < gone) }
        ensures { result ≡ closed self.from self.to by place }
    {
        if place < self.from {
            place
        } else if place < self.to {
            GONE
        } else {
            place - (self.to - self.from) + by
        }
    }
}

// Two runs side by side: from a up to b, and on up to c.
#[derive(Clone, Copy)]
pub struct Pair {
    pub a: u32,
    pub b: u32,
    pub c: u32,
    ghost first: { a ≤ b },
    ghost second: { b ≤ c },
    ghost end: { c ≤ gone },
}

impl Pair {
    pub fn new(a: usize, b: usize, c: usize) -> Pair
        requires { (a ≤ b) × ((b ≤ c) × (c ≤ gone)) }
        ensures { (result.a ≡ a) × ((result.b ≡ b) × (result.c ≡ c)) }
    {
        Pair {
            a: a as u32,
            b: b as u32,
            c: c as u32,
        }
    }

    // The new place where the two were exchanged.
    pub fn swapped_place(self, place: u32) -> u32
        requires { place < gone }
        ensures { result ≡ swapped self.a self.b self.c place }
    {
        if place < self.a {
            place
        } else if place < self.b {
            place + (self.c - self.b)
        } else if place < self.c {
            place - (self.b - self.a)
        } else {
            place
        }
    }
}
