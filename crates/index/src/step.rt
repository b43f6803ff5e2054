// One step of a lookup. It is lent nothing, so it can see no number but the one that it is given.
ghost use Rattle.std.specs.Prelude.{◌≡◌};
ghost use Rattle.index.specs.Lookup.{found_place, compared, step};

// What a lookup knows: the number can stand only at the entries from one on and below another; or it was found, at a place.
// Kept: two ways to know; neither is a refusal, and the step of paper 02 goes from the one to the other.
#[derive(Clone, Copy)]
pub enum Known {
    Between(usize, usize),
    Found(usize),
}

// What is answered when nothing is open: the place that was found.
pub fn answer(known: Known) -> Option<usize>
    ensures { result ≡ found_place known }
{
    match known {
        Known::Between(_low, _high) => None,
        Known::Found(place) => Some(place),
    }
}

// A step at the one entry that is left: found, or no entry is left, behind it or before it.
fn compare(low: usize, high: usize, number: u32, place: usize, stored: u32) -> Known
    ensures { result ≡ compared number place stored low high }
{
    if stored == number {
        Known::Found(place)
    } else if stored < number {
        Known::Between(high, high)
    } else {
        Known::Between(low, low)
    }
}

// What is known after a step, of the number asked for, the place at the middle entry and the one number stored there.
#[tactic(auto, unfolding(crate::specs::Lookup::step))]
pub fn step(known: Known, number: u32, place: usize, stored: u32) -> Known
    ensures { result ≡ step number place stored known }
{
    match known {
        Known::Between(low, high) if low < high => {
            let entries = high - low;
            let half = entries / 2;
            if entries == 1 {
                compare(low, high, number, place, stored)
            } else if stored <= number {
                Known::Between(low + half, high)
            } else {
                Known::Between(low, high - half)
            }
        }
        _ => known,
    }
}
