// The buses: functions on their own part of the words.
ghost use Rattle.std.specs.Prelude.{◌+◌, ◌≡◌, leb, length, set, replicate};
ghost use Rattle.words.specs.Choice.{pick};
ghost use Rattle.words.specs.Parts.{put};
ghost use Rattle.model.specs.Meaning.{is_bus, is_bus_range};

use layout::MOST_BUSES;
use words::wide;

// A bus: 0 to 4,095.
pub fn is_bus(bus: u32) -> bool
    ensures { result ≡ is_bus bus }
{
    wide(bus) < MOST_BUSES
}

// A range of buses: neither number is negative, and it ends by the last bus.
pub fn is_bus_range(start: u32, count: u32) -> bool
    ensures { result ≡ is_bus_range start count }
{
    wide(start) + wide(count) <= MOST_BUSES
}

// One bus set; past the last bus nothing changes.
pub fn set_bus(buses: &mut [u32], bus: u32, pattern: u32)
    ensures { buses.new ≡ set buses.old bus pattern }
{
    let at = wide(bus);
    if at < buses.len() {
        buses[at] = pattern;
    }
}

// A range of buses set to one float; a range that is not all there changes nothing.
pub fn fill_buses(buses: &mut [u32], start: u32, count: u32, pattern: u32)
    ensures { buses.new ≡ pick (leb (start + count) (length buses.old)) (put start count (replicate count pattern) buses.old) buses.old }
{
    let from = wide(start);
    let many = wide(count);
    if from + many <= buses.len() {
        buses[from..from + many].fill(pattern);
    }
}
