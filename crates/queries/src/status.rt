// /status
ghost use Rattle.std.specs.Prelude.{◌+◌, ◌*◌, ◌-◌, ◌≤◌, ◌<◌, ◌≡◌};
ghost use Rattle.model.specs.declared.Query.TheVariants as query;
ghost use Rattle.nodes.specs.Place.{group_slot};
ghost use Rattle.nodes.specs.Formed.{most_nodes};
ghost use Rattle.model.specs.Answers.{replied_or};
ghost use Rattle.model.specs.Layout.{count_in, nodes_in};
ghost use Rattle.model.specs.Replies.{unit_count};
ghost use Rattle.state.specs.Known.{Known};
ghost use Rattle.state.specs.Does.{Reply};
ghost use Rattle.queries.specs.Status.{view_from};
ghost use Rattle.queries.specs.Tally.{slot_tally, slot_words, counted_at, Slotted, Tallied, PartsTallied, Tallies, Summed};

use controls::node_slot;
use layout::{COUNT, LENGTHS, RESIDENT_END, SLOTS};
use refusals::Refusal;
use replies::send_words;
use slots::{resident_count, slot_bytes};
use words::wide;

// A count for each slot and, behind them, one for the groups.
const COUNTS: usize = SLOTS + 1;

// Units over live synths, and how many groups there are, the root among them.
#[derive(Clone, Copy)]
struct Sums {
    units: usize,
    groups: u32,
}

// The counts of four parts of the table. Each part has its own, since neighbours often hold one slot and a count would wait for the one before it.
#[derive(Clone, Copy)]
struct PartCounts {
    first: [u32; COUNTS],
    second: [u32; COUNTS],
    third: [u32; COUNTS],
    fourth: [u32; COUNTS],
}

impl PartCounts {
    // A slot's count over the four parts.
    fn total(&self, slot: usize) -> u32
        requires { (slot < slot_words) × (counted_at self.now slot ≤ most_nodes) }
        ensures { result ≡ counted_at self.now slot }
    {
        self.first[slot] + self.second[slot] + self.third[slot] + self.fourth[slot]
    }
}

// Counts one node more from a place on, where so many are counted.
fn tally(words: &[u32], from: usize, counted: usize, counts: &mut [u32; COUNTS])
    requires { Slotted words.now × (from + counted < count_in words.now) × Tallied words.now from counted counts.old }
    ensures { Tallied words.now from (counted + 1) counts.new }
{
    let slot = node_slot(words, from + counted);
    counts[slot] += 1;
}

// Counts the nodes by their slots' words in four parts of the table at once.
fn tally_parts(words: &[u32], part: usize, counts: &mut PartCounts)
    requires { Slotted words.now × (4 * part ≤ count_in words.now) × PartsTallied words.now part 0 counts.old }
    ensures { PartsTallied words.now part part counts.new }
{
    for i in 0..part {
        tally(words, 0, i, &mut counts.first);
        tally(words, part, i, &mut counts.second);
        tally(words, 2 * part, i, &mut counts.third);
        tally(words, 3 * part, i, &mut counts.fourth);
    }
}

// Counts the nodes from a place on to the last, where the first of them, so many, are counted.
fn tally_rest(words: &[u32], from: usize, counted: usize, counts: &mut [u32; COUNTS])
    requires { Slotted words.now × (from + counted ≤ count_in words.now) × Tallied words.now from counted counts.old }
    ensures { Tallied words.now from (count_in words.now - from) counts.new }
{
    let count = wide(words[COUNT]);
    for i in counted..count - from {
        tally(words, from, i, counts);
    }
}

// Units over so many synths: each slot that a synth holds is looked up once, up to the last one that is held.
fn units_held(words: &[u32], arena: &[u8], synths: u32, counts: &PartCounts) -> usize
    requires { Known words.now arena.now × Tallies words.now counts.now × Summed words.now arena.now 0 synths 0 }
    ensures { result ≡ unit_count (view_from words.now arena.now 0) }
{
    let mut left = synths;
    let mut units: usize = 0;
    for k in 0..SLOTS {
        let many = counts.total(k);
        if many != 0 {
            units += wide(many) * wide(readable::units(slot_bytes(words, arena, k)));
            left -= many;
            if left == 0 {
                return units;
            }
        }
    }
    units
}

// The nodes counted by their slots' words, and the units of each slot's synths summed.
fn totals(words: &[u32], arena: &[u8]) -> Sums
    requires { Known words.now arena.now }
    ensures { (result.units ≡ unit_count (view_from words.now arena.now 0)) × (result.groups ≡ slot_tally group_slot (nodes_in words.now)) }
{
    let part = wide(words[COUNT]) / 4;
    let mut counts = PartCounts {
        first: [0; COUNTS],
        second: [0; COUNTS],
        third: [0; COUNTS],
        fourth: [0; COUNTS],
    };
    tally_parts(words, part, &mut counts);
    tally_rest(words, 3 * part, part, &mut counts.fourth);
    let groups = counts.total(SLOTS);
    Sums {
        units: units_held(words, arena, words[COUNT] - groups, &counts),
        groups,
    }
}

// Units over live synths, synths, groups with the root, residents, as /status.reply.
pub fn status_query(
    words: &[u32],
    arena: &[u8],
    bytes: &[u8],
    out: &mut [u8],
) -> Result<usize, Refusal>
    requires { Known words.now arena.now }
    ensures { Reply query.Status bytes.now words.now arena.now out.old (replied_or result) out.new }
{
    let told = totals(words, arena);
    let synths = words[COUNT] - told.groups;
    let names = resident_count(&words[LENGTHS..RESIDENT_END]);
    let arguments = [(told.units % 4294967296) as u32, synths, told.groups, names];
    send_words(out, b"/status.reply", b",iiii", &arguments)
}
