// The running order and the rules of the state on nodes, over the node region in lent words.
#![tactic(auto)]

ghost use Rattle.std.specs.Prelude.{false, ◌≡◌, ◌+◌, ◌*◌, ◌≤◌, ◌<◌, length, take, drop};
ghost use Rattle.format.specs.Reader.{same_name};
ghost use Rattle.nodes.specs.Table.{width, rows};
ghost use Rattle.nodes.specs.Sizes.{TableFits};
ghost use Rattle.nodes.specs.Formed.{most_nodes, steps, rooted, all_formed, synth_lives};
ghost use Rattle.order.specs.Checks.{number_holds, fields_hold, nodes_hold};
ghost use Rattle.order.specs.Order.{most_order};
ghost use Rattle.order.specs.Same.{same_order};
ghost use Rattle.order.specs.Kept.{Kept};
ghost use Rattle.order.specs.Marks.{rows_hold};
ghost use Rattle.order.specs.Visits.{marks};

use layout::{DEPTH, GROUP, MOST_NODES, MOST_ORDER, NUMBER, RECORD, ROW, ROWS, RUN, SLOT};
use words::copy_run;

// The running order: its numbers, with zeros past them, and how many they are.
// Kept: memory is fixed and nothing is allocated, so the numbers are an array with its length.
#[derive(Clone, Copy)]
pub struct Order {
    pub numbers: [u32; MOST_ORDER],
    pub length: usize,
}

// The table of nodes: the words lent, and how many records it has. They hold so many, and it has at most 256.
#[derive(Clone, Copy)]
struct Table<'a> {
    nodes: &'a [u32],
    count: usize,
    ghost fits: { TableFits nodes.now count },
}

impl<'a> Table<'a> {
    ghost use Rattle.order.specs.Tables.{rows_of};

    // Marks of the nodes that a walk from the root visits: a node is visited where its parent was and it is on.
    // `limit` is how deep a record may be with its parent visited.
    fn visit(self) -> [bool; MOST_NODES]
        ensures { result ≡ marks (rows_of self.entry) }
    {
        let mut visited = [false; MOST_NODES];
        let mut limit: u32 = 0;
        for i in 0..self.count {
            let at = RECORD * i;
            let depth = self.nodes[at + DEPTH];
            if depth <= limit {
                limit = depth;
                if self.nodes[at + RUN] == 1 {
                    limit = depth + 1;
                    visited[i] = true;
                }
            }
        }
        visited
    }

    // Each synth has a row of its own among the 256.
    #[tactic(auto, using(crate::specs::Marks::along_marks))]
    fn rows_apart(self) -> bool
        ensures { result ≡ rows_hold (rows_of self.entry) }
    {
        let mut seen = [false; ROWS];
        for i in 0..self.count {
            let at = RECORD * i;
            if self.nodes[at + SLOT] != GROUP {
                let row = words::wide(self.nodes[at + ROW]);
                if ROWS <= row || seen[row] {
                    return false;
                }
                seen[row] = true;
            }
        }
        true
    }

    // Every record past the first is below the root, and none deeper than the one before it lets it be.
    #[tactic(auto, using(crate::specs::Checks::steps_turn, crate::specs::Checks::steps_end))]
    fn steps_hold(self) -> bool
        requires { 1 ≤ self.count }
        ensures { result ≡ steps 1 (drop 1 (rows_of self.entry)) }
    {
        let mut most: u32 = 1;
        for i in 1..self.count {
            let at = RECORD * i;
            let depth = self.nodes[at + DEPTH];
            if depth == 0 || most < depth {
                return false;
            }
            most = if self.nodes[at + SLOT] == GROUP {
                depth + 1
            } else {
                depth
            };
        }
        true
    }

    // A synth has the number.
    #[tactic(auto, using(crate::specs::Checks::latest_turn, crate::specs::Checks::latest_end))]
    fn synth_lives(self, number: u32) -> bool
        ensures { result ≡ synth_lives number (rows_of self.entry) }
    {
        for i in 0..self.count {
            let at = RECORD * i;
            if self.nodes[at + SLOT] != GROUP && self.nodes[at] == number {
                return true;
            }
        }
        false
    }

    // Every record's fields are in bounds.
    #[tactic(auto, using(crate::specs::Checks::fields_turn, crate::specs::Checks::fields_end))]
    fn records_hold(self, next: u32) -> bool
        ensures { result ≡ all_formed next (rows_of self.entry) }
    {
        for i in 0..self.count {
            let at = RECORD * i;
            let slot = self.nodes[at + SLOT];
            let row = self.nodes[at + ROW];
            if !number_holds(self.nodes[at], slot, next)
                || !fields_hold(self.nodes[at + RUN], slot, row)
            {
                return false;
            }
        }
        true
    }

    // The first record is the root, with all others below it.
    #[tactic(auto, using(crate::specs::Checks::rooted_turn))]
    fn root_holds(self) -> bool
        requires { 1 ≤ self.count }
        ensures { result ≡ rooted (rows_of self.entry) }
    {
        self.nodes[NUMBER] == 0
            && self.nodes[DEPTH] == 0
            && self.nodes[SLOT] == GROUP
            && self.steps_hold()
    }
}

// The running order worked out afresh: the synths that are visited, in depth-first order.
pub fn running_order(nodes: &[u32], count: usize) -> Order
    requires { TableFits nodes.now count }
    ensures { Kept (rows count nodes.now) result }
{
    let visited = Table { nodes, count }.visit();
    let mut numbers: [u32; MOST_ORDER] = [0; MOST_ORDER];
    let mut length = 0;
    for i in 0..count {
        let at = RECORD * i;
        if visited[i] && nodes[at + SLOT] != GROUP {
            if length < MOST_ORDER {
                numbers[length] = nodes[at];
            }
            length += 1;
        }
    }
    Order { numbers, length }
}

// The order region written whole.
pub fn write_order(order: &mut [u32], from: Order)
    requires { length order.old ≡ most_order }
    ensures { order.new ≡ from.numbers }
{
    copy_run(order, &from.numbers);
}

// Two runs have the same first so many numbers.
fn same_numbers(kept: &[u32], fresh: &[u32], many: usize) -> bool
    requires { (many ≤ length kept.now) × (many ≤ length fresh.now) }
    ensures { result ≡ same_name (take many kept.now) (take many fresh.now) }
{
    kept[..many] == fresh[..many]
}

// The order kept, of this length, is the one worked out afresh.
pub fn same_order(kept: &[u32], many: usize, nodes: &[u32], count: usize) -> bool
    requires { (length kept.now ≡ most_order) × TableFits nodes.now count }
    ensures { result ≡ same_order kept.now many (rows count nodes.now) }
{
    if MOST_ORDER < many {
        return false;
    }
    let fresh = running_order(nodes, count);
    many == fresh.length && same_numbers(kept, &fresh.numbers, many)
}

// A number is not negative, or was given to a synth.
fn number_holds(number: u32, slot: u32, next: u32) -> bool
    ensures { result ≡ number_holds next number slot }
{
    number < 2147483648 || (number <= 4294967288 && next < number && slot != GROUP)
}

// A run flag, a slot and a row are in bounds.
fn fields_hold(run: u32, slot: u32, row: u32) -> bool
    ensures { result ≡ fields_hold run slot row }
{
    run <= 1 && (slot == GROUP || (slot < GROUP && words::wide(row) < ROWS))
}

// The state check's part on nodes: the table of `count` records, the next number to give and the latest synth.
// That numbers differ is not tested here: the rule of the index says it too.
#[tactic(auto, using(crate::specs::Checks::by_rule))]
pub fn nodes_hold(nodes: &[u32], count: usize, next: u32, latest: u32) -> bool
    requires { length nodes.now ≡ width * most_nodes }
    ensures { result ≡ nodes_hold next latest (rows count nodes.now) }
{
    if count < 1 || MOST_NODES < count {
        return false;
    }
    let table = Table { nodes, count };
    table.root_holds()
        && table.records_hold(next)
        && table.rows_apart()
        && 2147483647 <= next
        && next <= 4294967288
        && (latest == 0 || table.synth_lives(latest))
}
