// The rows of controls that a table's synths have, and the lowest that is free.
ghost use Rattle.std.specs.Prelude.{◌≡◌, true, false, ℕ, ◌+◌, ◌*◌, ◌≤◌, ◌<◌, ◌++◌, length, take, drop, get_or, unwrap_or};
ghost use Rattle.words.specs.Choice.{pick, either};
ghost use Rattle.nodes.specs.Table.{width, node_from, rows};
ghost use Rattle.nodes.specs.Sizes.{TableFits};
ghost use Rattle.nodes.specs.Place.{is_group};
ghost use Rattle.nodes.specs.Formed.{most_rows, row_taken, free_row};

use layout::{GROUP, RECORD, ROW, ROWS, SLOT};
use words::wide;

// The row of the synth at a place; a group has none.
fn row_at(nodes: &[u32], at: usize) -> Option<usize>
    requires { width * at + width ≤ length nodes.now }
    ensures { (none : ℕ) → unwrap_or result none ≡ pick (is_group (node_from nodes.now (width * at))) none (node_from nodes.now (width * at)).row }
{
    if nodes[RECORD * at + SLOT] == GROUP {
        None
    } else {
        Some(wide(nodes[RECORD * at + ROW]))
    }
}

// A mark at each row that a synth of the records from `from` up to `to` has, beside the marks that are there.
fn mark_rows(marks: &mut [bool], nodes: &[u32], from: usize, to: usize)
    requires { (length marks.old ≡ most_rows) × ((from ≤ to) × TableFits nodes.now to) }
    ensures { (length marks.new ≡ most_rows) × ((k : ℕ) → k < most_rows → get_or marks.new k false ≡ either (get_or marks.old k false) (row_taken k (drop from (rows to nodes.now)))) }
{
    for i in from..to {
        if let Some(row) = row_at(nodes, i) {
            if row < ROWS {
                marks[row] = true;
            }
        }
    }
}

// A mark at each row that a synth has, of the records before `from` and those from `to` on.
fn taken_rows(nodes: &[u32], count: usize, from: usize, to: usize) -> [bool; ROWS]
    requires { (from ≤ to) × ((to ≤ count) × TableFits nodes.now count) }
    ensures { (k : ℕ) → k < most_rows → get_or result k false ≡ row_taken k (take from (rows count nodes.now) ++ drop to (rows count nodes.now)) }
{
    let mut marks = [false; ROWS];
    mark_rows(&mut marks, nodes, 0, from);
    mark_rows(&mut marks, nodes, to, count);
    marks
}

// How many rows there are, as a word.
const MOST: u32 = ROWS as u32;

// The first row from one up to another that has no mark, or the end.
fn first_free(marks: &[bool; ROWS], from: u32, to: u32) -> u32
    requires { (from ≤ to) × (to ≤ most_rows) }
    ensures { (from ≤ result) × ((result ≤ to) × (((k : ℕ) → k < result → from ≤ k → get_or marks.now k false ≡ true) × (result < to → get_or marks.now result false ≡ false))) }
{
    for row in from..to {
        if !marks[wide(row)] {
            return row;
        }
    }
    to
}

// The lowest row that no synth has, of the records before `from` and those from `to` on, or 256.
// Kept: the definition `free_row` answers 256 where every row is taken.
pub fn free_row_without(nodes: &[u32], count: usize, from: usize, to: usize) -> u32
    requires { (from ≤ to) × ((to ≤ count) × TableFits nodes.now count) }
    ensures { result ≡ free_row (take from (rows count nodes.now) ++ drop to (rows count nodes.now)) }
{
    let marks = taken_rows(nodes, count, from, to);
    // With few nodes a free row is among the first so many, and the compiler looks at single marks there.
    if count < ROWS {
        let most = count as u32;
        let few = first_free(&marks, 0, most);
        if few < most {
            return few;
        }
        return first_free(&marks, few, MOST);
    }
    first_free(&marks, 0, MOST)
}

// The lowest row that no synth has, or 256.
pub fn free_row(nodes: &[u32], count: usize) -> u32
    requires { TableFits nodes.now count }
    ensures { result ≡ free_row (rows count nodes.now) }
{
    free_row_without(nodes, count, 0, 0)
}
