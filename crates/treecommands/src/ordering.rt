// The running order, worked out afresh and written into its region.
// Kept: the table is a run of the lent words with its count beside it (C interface): an edit changes the count and never the run.
ghost use Rattle.std.specs.Prelude.{◌≡◌, ◌≤◌, length};
ghost use Rattle.nodes.specs.Table.{rows};
ghost use Rattle.nodes.specs.Order.{order};
ghost use Rattle.nodes.specs.Formed.{most_nodes};
ghost use Rattle.model.specs.Layout.{words_length, put_order, node_words};

use layout::{NODES, NODES_END, ORDER, ORDER_END};
use order::{running_order, write_order};

// The whole order region, for the table of so many nodes, and how long the order is.
pub fn renew_order(words: &mut [u32], count: usize) -> u32
    requires { (length words.old ≡ words_length) × (count ≤ most_nodes) }
    ensures { (words.new ≡ put_order (order (rows count (node_words words.old))) words.old) × (result ≡ length (order (rows count (node_words words.old)))) }
{
    let fresh = running_order(&words[NODES..NODES_END], count);
    let many = fresh.length;
    write_order(&mut words[ORDER..ORDER_END], fresh);
    many as u32
}
