// What stands at a place of the table.
ghost use Rattle.std.specs.Prelude.{not, ◌≡◌, ◌<◌};
ghost use Rattle.nodes.specs.Place.{is_group};
ghost use Rattle.model.specs.Layout.{count_in, record_in};
ghost use Rattle.treecommands.specs.Ready.{Ready};

use names::node_is_group;

// Whether the node at a place is a synth.
pub fn is_synth(words: &[u32], at: usize) -> bool
    requires { Ready words.now × (at < count_in words.now) }
    ensures { result ≡ not (is_group (record_in words.now at)) }
{
    !node_is_group(words, at)
}
