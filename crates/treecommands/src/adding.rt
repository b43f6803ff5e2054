// Checks on where a new node goes.
ghost use Rattle.std.specs.Prelude.{◌≡◌, ◌<◌};
ghost use Rattle.model.specs.Layout.{count_in};
ghost use Rattle.treecommands.specs.Ready.{Ready};
ghost use Rattle.treecommands.specs.Adding.{bad_at, full_at};

use crate::place::is_synth;
use layout::MOST_NODES;
use tree::{Action, Position};

// A node goes to the head or the tail of a group, and beside or over another node than the root.
pub fn bad_target(action: Action, at: usize, words: &[u32]) -> bool
    requires { Ready words.now × (at < count_in words.now) }
    ensures { result ≡ bad_at action words.now at }
{
    match action {
        Action::Put(Position::Head | Position::Tail) => is_synth(words, at),
        Action::Put(Position::Before | Position::After) | Action::Replace => at == 0,
    }
}

// "256 nodes live (never for action 4)"
pub fn is_full(action: Action, count: usize) -> bool
    ensures { result ≡ full_at action count }
{
    matches!(action, Action::Put(_)) && MOST_NODES <= count
}
