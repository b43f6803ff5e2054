// The row that is asked for.
ghost use Rattle.std.specs.Prelude.{◌≡◌, ◌<◌, IfSome, unwrap_or};
ghost use Rattle.model.specs.Layout.{count_in};
ghost use Rattle.names.specs.Named.{Findable};
ghost use Rattle.why.specs.Rows.{asked_place};

use layout::LATEST;
use names::place_of;
use words::MINUS_ONE;

// The place of the node that a number asks for: -1 means the latest synth, any other number its own node.
pub fn asked_place(words: &[u32], number: u32) -> Option<usize>
    requires { Findable words.now }
    ensures place { unwrap_or result (count_in words.now) ≡ asked_place number words.now }
    ensures below { IfSome result (λ at. at < count_in words.now) }
{
    let mut asked = number;
    if number == MINUS_ONE {
        asked = words[LATEST];
        if asked == 0 {
            return None;
        }
    }
    place_of(words, asked)
}
