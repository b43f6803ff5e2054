// A command in a well-formed state: the step of its kind. What stands in front of it makes the state check.
ghost use Rattle.std.specs.Prelude.{true, ◌≡◌};
ghost use Rattle.model.specs.Formed.{formed};
ghost use Rattle.model.specs.Apply.{Does};

use crate::query::query_step;
use controlcommands::{bus_step, control_step};
use definitioncommands::definition_step;
use model::{Accepted, Answer, Command};
use newsynth::tree_step;

// A command in a well-formed state.
pub fn step(
    command: Command,
    bytes: &[u8],
    words: &mut [u32],
    arena: &mut [u8],
    reply: &mut [u8],
) -> Answer
    requires { formed words.old arena.old ≡ true }
    ensures { Does command bytes.now words.old arena.old reply.old result words.new arena.new reply.new }
{
    match command {
        Command::Definitions(of) => {
            definition_step(of, bytes, words, arena)?;
            Ok(Accepted::Done)
        }
        Command::Tree(of) => {
            tree_step(of, bytes, words, arena)?;
            Ok(Accepted::Done)
        }
        Command::Controls(of) => {
            control_step(of, bytes, words, arena)?;
            Ok(Accepted::Done)
        }
        Command::Buses(of) => {
            bus_step(of, words)?;
            Ok(Accepted::Done)
        }
        Command::Query(of) => {
            let size = query_step(of, bytes, words, arena, reply)?;
            Ok(Accepted::Replied(size))
        }
    }
}
