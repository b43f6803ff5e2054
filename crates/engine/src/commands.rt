// A command on any words, any arena and any reply buffer: the state check, and then the step of its kind.
ghost use Rattle.model.specs.Apply.{Does};

use model::{Answer, Command, Denied};
use refusals::Refusal;
use statecheck::well_formed;
use steps::step;

// A command in any state at all: refusal 1 where the state is not well formed, and otherwise its step.
pub fn apply(
    command: Command,
    bytes: &[u8],
    words: &mut [u32],
    arena: &mut [u8],
    reply: &mut [u8],
) -> Answer
    ensures { Does command bytes.now words.old arena.old reply.old result words.new arena.new reply.new }
{
    if !well_formed(words, arena) {
        return Err(Denied::Refused(Refusal::BadState));
    }
    step(command, bytes, words, arena, reply)
}
