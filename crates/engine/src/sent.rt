// A message on any words, any arena and any reply buffer: the state check, and then the step of the command that it stands for.
ghost use Rattle.messages.specs.Sent.{Sends};

use messageread::read;
use model::{Answer, Denied};
use refusals::Refusal;
use statecheck::well_formed;
use steps::step;

// A message in any state at all: refusal 1 where the state is not well formed, then 26 or 27 where it is no command, and otherwise its command's
// step.
pub fn message(message: &[u8], words: &mut [u32], arena: &mut [u8], reply: &mut [u8]) -> Answer
    ensures { Sends message.now words.old arena.old reply.old result words.new arena.new reply.new }
{
    let received = read(message);
    if !well_formed(words, arena) {
        return Err(Denied::Refused(Refusal::BadState));
    }
    let sent = received?;
    step(
        sent.command,
        &message[sent.start..sent.end],
        words,
        arena,
        reply,
    )
}
