// /s_get
ghost use Rattle.std.specs.Prelude.{[], ◌∷◌};
ghost use Rattle.osc.specs.Message.{int, float, message};
ghost use Rattle.model.specs.declared.Query.TheVariants as query;
ghost use Rattle.model.specs.Answers.{replied_or};
ghost use Rattle.model.specs.Replies.{set_address, key_argument};
ghost use Rattle.replies.specs.Sent.{Sends};
ghost use Rattle.state.specs.Known.{Known};
ghost use Rattle.state.specs.Does.{Reply};

use controls::{controls_missing, read_key};
use layout::{NODES, RECORD};
use names::{node_is_group, node_place};
use refusals::Refusal;
use replies::{send_named, send_words};
use values::{Key, NodeArgument};

// A node's number, a control's index and its value, as /n_set.
fn send_index(out: &mut [u8], number: u32, index: u32, value: u32) -> Result<usize, Refusal>
    ensures { Sends (message set_address (int number ∷ (int index ∷ (float value ∷ [])))) out.old (replied_or result) out.new }
{
    let arguments = [number, index, value];
    send_words(out, b"/n_set", b",iif", &arguments)
}

// The same with the key as it was asked.
fn send_control(
    out: &mut [u8],
    number: u32,
    key: Key,
    name: &[u8],
    value: u32,
) -> Result<usize, Refusal>
    ensures { Sends (message set_address (int number ∷ (key_argument key name.now ∷ (float value ∷ [])))) out.old (replied_or result) out.new }
{
    match key {
        Key::Index(index) => send_index(out, number, index, value),
        Key::Name => send_named(out, number, name, value),
    }
}

// A control's value, through its bus where it is mapped.
pub fn control_query(
    words: &[u32],
    arena: &[u8],
    bytes: &[u8],
    out: &mut [u8],
    node: NodeArgument,
    key: Key,
) -> Result<usize, Refusal>
    requires { Known words.now arena.now }
    ensures { Reply (query.Control node key) bytes.now words.now arena.now out.old (replied_or result) out.new }
{
    let at = node_place(words, node)?;
    if node_is_group(words, at) {
        return Err(Refusal::WrongKind);
    }
    if controls_missing(words, arena, at, key, bytes, 1) {
        return Err(Refusal::NoControl);
    }
    let value = read_key(words, arena, at, key, bytes);
    let number = words[NODES + RECORD * at];
    send_control(out, number, key, bytes, value)
}
