// A call from another language: the command that an op and its five numbers name, and an answer as one number.
#![tactic(auto)]

ghost use Rattle.std.specs.Prelude.{◌≡◌, ◌<◌, ◌+◌, ◌*◌, ◌%◌};
ghost use Rattle.calls.specs.Ops.{command_in, value_of};
ghost use Rattle.calls.specs.Numbers.{call_number, room};

use model::{
    Accepted, Answer, BusCommand, Command, ControlCommand, DefinitionCommand, Denied, Query,
    TreeCommand,
};
use values::{Key, Value, by_number};

pub mod ops;

// The answer to a call that names no command.
pub const NO_COMMAND: u64 = 255;

// A command by its op and its five numbers, of which each command takes the first that it has.
#[derive(Clone, Copy, Debug, PartialEq, Eq)]
pub struct Numbers {
    pub op: u32,
    pub a: u32,
    pub b: u32,
    pub c: u32,
    pub d: u32,
    pub e: u32,
}

// A value by its kind, 0 a float's pattern and 1 an integer; none by another kind.
// Kept: the kinds are numbers of the C interface; here they become a `Value` or none.
fn value_of(kind: u32, value: u32) -> Option<Value>
    ensures { result ≡ value_of kind value }
{
    match kind {
        0 => Some(Value::Float(value)),
        1 => Some(Value::Integer(value)),
        _ => None,
    }
}

// The command of an op with its five numbers, or none.
#[tactic(auto, unfolding(crate::specs::Ops::command_of))]
pub fn command_of(numbers: Numbers) -> Option<Command>
    ensures { result ≡ command_in numbers }
{
    let Numbers { op, a, b, c, d, e } = numbers;
    // The nodes that the first three numbers name, where they name nodes.
    let first = by_number(a);
    let second = by_number(b);
    let third = by_number(c);
    match op {
        ops::D_RECV => Some(Command::Definitions(DefinitionCommand::Receive)),
        ops::D_FREE => Some(Command::Definitions(DefinitionCommand::Free)),
        ops::S_NEW => Some(Command::Tree(TreeCommand::NewSynth {
            number: a,
            action: b,
            target: third,
        })),
        ops::G_NEW => Some(Command::Tree(TreeCommand::NewGroup {
            number: a,
            action: b,
            target: third,
        })),
        ops::N_FREE => Some(Command::Tree(TreeCommand::Free { node: first })),
        ops::G_FREE_ALL => Some(Command::Tree(TreeCommand::FreeAll { group: first })),
        ops::G_DEEP_FREE => Some(Command::Tree(TreeCommand::DeepFree { group: first })),
        ops::N_BEFORE => Some(Command::Tree(TreeCommand::Before {
            node: first,
            place: second,
        })),
        ops::N_AFTER => Some(Command::Tree(TreeCommand::After {
            node: first,
            place: second,
        })),
        ops::G_HEAD => Some(Command::Tree(TreeCommand::Head {
            group: first,
            node: second,
        })),
        ops::G_TAIL => Some(Command::Tree(TreeCommand::Tail {
            group: first,
            node: second,
        })),
        ops::N_RUN => Some(Command::Tree(TreeCommand::Run {
            node: first,
            flag: b,
        })),
        ops::N_SET => Some(Command::Controls(ControlCommand::Set {
            node: first,
            key: Key::Index(b),
            value: value_of(d, e)?,
        })),
        ops::N_SET_NAMED => Some(Command::Controls(ControlCommand::Set {
            node: first,
            key: Key::Name,
            value: value_of(d, e)?,
        })),
        ops::N_FILL => Some(Command::Controls(ControlCommand::Fill {
            node: first,
            key: Key::Index(b),
            count: c,
            value: value_of(d, e)?,
        })),
        ops::N_FILL_NAMED => Some(Command::Controls(ControlCommand::Fill {
            node: first,
            key: Key::Name,
            count: c,
            value: value_of(d, e)?,
        })),
        ops::N_MAP => Some(Command::Controls(ControlCommand::Map {
            node: first,
            key: Key::Index(b),
            bus: c,
        })),
        ops::N_MAP_NAMED => Some(Command::Controls(ControlCommand::Map {
            node: first,
            key: Key::Name,
            bus: c,
        })),
        ops::C_SET => Some(Command::Buses(BusCommand::Set {
            bus: a,
            value: value_of(d, e)?,
        })),
        ops::C_FILL => Some(Command::Buses(BusCommand::Fill {
            start: a,
            count: c,
            value: value_of(d, e)?,
        })),
        ops::S_GET => Some(Command::Query(Query::Control {
            node: first,
            key: Key::Index(b),
        })),
        ops::S_GET_NAMED => Some(Command::Query(Query::Control {
            node: first,
            key: Key::Name,
        })),
        ops::C_GET => Some(Command::Query(Query::Bus { bus: a })),
        ops::N_QUERY => Some(Command::Query(Query::Node { node: first })),
        ops::G_QUERY_TREE => Some(Command::Query(Query::Tree {
            group: first,
            flag: b,
        })),
        ops::STATUS => Some(Command::Query(Query::Status)),
        ops::EXPORT => Some(Command::Query(Query::Export)),
        _ => None,
    }
}

// A refusal's number with a place.
fn placed(number: u32, place: usize) -> u64
    requires { number < 256 }
    ensures { result ≡ number + 256 * (place % room) }
{
    number as u64 + 256 * (place as u64 % 72057594037927936)
}

// An answer as one number.
// Kept: one number for C, whose layout the definition gives; `From` would not name it.
pub fn call_number(answer: Answer) -> u64
    ensures { result ≡ call_number answer }
{
    match answer {
        Ok(Accepted::Done) => 0,
        Ok(Accepted::Replied(n)) => placed(0, n),
        Err(Denied::Refused(refusal)) => u64::from(u32::from(refusal)),
        Err(Denied::RefusedAt(fault, place)) => placed(u32::from(fault), place),
    }
}
