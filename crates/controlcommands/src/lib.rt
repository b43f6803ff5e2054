// The commands of controls and of buses, behind the state check: each refuses by its row of the table, or changes its part of the words.
#![tactic(auto)]

mod buses;

ghost use Rattle.std.specs.Prelude.{◌<◌, false, ◌≡◌, eqb};
ghost use Rattle.words.specs.Choice.{either};
ghost use Rattle.nodes.specs.Place.{is_group};
ghost use Rattle.model.specs.declared.ControlCommand.{ControlCommand};
ghost use Rattle.model.specs.Answers.{done_or};
ghost use Rattle.model.specs.Layout.{count_in, record_in};
ghost use Rattle.words.specs.Patterns.{minus_one};
ghost use Rattle.model.specs.Meaning.{is_bus, mapping_to};
ghost use Rattle.state.specs.Known.{Known};
ghost use Rattle.controlcommands.specs.Steps.{Steps, Changed};

pub use buses::bus_step;
use controls::{
    Change, asked_by, change_all, change_node, controls_asked, is_bus, key_cover, node_definition,
};
use layout::{COUNT, NODES, NODES_END};
use model::ControlCommand;
use names::{node_is_group, node_place};
use refusals::Refusal;
use tree::subtree_end;
use values::{Key, Mapping, NodeArgument, Value, value_pattern};
use words::{MINUS_ONE, wide};

// What a command of controls asks for: a key, how many controls from it on, and what becomes of each.
#[derive(Clone, Copy)]
struct Wanted {
    key: Key,
    count: u32,
    change: Change,
}

// Refusal 21, refusal 28, or the controls of the synths below the group at a place changed.
fn change_group(
    words: &mut [u32],
    arena: &[u8],
    at: usize,
    wanted: Wanted,
    bytes: &[u8],
) -> Result<(), Refusal>
    requires { Known words.old arena.now × (at < count_in words.old) }
    ensures { Changed wanted.change wanted.key wanted.count bytes.now at words.old arena.now (done_or result) words.new }
{
    let Wanted { key, count, change } = wanted;
    controls_asked(words, arena, at, key, bytes, count)?;
    let many = wide(words[COUNT]);
    let end = subtree_end(&words[NODES..NODES_END], many, at);
    change_all(words, arena, at, end, key, bytes, count, change);
    Ok(())
}

// The same of the synth at a place: its definition is looked up once, and a negative index or count is not there.
fn change_synth(
    words: &mut [u32],
    arena: &[u8],
    at: usize,
    wanted: Wanted,
    bytes: &[u8],
) -> Result<(), Refusal>
    requires { Known words.old arena.now × (at < count_in words.old) × (is_group (record_in words.old at) ≡ false) }
    ensures { Changed wanted.change wanted.key wanted.count bytes.now at words.old arena.now (done_or result) words.new }
{
    let Wanted { key, count, change } = wanted;
    let definition = node_definition(words, arena, at);
    let cover = key_cover(definition, key, bytes);
    asked_by(definition, cover, count)?;
    change_node(words, at, cover, count, change);
    Ok(())
}

// Refusal 21, refusal 28, or the controls of the node at a place and of all below it changed.
fn change_run(
    words: &mut [u32],
    arena: &[u8],
    at: usize,
    wanted: Wanted,
    bytes: &[u8],
) -> Result<(), Refusal>
    requires { Known words.old arena.now × (at < count_in words.old) }
    ensures { Changed wanted.change wanted.key wanted.count bytes.now at words.old arena.now (done_or result) words.new }
{
    if node_is_group(words, at) {
        change_group(words, arena, at, wanted, bytes)
    } else {
        change_synth(words, arena, at, wanted, bytes)
    }
}

// /n_fill; /n_set is the same with a count of one
// Kept: no `Wanted` is handed in, since the value becomes a change only behind the node's refusals, and `Steps` speaks of the command's own fields.
fn fill_controls(
    node: NodeArgument,
    key: Key,
    count: u32,
    value: Value,
    bytes: &[u8],
    words: &mut [u32],
    arena: &[u8],
) -> Result<(), Refusal>
    requires { Known words.old arena.now }
    ensures { Steps (ControlCommand.Fill node key count value) bytes.now words.old arena.now (done_or result) words.new }
{
    let at = node_place(words, node)?;
    let pattern = value_pattern(value).ok_or(Refusal::BadValue)?;
    let wanted = Wanted {
        key,
        count,
        change: Change::Set(pattern),
    };
    change_run(words, arena, at, wanted, bytes)
}

// A control can be mapped to this: -1 or a bus.
fn can_map(bus: u32) -> bool
    ensures { result ≡ either (eqb bus minus_one) (is_bus bus) }
{
    bus == MINUS_ONE || is_bus(bus)
}

// "`/n_map` to -1 unmaps"
fn mapping_to(bus: u32) -> Mapping
    ensures { result ≡ mapping_to bus }
{
    if bus == MINUS_ONE {
        Mapping::Unmapped
    } else {
        Mapping::Bus(bus)
    }
}

// /n_map
fn map_control(
    node: NodeArgument,
    key: Key,
    bus: u32,
    bytes: &[u8],
    words: &mut [u32],
    arena: &[u8],
) -> Result<(), Refusal>
    requires { Known words.old arena.now }
    ensures { Steps (ControlCommand.Map node key bus) bytes.now words.old arena.now (done_or result) words.new }
{
    let at = node_place(words, node)?;
    if !can_map(bus) {
        return Err(Refusal::NoBus);
    }
    let wanted = Wanted {
        key,
        count: 1,
        change: Change::Map(mapping_to(bus)),
    };
    change_run(words, arena, at, wanted, bytes)
}

// A command of controls.
pub fn control_step(
    command: ControlCommand,
    bytes: &[u8],
    words: &mut [u32],
    arena: &[u8],
) -> Result<(), Refusal>
    requires { Known words.old arena.now }
    ensures { Steps command bytes.now words.old arena.now (done_or result) words.new }
{
    match command {
        ControlCommand::Set { node, key, value } => {
            fill_controls(node, key, 1, value, bytes, words, arena)
        }
        ControlCommand::Fill {
            node,
            key,
            count,
            value,
        } => fill_controls(node, key, count, value, bytes, words, arena),
        ControlCommand::Map { node, key, bus } => {
            map_control(node, key, bus, bytes, words, arena)
        }
    }
}
