// The commands of definitions and the export, behind the state check: each refuses by its row of the table, or changes the slots or the reply buffer.
#![tactic(auto)]

ghost use Rattle.std.specs.Prelude.{ℕ, ◌-◌, ◌≡◌, List, length, ltb};
ghost use Rattle.definitions.specs.Files.{Accepted, definitions_on};
ghost use Rattle.model.specs.declared.DefinitionCommand.{DefinitionCommand};
ghost use Rattle.model.specs.declared.Query.{Query};
ghost use Rattle.model.specs.Answers.{done_or, replied_or};
ghost use Rattle.model.specs.Layout.{slot_count};
ghost use Rattle.state.specs.Known.{Known};
ghost use Rattle.state.specs.Does.{Reply};
ghost use Rattle.definitioncommands.specs.Steps.{Steps, done_with};

use definitions::{export, export_length, find_resident, held_slots, load, retire, staying_count};
use files::check_file;
use layout::{COUNT, LENGTHS, NODES, NODES_END, RESIDENT_END, SLOTS};
use model::{DefinitionCommand, Denied};
use refusals::Refusal;
use words::wide;

// "Refusal 12 is given exactly if D is more than 32 minus the slots that stay taken"
fn no_slot(staying: u32, count: u32) -> bool
    ensures { result ≡ ltb (slot_count - staying) count }
{
    SLOTS.saturating_sub(wide(staying)) < wide(count)
}

// An accepted file of so many definitions: refusal 12, or it is loaded.
fn load_file(bytes: &[u8], count: u32, words: &mut [u32], arena: &mut [u8]) -> Result<(), Refusal>
    requires { Known words.old arena.old × (Accepted bytes.now × (length (definitions_on bytes.now) ≡ count)) }
    ensures { Steps DefinitionCommand.Receive bytes.now words.old arena.old (done_or result) words.new arena.new }
{
    let held = held_slots(&words[NODES..NODES_END], wide(words[COUNT]));
    let staying = staying_count(&words[LENGTHS..RESIDENT_END], arena, held, bytes);
    if no_slot(staying, count) {
        return Err(Refusal::NoSlot);
    }
    load(&mut words[LENGTHS..RESIDENT_END], arena, held, bytes);
    Ok(())
}

// /d_recv
fn receive(bytes: &[u8], words: &mut [u32], arena: &mut [u8]) -> Result<(), Denied>
    requires { Known words.old arena.old }
    ensures { Steps DefinitionCommand.Receive bytes.now words.old arena.old (done_with result) words.new arena.new }
{
    let count = check_file(bytes)?;
    load_file(bytes, count, words, arena)?;
    Ok(())
}

// /d_free
fn free(bytes: &[u8], words: &mut [u32], arena: &[u8]) -> Result<(), Refusal>
    requires { Known words.old arena.now }
    ensures { Steps DefinitionCommand.Free bytes.now words.old arena.now (done_or result) words.new arena.now }
{
    let found = find_resident(&words[LENGTHS..RESIDENT_END], arena, bytes);
    let k = found.ok_or(Refusal::NoDefinition)?;
    retire(&mut words[LENGTHS..RESIDENT_END], k);
    Ok(())
}

// A command of definitions.
pub fn definition_step(
    command: DefinitionCommand,
    bytes: &[u8],
    words: &mut [u32],
    arena: &mut [u8],
) -> Result<(), Denied>
    requires { Known words.old arena.old }
    ensures { Steps command bytes.now words.old arena.old (done_with result) words.new arena.new }
{
    match command {
        DefinitionCommand::Receive => receive(bytes, words, arena),
        DefinitionCommand::Free => Ok(free(bytes, words, arena)?),
    }
}

// The export: a version 2 file of all residents, or refusal 24.
pub fn export_query(words: &[u32], arena: &[u8], out: &mut [u8]) -> Result<usize, Refusal>
    requires { Known words.now arena.now }
    ensures { (bytes : List ℕ) → Reply Query.Export bytes words.now arena.now out.old (replied_or result) out.new }
{
    let size = export_length(&words[LENGTHS..RESIDENT_END], arena);
    if out.len() < size {
        return Err(Refusal::NoRoom);
    }
    export(&words[LENGTHS..RESIDENT_END], arena, out);
    Ok(size)
}
