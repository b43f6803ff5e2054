// The commands of buses, behind the state check: each refuses by its row of the table, or changes the buses' part of the words.
ghost use Rattle.std.specs.Prelude.{◌≡◌, length};
ghost use Rattle.model.specs.declared.BusCommand.{BusCommand};
ghost use Rattle.model.specs.Answers.{done_or};
ghost use Rattle.model.specs.Layout.{words_length};
ghost use Rattle.controlcommands.specs.Buses.{Steps};

use controls::{fill_buses, is_bus, is_bus_range, set_bus};
use layout::{BUSES, BUSES_END};
use model::BusCommand;
use refusals::Refusal;
use values::{Value, value_pattern};

// /c_set
fn set_one(bus: u32, value: Value, words: &mut [u32]) -> Result<(), Refusal>
    requires { length words.old ≡ words_length }
    ensures { Steps (BusCommand.Set bus value) words.old (done_or result) words.new }
{
    if !is_bus(bus) {
        return Err(Refusal::NoBus);
    }
    let pattern = value_pattern(value).ok_or(Refusal::BadValue)?;
    set_bus(&mut words[BUSES..BUSES_END], bus, pattern);
    Ok(())
}

// /c_fill
fn fill_range(start: u32, count: u32, value: Value, words: &mut [u32]) -> Result<(), Refusal>
    requires { length words.old ≡ words_length }
    ensures { Steps (BusCommand.Fill start count value) words.old (done_or result) words.new }
{
    if !is_bus_range(start, count) {
        return Err(Refusal::NoBus);
    }
    let pattern = value_pattern(value).ok_or(Refusal::BadValue)?;
    fill_buses(&mut words[BUSES..BUSES_END], start, count, pattern);
    Ok(())
}

// A command of buses.
pub fn bus_step(command: BusCommand, words: &mut [u32]) -> Result<(), Refusal>
    requires { length words.old ≡ words_length }
    ensures { Steps command words.old (done_or result) words.new }
{
    match command {
        BusCommand::Set { bus, value } => set_one(bus, value, words),
        BusCommand::Fill {
            start,
            count,
            value,
        } => fill_range(start, count, value, words),
    }
}
