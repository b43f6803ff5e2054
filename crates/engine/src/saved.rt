// What Rust and C call for saved settings, through `engine_c`: a save, a recall and a drop, on what is lent. A node is named by its number.
ghost use Rattle.std.specs.Prelude.{◌≡◌};
ghost use Rattle.values.specs.Targets.{argument};
ghost use Rattle.model.specs.Answers.{done_or};
ghost use Rattle.model.specs.Demands.{refusal_in};
ghost use Rattle.engine.specs.Calls.{Stored, Recalled, Dropped};

use refusals::Refusal;
use settings::{drop, recall, save, saved_number};
use values::by_number;

// 0, or the refusal's number.
fn told(done: Result<(), Refusal>) -> u32
    ensures { result ≡ refusal_in (done_or done) }
{
    match done {
        Ok(()) => 0,
        Err(refusal) => u32::from(refusal),
    }
}

// The settings of a synth saved under its definition's name: 256 times the new version, or the refusal's number.
pub fn settings_save(node: u32, words: &[u32], arena: &[u8], store: &mut [u8]) -> u64
    ensures { Stored (argument node) words.now arena.now store.old result store.new }
{
    saved_number(save(by_number(node), words, arena, store))
}

// A version of a definition name recalled into a synth: 0, or the refusal's number.
pub fn settings_recall(
    name: &[u8],
    version: u32,
    node: u32,
    store: &[u8],
    words: &mut [u32],
    arena: &[u8],
) -> u32
    ensures { Recalled name.now version (argument node) store.now words.old arena.now result words.new }
{
    told(recall(name, version, by_number(node), store, words, arena))
}

// A version of a definition name dropped: 0, or the refusal's number.
pub fn settings_drop(name: &[u8], version: u32, store: &mut [u8]) -> u32
    ensures { Dropped name.now version store.old result store.new }
{
    told(drop(name, version, store))
}
