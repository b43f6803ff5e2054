// A version dropped.
ghost use Rattle.model.specs.Answers.{done_or};
ghost use Rattle.settings.specs.Settings.{Drops};

use refusals::Refusal;
use store::{drop_version, store_formed};

// A drop in any store at all: nothing is asked of the engine.
pub fn drop(name: &[u8], number: u32, store: &mut [u8]) -> Result<(), Refusal>
    ensures { Drops name.now number store.old (done_or result) store.new }
{
    if !store_formed(store) {
        return Err(Refusal::StoreUnformed);
    }
    if drop_version(store, name, number) {
        Ok(())
    } else {
        Err(Refusal::NoVersion)
    }
}
