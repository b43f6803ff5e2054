// The store of saved settings: whether its bytes are formed, and what a save, a recall and a drop do to them.
#![tactic(auto)]

mod drop;
mod find;
mod formed;
mod measuring;
mod open;
mod put;
mod tags;
mod walk;

pub use drop::drop_version;
pub use find::version_place;
pub use formed::store_formed;
pub use measuring::measure;
pub use open::open_version;
pub use put::put_head;

// What is known of a name before a save: the length of the store's contents with a new version that has no settings, how many versions stand
// under the name, and the highest ever given, 0 where there was none.
#[derive(Clone, Copy, Debug, PartialEq, Eq)]
pub struct NameMeasure {
    pub length: usize,
    pub versions: usize,
    pub highest: u32,
}
