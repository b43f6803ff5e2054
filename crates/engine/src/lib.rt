// The engine: `fresh`, `apply`, which every command goes through, `message`, which takes it as bytes, and what other languages call, `engine_list`
// among them, which is `lists::list`. Nothing here asks anything of what it is lent.
#![tactic(auto)]

mod commands;
mod exports;
mod saved;
mod sent;
mod start;

pub use commands::apply;
pub use exports::{
    engine_apply, engine_arena, engine_fresh, engine_list, engine_message, engine_why,
    engine_words, message_write,
};
pub use saved::{settings_drop, settings_recall, settings_save};
pub use sent::message;
pub use start::fresh;
