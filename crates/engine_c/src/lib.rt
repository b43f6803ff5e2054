// What Rust and C call: slices as a pointer and a length, integers and floats as their 32-bit patterns. Each is the function of `engine` of its name,
// and promises what that promises.
#![tactic(auto)]

ghost use Rattle.std.specs.Prelude.{◌≡◌};
ghost use Rattle.values.specs.Targets.{argument};
ghost use Rattle.model.specs.Layout.{words_length, arena_length};
ghost use Rattle.calls.specs.Ops.{command_of};
ghost use Rattle.why.specs.Held.{why_told};
ghost use Rattle.why.specs.Numbers.{told_number};
ghost use Rattle.engine.specs.Calls.{Made, Called, Sent, Listed, is_written, Wrote, Stored, Recalled, Dropped};

// The length of the words.
#[unsafe(no_mangle)]
pub extern "C" fn engine_words() -> u64
    ensures { result ≡ words_length }
{
    engine::engine_words()
}

// The length of the arena in bytes.
#[unsafe(no_mangle)]
pub extern "C" fn engine_arena() -> u64
    ensures { result ≡ arena_length }
{
    engine::engine_arena()
}

// A fresh engine: 0, or the refusal's number.
#[unsafe(no_mangle)]
pub extern "C" fn engine_fresh(words: &mut [u32], arena: &mut [u8]) -> u32
    ensures { Made words.old arena.old result words.new arena.new }
{
    engine::engine_fresh(words, arena)
}

// One call: the command of `op` with its numbers, on what is lent.
#[unsafe(no_mangle)]
pub extern "C" fn engine_apply(
    op: u32,
    a: u32,
    b: u32,
    c: u32,
    d: u32,
    e: u32,
    bytes: &[u8],
    words: &mut [u32],
    arena: &mut [u8],
    reply: &mut [u8],
) -> u64
    ensures { Called (command_of op a b c d e) bytes.now words.old arena.old reply.old result words.new arena.new reply.new }
{
    engine::engine_apply(op, a, b, c, d, e, bytes, words, arena, reply)
}

// One call: a message, on what is lent.
#[unsafe(no_mangle)]
pub extern "C" fn engine_message(
    sent: &[u8],
    words: &mut [u32],
    arena: &mut [u8],
    reply: &mut [u8],
) -> u64
    ensures { Sent sent.now words.old arena.old reply.old result words.new arena.new reply.new }
{
    engine::engine_message(sent, words, arena, reply)
}

// One call: a list of commands, on what is lent. `NO_COMMAND` where it is no list.
#[unsafe(no_mangle)]
pub extern "C" fn engine_list(
    items: &[u32],
    bytes: &[u8],
    words: &mut [u32],
    arena: &mut [u8],
) -> u64
    ensures { Listed items.now bytes.now words.old arena.old result words.new arena.new }
{
    engine::engine_list(items, bytes, words, arena)
}

// Why the node that a number names is silent, or where it runs.
#[unsafe(no_mangle)]
pub extern "C" fn engine_why(number: u32, words: &[u32], arena: &[u8]) -> u64
    ensures { result ≡ told_number (why_told number words.now arena.now) }
{
    engine::engine_why(number, words, arena)
}

// The command of `op` with its numbers as a message in the lent buffer.
#[unsafe(no_mangle)]
pub extern "C" fn message_write(
    op: u32,
    a: u32,
    b: u32,
    c: u32,
    d: u32,
    e: u32,
    bytes: &[u8],
    out: &mut [u8],
) -> u64
    ensures { Wrote (is_written op (command_of op a b c d e)) (record { numbers = record { op = op; a = a; b = b; c = c; d = d; e = e }; bytes = bytes.now }) out.old result out.new }
{
    engine::message_write(op, a, b, c, d, e, bytes, out)
}

// The settings of a synth saved under its definition's name: 256 times the new version, or the refusal's number.
#[unsafe(no_mangle)]
pub extern "C" fn settings_save(node: u32, words: &[u32], arena: &[u8], store: &mut [u8]) -> u64
    ensures { Stored (argument node) words.now arena.now store.old result store.new }
{
    engine::settings_save(node, words, arena, store)
}

// A version of a definition name recalled into a synth: 0, or the refusal's number.
#[unsafe(no_mangle)]
pub extern "C" fn settings_recall(
    name: &[u8],
    version: u32,
    node: u32,
    store: &[u8],
    words: &mut [u32],
    arena: &[u8],
) -> u32
    ensures { Recalled name.now version (argument node) store.now words.old arena.now result words.new }
{
    engine::settings_recall(name, version, node, store, words, arena)
}

// A version of a definition name dropped: 0, or the refusal's number.
#[unsafe(no_mangle)]
pub extern "C" fn settings_drop(name: &[u8], version: u32, store: &mut [u8]) -> u32
    ensures { Dropped name.now version store.old result store.new }
{
    engine::settings_drop(name, version, store)
}
