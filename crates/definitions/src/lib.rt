// Definition slots in the lent state: 64 words, the slots' lengths and then their resident flags, and the arena with their bytes.
#![tactic(auto)]

ghost use Rattle.std.specs.Prelude.{ℕ, ◌+◌, ◌*◌, ◌≤◌, ◌<◌, true, false, not, ◌≡◌, List, ◌++◌, length, drop, get_or, set, leb, eqb, IsTrue, ◌↔◌, EachIndex, slice_index};
ghost use Rattle.words.specs.Choice.{both, either};
ghost use Rattle.words.specs.Parts.{put};
ghost use Rattle.format.specs.Definition.{Definition};
ghost use Rattle.format.specs.Read.{got};
ghost use Rattle.format.specs.Reader.{definition_by, read_definition, size_limit, same_name, file_width};
ghost use Rattle.format.specs.Writer.{write_definition};
ghost use Rattle.format.specs.Fields.{string_at};
ghost use Rattle.model.specs.Layout.{slot_count, start_of};
ghost use Rattle.nodes.specs.declared.Node.{Node};
ghost use Rattle.nodes.specs.Table.{width, rows};
ghost use Rattle.model.specs.Checks.{names_of, staying};
ghost use Rattle.model.specs.Effects.{free_from, retired, loaded};
ghost use Rattle.slots.specs.Slots.{table_words, lengths_on, flags_on, slots_on, bytes_on, resident_on};
ghost use Rattle.definitions.specs.Holders.{HeldBy, holders};
ghost use Rattle.model.specs.Engine.{resident_of};
ghost use Rattle.model.specs.Engine as engine;
ghost use Rattle.model.specs.Formed.{flags_formed, is_whole, slots_formed, name_resident, names_apart};
ghost use Rattle.model.specs.Replies.{export_file};
ghost use Rattle.definitions.specs.Exporting.{head_of};
ghost use Rattle.definitions.specs.Checking.{formed_on};
ghost use Rattle.definitions.specs.Files.{Accepted, Placeable, definitions_on};
ghost use Rattle.definitions.specs.Loading.{Loaded, loaded_on};
ghost use Rattle.definitions.specs.Naming.{NamedBy};
ghost use Rattle.definitions.specs.Storing.{table_of};
ghost use Rattle.definitions.specs.Names.{MarkedMore, name_on, named_on};
ghost use Rattle.definitions.specs.Slots.{Formed, SlotsFit, slot_found};

use fields::{Cursor, same_long};
use files::{read_definition, width_of};
use format::{FIRST_PLACE, SIZE_LIMIT, Width};
use layout::{RECORD, SLOT, SLOTS};
use slots::{bytes_on, resident_count, start_of};
use widening::widen;
use words::{copy_run, wide};

// For each slot, whether a live synth holds it.
pub fn held_slots(nodes: &[u32], count: usize) -> [bool; SLOTS]
    requires { width * count ≤ length nodes.now }
    ensures { HeldBy result (rows count nodes.now) }
{
    let mut held: [bool; SLOTS] = [false; SLOTS];
    for i in 0..count {
        let slot = wide(nodes[RECORD * i + SLOT]);
        if slot < SLOTS {
            held[slot] = true;
        }
    }
    held
}

// The lowest slot that is neither resident nor held.
fn lowest_free(table: &[u32], held: [bool; SLOTS]) -> Option<usize>
    requires { length table.now ≡ table_words }
    ensures { (arena : List ℕ) → result ≡ slot_found (free_from 0 (slots_on table.now arena) (holders held)) }
{
    for k in 0..SLOTS {
        if table[SLOTS + k] != 1 && !held[k] {
            return Some(k);
        }
    }
    None
}

// The bytes of `from` at a place.
fn copy_in(to: &mut [u8], at: usize, from: &[u8])
    requires { at + length from.now ≤ length to.old }
    ensures { to.new ≡ put at (length from.now) from.now to.old }
{
    copy_run(&mut to[at..at + from.len()], from);
}

// The definition that was read from one place of a file to another, put into a slot in its version 2 encoding, resident.
fn place(
    table: &mut [u32],
    arena: &mut [u8],
    k: usize,
    file: &[u8],
    at: usize,
    end: usize,
    width: Width,
)
    requires { SlotsFit table.old arena.old × ((k < slot_count) × Placeable width file.now at end) }
    ensures { (d : Definition) → definition_by width file.now at ≡ got d end → (table.new ≡ set (set table.old k (length (write_definition d))) (slot_count + k) 1) × (arena.new ≡ put (start_of k) (length (write_definition d)) (write_definition d) arena.old) }
{
    let start = start_of(arena, k);
    let past = widen(arena, start, file, at, end, width);
    table[k] = (past - start) as u32;
    table[SLOTS + k] = 1;
}

// The name of a definition that starts at a place: a part of the lent bytes.
fn name_at(s: &[u8], at: usize) -> &[u8]
    requires { at + (1 + get_or s.now at 0) ≤ length s.now }
    ensures { result.now ≡ string_at s.now at }
{
    let size = s[at] as usize;
    let start = at + 1;
    let end = start + size;
    &s[start..end]
}

// The name of a resident.
fn slot_name<'a, 'b>(table: &'b [u32], arena: &'a [u8], k: usize) -> &'a [u8]
    requires { Formed table.now arena.now × (k < slot_count) × (resident_on table.now k ≡ true) }
    ensures { result.now ≡ name_on table.now arena.now k }
{
    name_at(bytes_on(table, arena, k), 0)
}

// Two names may be the same: they are as long, and end alike. It tells most names apart on the spot.
fn ends_alike(a: &[u8], b: &[u8]) -> bool
    ensures { result ≡ false → same_name a.now b.now ≡ false }
{
    a.len() == b.len() && a.last() == b.last()
}

// A slot's definition is resident under a name.
fn slot_named(table: &[u32], arena: &[u8], k: usize, name: &[u8]) -> bool
    requires { Formed table.now arena.now × (k < slot_count) }
    ensures { result ≡ named_on table.now arena.now name.now k }
{
    if table[SLOTS + k] != 1 {
        return false;
    }
    let own = slot_name(table, arena, k);
    ends_alike(own, name) && same_long(own, name)
}

// The slot of the resident of a name.
#[tactic(auto, using(crate::specs::Names::resident_turn))]
pub fn find_resident(table: &[u32], arena: &[u8], name: &[u8]) -> Option<usize>
    requires { Formed table.now arena.now }
    ensures { result ≡ slot_found (resident_of name.now (slots_on table.now arena.now)) }
{
    for k in 0..SLOTS {
        if slot_named(table, arena, k, name) {
            return Some(k);
        }
    }
    None
}

// The marks with those of residents that have a name.
fn mark_named(table: &[u32], arena: &[u8], name: &[u8], marks: [bool; SLOTS]) -> [bool; SLOTS]
    requires { Formed table.now arena.now × (length marks ≡ slot_count) }
    ensures { MarkedMore table.now arena.now name.now marks result }
{
    let mut named = marks;
    for k in 0..SLOTS {
        if slot_named(table, arena, k, name) {
            named[k] = true;
        }
    }
    named
}

// Where a definition that starts at a place of a file ends.
fn definition_end(file: &[u8], at: usize) -> usize
    ensures { (d : Definition) (next : ℕ) → definition_by (file_width file.now) file.now at ≡ got d next → result ≡ next }
{
    match read_definition(file, Cursor { at }, width_of(file)) {
        Ok(next) => next.at,
        Err(error) => error.1,
    }
}

// For each slot, whether its definition is resident under a name that is in an accepted file.
fn named_slots(table: &[u32], arena: &[u8], file: &[u8]) -> [bool; SLOTS]
    requires { Formed table.now arena.now × Accepted file.now }
    ensures { NamedBy table.now arena.now (names_of (definitions_on file.now)) result }
{
    let mut marks: [bool; SLOTS] = [false; SLOTS];
    let mut at = FIRST_PLACE;
    while at < file.len() {
        let marked = mark_named(table, arena, name_at(file, at), marks);
        marks = marked;
        at = definition_end(file, at);
    }
    marks
}

// A slot stays taken: it is held, or resident and not marked.
fn stays(flag: u32, held: bool, marked: bool) -> bool
    ensures { result ≡ either held (both (eqb flag 1) (not marked)) }
{
    held || (flag == 1 && !marked)
}

// How many slots stay taken when the marked residents are retired.
fn count_staying(table: &[u32], held: [bool; SLOTS], marks: [bool; SLOTS]) -> u32
    requires { length table.now ≡ table_words }
    ensures { (arena : List ℕ) (names : List (List ℕ)) → NamedBy table.now arena names marks → result ≡ staying 0 names (slots_on table.now arena) (holders held) }
{
    let mut n = 0;
    for k in 0..SLOTS {
        if stays(table[SLOTS + k], held[k], marks[k]) {
            n += 1;
        }
    }
    n
}

// How many slots stay taken when an accepted file's names are retired: what refusal 12 asks.
pub fn staying_count(table: &[u32], arena: &[u8], held: [bool; SLOTS], file: &[u8]) -> u32
    requires { Formed table.now arena.now × Accepted file.now }
    ensures { result ≡ staying 0 (names_of (definitions_on file.now)) (slots_on table.now arena.now) (holders held) }
{
    count_staying(table, held, named_slots(table, arena, file))
}

// The marked residents retired.
fn retire_marked(table: &mut [u32], marks: [bool; SLOTS])
    requires { length table.old ≡ table_words }
    ensures { (arena : List ℕ) (names : List (List ℕ)) → Formed table.old arena → NamedBy table.old arena names marks → table.new ≡ table_of (retired names (slots_on table.old arena)) table.old }
{
    for k in 0..SLOTS {
        if marks[k] {
            table[SLOTS + k] = 0;
        }
    }
}

// The residents whose names are in an accepted file, retired.
fn retire_named(table: &mut [u32], arena: &[u8], file: &[u8])
    requires { Formed table.old arena.now × Accepted file.now }
    ensures { table.new ≡ table_of (retired (names_of (definitions_on file.now)) (slots_on table.old arena.now)) table.old }
{
    let marks = named_slots(table, arena, file);
    retire_marked(table, marks);
}

// One resident retired.
pub fn retire(table: &mut [u32], k: usize)
    requires { (length table.old ≡ table_words) × (k < slot_count) }
    ensures { table.new ≡ set table.old (slot_count + k) 0 }
{
    table[SLOTS + k] = 0;
}

// The definitions of an accepted file in the lowest free slots, in file order.
fn place_all(table: &mut [u32], arena: &mut [u8], held: [bool; SLOTS], file: &[u8])
    requires { Formed table.old arena.old × Accepted file.now }
    ensures { Loaded table.old arena.old table.new arena.new (loaded (definitions_on file.now) (slots_on table.old arena.old) (holders held)) }
{
    let mut at = FIRST_PLACE;
    while at < file.len() {
        let next = definition_end(file, at);
        if let Some(k) = lowest_free(table, held) {
            place(table, arena, k, file, at, next, width_of(file));
        }
        at = next;
    }
}

// An accepted file loaded: residents under its names retired, then its definitions in the lowest free slots.
pub fn load(table: &mut [u32], arena: &mut [u8], held: [bool; SLOTS], file: &[u8])
    requires { Formed table.old arena.old × Accepted file.now }
    ensures { Loaded table.old arena.old table.new arena.new (loaded_on table.old arena.old held file.now) }
{
    retire_named(table, arena, file);
    place_all(table, arena, held, file);
}

// Each flag is 0 or 1.
fn flags_formed(flags: &[u32]) -> bool
    ensures { IsTrue result ↔ EachIndex flags.now (λ k. slice_index flags.now k ≤ 1) }
{
    flags.iter().all(|flag| *flag <= 1)
}

// A slot's length is at most the limit, and its bytes are one readable definition.
fn bytes_formed(table: &[u32], arena: &[u8], k: usize) -> bool
    requires { (length table.now ≡ table_words) × (k < slot_count) }
    ensures { result ≡ both (leb (get_or table.now k 0) size_limit) (is_whole (get_or table.now k 0) (read_definition (bytes_on table.now arena.now k) 0)) }
{
    let size = wide(table[k]);
    if SIZE_LIMIT < size {
        return false;
    }
    match read_definition(bytes_on(table, arena, k), Cursor { at: 0 }, Width::Long) {
        Ok(next) => next.at == size,
        Err(_) => false,
    }
}

// Of a taken slot that it holds a definition; of a free slot nothing is asked.
fn slot_formed(table: &[u32], arena: &[u8], held: bool, k: usize) -> bool
    requires { SlotsFit table.now arena.now × (k < slot_count) }
    ensures { (t : List Node) → held ≡ engine.held k t → result ≡ formed_on table.now arena.now t k }
{
    let taken = held || table[SLOTS + k] == 1;
    !taken || bytes_formed(table, arena, k)
}

// The same of each slot.
fn each_formed(table: &[u32], arena: &[u8], held: [bool; SLOTS]) -> bool
    requires { SlotsFit table.now arena.now }
    ensures { result ≡ slots_formed 0 (lengths_on table.now) (slots_on table.now arena.now) (holders held) }
{
    for k in 0..SLOTS {
        if !slot_formed(table, arena, held[k], k) {
            return false;
        }
    }
    true
}

// No slot from k on is resident under a name.
#[tactic(auto, using(crate::specs::Checking::resident_turn))]
fn name_apart(table: &[u32], arena: &[u8], name: &[u8], from: usize) -> bool
    requires { Formed table.now arena.now × (from ≤ slot_count) }
    ensures { result ≡ not (name_resident name.now (drop from (slots_on table.now arena.now))) }
{
    for k in from..SLOTS {
        if slot_named(table, arena, k, name) {
            return false;
        }
    }
    true
}

// No two residents share a name.
fn names_apart(table: &[u32], arena: &[u8]) -> bool
    requires { Formed table.now arena.now }
    ensures { result ≡ names_apart (slots_on table.now arena.now) }
{
    for k in 0..SLOTS {
        if table[SLOTS + k] == 1 && !name_apart(table, arena, slot_name(table, arena, k), k + 1) {
            return false;
        }
    }
    true
}

// The state check's part on slots.
pub fn slots_formed(table: &[u32], arena: &[u8], held: [bool; SLOTS]) -> bool
    requires { SlotsFit table.now arena.now }
    ensures { result ≡ both (flags_formed (flags_on table.now)) (both (slots_formed 0 (lengths_on table.now) (slots_on table.now arena.now) (holders held)) (names_apart (slots_on table.now arena.now))) }
{
    flags_formed(&table[SLOTS..]) && each_formed(table, arena, held) && names_apart(table, arena)
}

// The length of the export.
pub fn export_length(table: &[u32], arena: &[u8]) -> usize
    requires { Formed table.now arena.now }
    ensures { result ≡ length (export_file (slots_on table.now arena.now)) }
{
    let mut n = 10;
    for k in 0..SLOTS {
        if table[SLOTS + k] == 1 {
            n += wide(table[k]);
        }
    }
    n
}

// The head of a file of so many definitions.
fn write_head(out: &mut [u8], count: u8)
    requires { 10 ≤ length out.old }
    ensures { out.new ≡ put 0 10 (head_of count) out.old }
{
    let head: [u8; 10] = [83, 67, 103, 102, 0, 0, 0, 2, 0, count];
    copy_in(out, 0, &head);
}

// A version 2 file of all residents in slot order, from the buffer's first byte; bytes past it stay.
pub fn export(table: &[u32], arena: &[u8], out: &mut [u8])
    requires { Formed table.now arena.now × (length (export_file (slots_on table.now arena.now)) ≤ length out.old) }
    ensures { out.new ≡ export_file (slots_on table.now arena.now) ++ drop (length (export_file (slots_on table.now arena.now))) out.old }
{
    write_head(out, resident_count(table) as u8);
    let mut at = 10;
    for k in 0..SLOTS {
        if table[SLOTS + k] == 1 {
            let bytes = bytes_on(table, arena, k);
            copy_in(out, at, bytes);
            at += bytes.len();
        }
    }
}
