// The ops: the number of each command in a call from another language. Numbers that are given never change. `specs/Ops.antt` has the same names.

// No command's.
// Kept: ops are numbers and no enum: C calls by them, and the table of messages stands at them.
pub const NONE: u32 = 0;

// Definitions.
pub const D_RECV: u32 = 1;

pub const D_FREE: u32 = 2;

// The tree of nodes.
pub const S_NEW: u32 = 3;

pub const G_NEW: u32 = 4;

pub const N_FREE: u32 = 5;

pub const G_FREE_ALL: u32 = 6;

pub const G_DEEP_FREE: u32 = 7;

pub const N_BEFORE: u32 = 8;

pub const N_AFTER: u32 = 9;

pub const G_HEAD: u32 = 10;

pub const G_TAIL: u32 = 11;

pub const N_RUN: u32 = 12;

// Controls, by index and by name.
pub const N_SET: u32 = 13;

pub const N_SET_NAMED: u32 = 14;

pub const N_FILL: u32 = 15;

pub const N_FILL_NAMED: u32 = 16;

pub const N_MAP: u32 = 17;

pub const N_MAP_NAMED: u32 = 18;

// Buses.
pub const C_SET: u32 = 19;

pub const C_FILL: u32 = 20;

// Queries, and the export, which has no address.
pub const S_GET: u32 = 21;

pub const S_GET_NAMED: u32 = 22;

pub const C_GET: u32 = 23;

pub const N_QUERY: u32 = 24;

pub const G_QUERY_TREE: u32 = 25;

pub const STATUS: u32 = 26;

pub const EXPORT: u32 = 27;

// A recall of saved settings: it takes a store beside its numbers, so that it is no command of `engine_apply`; no list holds it, and it has no
// address.
pub const RECALL: u32 = 28;

// The last op of all that have an address.
pub const LAST_WITH_ADDRESS: u32 = STATUS;
