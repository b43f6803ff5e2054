// Where each part of the engine lies in the lent words and in the arena: docs/LAYOUT.md in code. The definitions are in `model/specs/Layout.antt`.

// The first words: how many nodes, how long the running order, the next number to generate, the latest synth's number or 0.
#![tactic(auto)]

pub const COUNT: usize = 0;

pub const ORDER_LENGTH: usize = 1;

pub const NEXT: usize = 2;

pub const LATEST: usize = 3;

// The slots of definitions: their lengths, their resident flags.
pub const SLOTS: usize = 32;

pub const LENGTHS: usize = LATEST + 1;

pub const LENGTHS_END: usize = LENGTHS + SLOTS;

pub const RESIDENT: usize = LENGTHS_END;

pub const RESIDENT_END: usize = RESIDENT + SLOTS;

// The nodes: records in depth-first order, and the fields of a record.
pub const NODES: usize = RESIDENT_END;

pub const NODES_END: usize = NODES + NODES_WORDS;

pub const NODES_WORDS: usize = RECORD * MOST_NODES;

pub const MOST_NODES: usize = 256;

pub const RECORD: usize = 5;

pub const NUMBER: usize = 0;

pub const DEPTH: usize = 1;

pub const RUN: usize = 2;

pub const SLOT: usize = 3;

pub const ROW: usize = 4;

// A group's slot word.
pub const GROUP: u32 = 32;

// The kept running order.
pub const ORDER: usize = NODES_END;

pub const ORDER_END: usize = ORDER + MOST_ORDER;

pub const MOST_ORDER: usize = MOST_NODES - 1;

// The controls: rows of 32, two words each.
pub const CONTROLS: usize = ORDER_END;

pub const CONTROLS_END: usize = CONTROLS + ROWS * ROW_WORDS;

pub const ROWS: usize = 256;

pub const ROW_CONTROLS: usize = 32;

pub const ROW_WORDS: usize = 2 * ROW_CONTROLS;

// The buses.
pub const BUSES: usize = CONTROLS_END;

pub const BUSES_END: usize = BUSES + MOST_BUSES;

pub const MOST_BUSES: usize = 4096;

// The index of the nodes: their places by rising number.
pub const INDEX: usize = BUSES_END;

pub const INDEX_END: usize = INDEX + MOST_NODES;

// The lengths of the words and of the arena, and a slot's room in the arena.
pub const WORDS: usize = INDEX_END;

pub const ARENA: usize = SLOTS * SLOT_ROOM;

pub const SLOT_ROOM: usize = 2048;
