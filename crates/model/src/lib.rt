// The values that travel: commands and answers. What they mean stands in specs/.
#![tactic(auto)]

ghost use Rattle.std.specs.Prelude.{◌≡◌};
ghost use Rattle.model.specs.declared.Denied.TheVariants.{Refused, RefusedAt};

use faults::{Fault, FileError};
use refusals::Refusal;
use values::{Key, NodeArgument, Value};

// Of the definitions; the file or the name is in the bytes lent beside the command.
#[derive(Clone, Copy)]
pub enum DefinitionCommand {
    // /d_recv
    Receive,
    // /d_free
    Free,
}

// Of the tree. Numbers are the 32-bit patterns of signed ones.
#[derive(Clone, Copy)]
pub enum TreeCommand {
    // /s_new; the definition's name is in the bytes.
    NewSynth {
        number: u32,
        action: u32,
        target: NodeArgument,
    },
    // /g_new
    NewGroup {
        number: u32,
        action: u32,
        target: NodeArgument,
    },
    // /n_free
    Free {
        node: NodeArgument,
    },
    // /g_freeAll
    FreeAll {
        group: NodeArgument,
    },
    // /g_deepFree
    DeepFree {
        group: NodeArgument,
    },
    // /n_before
    Before {
        node: NodeArgument,
        place: NodeArgument,
    },
    // /n_after
    After {
        node: NodeArgument,
        place: NodeArgument,
    },
    // /g_head
    Head {
        group: NodeArgument,
        node: NodeArgument,
    },
    // /g_tail
    Tail {
        group: NodeArgument,
        node: NodeArgument,
    },
    // /n_run
    Run {
        node: NodeArgument,
        flag: u32,
    },
}

// Of controls; a key by name has the name in the bytes.
#[derive(Clone, Copy)]
pub enum ControlCommand {
    // /n_set
    Set {
        node: NodeArgument,
        key: Key,
        value: Value,
    },
    // /n_fill
    Fill {
        node: NodeArgument,
        key: Key,
        count: u32,
        value: Value,
    },
    // /n_map
    Map {
        node: NodeArgument,
        key: Key,
        bus: u32,
    },
}

// Of buses.
#[derive(Clone, Copy)]
pub enum BusCommand {
    // /c_set
    Set {
        bus: u32,
        value: Value,
    },
    // /c_fill
    Fill {
        start: u32,
        count: u32,
        value: Value,
    },
}

// Questions, which change nothing.
#[derive(Clone, Copy)]
pub enum Query {
    // /n_query
    Node { node: NodeArgument },
    // /s_get
    Control { node: NodeArgument, key: Key },
    // /c_get
    Bus { bus: u32 },
    // /g_queryTree
    Tree { group: NodeArgument, flag: u32 },
    // /status
    Status,
    // export
    Export,
}

#[derive(Clone, Copy)]
pub enum Command {
    Definitions(DefinitionCommand),
    Tree(TreeCommand),
    Controls(ControlCommand),
    Buses(BusCommand),
    Query(Query),
}

// What a call that is accepted answers: that it is done, or that a reply of so many bytes stands in the buffer.
#[derive(Clone, Copy, Debug, PartialEq, Eq)]
pub enum Accepted {
    Done,
    Replied(usize),
}

// Why a call is refused: by a row of the table, or by a fault of a file, at its place.
#[derive(Clone, Copy, Debug, PartialEq, Eq)]
pub enum Denied {
    Refused(Refusal),
    RefusedAt(Fault, usize),
}

pub type Answer = Result<Accepted, Denied>;

impl From<Refusal> for Denied {
    ghost from_gives = { λ refusal denied. denied ≡ Refused refusal };

    fn from(refusal: Refusal) -> Denied {
        Denied::Refused(refusal)
    }
}

impl From<FileError> for Denied {
    ghost from_gives = { λ error denied. denied ≡ RefusedAt error.0 error.1 };

    fn from(error: FileError) -> Denied {
        Denied::RefusedAt(error.0, error.1)
    }
}
