//! The plan of a command.
ghost use Rattle.std.specs.Prelude.{◌≡◌};
ghost use Rattle.machine.specs.Plan.{planned_reply, write_to};

use arraylets::Cell;
use graph_heap::{Refusal, Reply, Shape};

/// The plan of a command: its reply, and its one write of the heap.
#[derive(Clone, Copy, Debug, PartialEq, Eq)]
pub struct Planned {
    pub reply: Reply,
    pub write: Write,
}

impl Planned {
    /// Returns a plan with the reply `Done` and this write.
    #[inline(always)]
    pub fn done(write: Write) -> Planned
        ensures { result ≡ record { reply = Reply.Done; write = write } }
    {
        Planned {
            reply: Reply::Done,
            write,
        }
    }

    /// Returns a plan with this reply and no write.
    pub fn reply(reply: Reply) -> Planned
        ensures { result ≡ record { reply = reply; write = Write.Nothing } }
    {
        Planned {
            reply,
            write: Write::Nothing,
        }
    }
}

/// Returns the reply of a plan. A refusal is a reply too.
pub fn reply_to(planned: Result<Planned, Refusal>) -> Reply
    ensures { result ≡ planned_reply planned }
{
    match planned {
        Ok(planned) => planned.reply,
        Err(refusal) => Reply::Refused(refusal),
    }
}

/// A write of the heap. A reference is the address of a main copy plus one, or 0 for null.
#[derive(Clone, Copy, Debug, PartialEq, Eq)]
pub enum Write {
    Nothing,
    /// A root gets a reference.
    Root { cell: usize, reference: u64 },
    /// A reference cell of an object gets a reference.
    Ref { at: Cell, reference: u64 },
    /// A word cell of an object gets a word.
    Word { at: Cell, word: u64 },
    /// An object is made, and a root gets its reference.
    New { cell: usize, shape: Shape },
    /// A mutator becomes live.
    Join { mutator: u32 },
    /// All slots of a mutator get null, one after the other, and it is no longer live.
    Leave { mutator: u32 },
}

/// A place that may get a reference: a root, or a reference cell of an object.
#[derive(Clone, Copy, Debug, PartialEq, Eq)]
pub enum Target {
    Root(usize),
    Ref(Cell),
}

impl Target {
    /// Returns the write of a reference into this place.
    #[inline(always)]
    pub fn write(self, reference: u64) -> Write
        ensures { result ≡ write_to self reference }
    {
        match self {
            Target::Root(cell) => Write::Root { cell, reference },
            Target::Ref(at) => Write::Ref { at, reference },
        }
    }
}

/// A kind of cells of an object: references or words.
#[derive(Clone, Copy, Debug, PartialEq, Eq)]
pub enum Kind {
    Ref,
    Word,
}

/// Words of an object in a row: `count` of them, each in the next cell of one block, from cell `at` on.
#[derive(Clone, Copy, Debug, PartialEq, Eq)]
pub struct Run {
    pub at: Cell,
    pub count: usize,
}

/// The main copy of an object.
#[derive(Clone, Copy, Debug, PartialEq, Eq)]
pub struct Found {
    pub block: usize,
    pub id: u64,
    pub shape: Shape,
}
