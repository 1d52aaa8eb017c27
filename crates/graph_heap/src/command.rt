//! The commands of a mutator, and the replies to them.

/// How many cells a plain object has at most.
pub const PLAIN_CELLS: u32 = 252;

/// How many cells an array has at most.
pub const ARRAY_CELLS: u32 = 4_000_000;

/// The shape of an object: how many cells of each kind it has.
#[derive(Clone, Copy, Debug, PartialEq, Eq)]
pub enum Shape {
    /// Reference cells and word cells, together at most 252.
    Plain { refs: u32, words: u32 },
    /// An array of this many reference cells, at most 4000000.
    RefArray(u32),
    /// An array of this many word cells, at most 4000000.
    WordArray(u32),
}

/// A command of a mutator. The fields `dst`, `obj`, `src`, `expect`, `a` and `b` are slots of that mutator, as is `new`
/// of `CompareStore` and `CompareStatic`. `k` is a static. `i` counts from 0 the cells of the command's kind.
#[derive(Clone, Copy, Debug, PartialEq, Eq)]
pub enum Command {
    /// Makes an object, with null references and zero words, and puts it into slot dst.
    New {
        dst: u32,
        shape: Shape,
    },
    /// Loads a reference cell into slot dst.
    Load {
        dst: u32,
        obj: u32,
        i: u32,
    },
    /// Stores the reference in slot src into a reference cell.
    Store {
        obj: u32,
        i: u32,
        src: u32,
    },
    /// Stores the reference in slot new into a reference cell, if that cell holds the same as slot expect.
    CompareStore {
        obj: u32,
        i: u32,
        expect: u32,
        new: u32,
    },
    /// Reads a word cell.
    Get {
        obj: u32,
        i: u32,
    },
    /// Writes a word cell.
    Put {
        obj: u32,
        i: u32,
        word: u64,
    },
    /// Writes a word cell, if it holds old.
    ComparePut {
        obj: u32,
        i: u32,
        old: u64,
        new: u64,
    },
    /// Copies slot src into slot dst.
    Copy {
        dst: u32,
        src: u32,
    },
    /// Sets slot dst to null.
    Clear {
        dst: u32,
    },
    /// Loads static k into slot dst.
    LoadStatic {
        dst: u32,
        k: u32,
    },
    /// Stores the reference in slot src into static k.
    StoreStatic {
        k: u32,
        src: u32,
    },
    /// Stores the reference in slot new into static k, if that static holds the same as slot expect.
    CompareStatic {
        k: u32,
        expect: u32,
        new: u32,
    },
    /// Compares two slots: whether they hold the same identity, or both null.
    Same {
        a: u32,
        b: u32,
    },
    /// Returns the identity and the shape of slot a's object.
    Describe {
        a: u32,
    },
    /// Makes the mutator live.
    Join,
    /// Sets each slot of the mutator to null; the mutator is then no longer live.
    Leave,
}

/// Hands a command to the function of `$on` that does it, with the heap, the mutator and the fields of the command.
/// `make`, which does New, also gets `$room`, if it is given.
#[macro_export]
macro_rules! dispatch {
    ($on:ident, $heap:expr, $mutator:expr, $command:expr $(, $room:expr)?) => {
        match $command {
            $crate::Command::New { dst, shape } => $on::make($heap, $mutator, dst, shape $(, $room)?),
            $crate::Command::Load { dst, obj, i } => $on::load($heap, $mutator, dst, obj, i),
            $crate::Command::Store { obj, i, src } => $on::store($heap, $mutator, obj, i, src),
            $crate::Command::CompareStore { obj, i, expect, new } => {
                $on::compare_store($heap, $mutator, obj, i, expect, new)
            }
            $crate::Command::Get { obj, i } => $on::get($heap, $mutator, obj, i),
            $crate::Command::Put { obj, i, word } => $on::put($heap, $mutator, obj, i, word),
            $crate::Command::ComparePut { obj, i, old, new } => {
                $on::compare_put($heap, $mutator, obj, i, old, new)
            }
            $crate::Command::Copy { dst, src } => $on::copy($heap, $mutator, dst, src),
            $crate::Command::Clear { dst } => $on::clear($heap, $mutator, dst),
            $crate::Command::LoadStatic { dst, k } => $on::load_static($heap, $mutator, dst, k),
            $crate::Command::StoreStatic { k, src } => $on::store_static($heap, $mutator, k, src),
            $crate::Command::CompareStatic { k, expect, new } => {
                $on::compare_static($heap, $mutator, k, expect, new)
            }
            $crate::Command::Same { a, b } => $on::same($heap, $mutator, a, b),
            $crate::Command::Describe { a } => $on::describe($heap, $mutator, a),
            $crate::Command::Join => $on::join($heap, $mutator),
            $crate::Command::Leave => $on::leave($heap, $mutator),
        }
    };
}

impl Command {
    ghost use Rattle.std.specs.Prelude.{◌≡◌};
    ghost use Rattle.graph_heap.specs.Effect as effect;

    /// Returns whether the command is Join, which alone is for a mutator that isn't live.
    pub fn is_join(&self) -> bool
        ensures { result ≡ effect.is_join self.now }
    {
        match *self {
            Command::Join => true,
            _ => false,
        }
    }
}

/// Why a command was refused. A refusal leaves the heap as it was.
#[derive(Clone, Copy, Debug, PartialEq, Eq)]
pub enum Refusal {
    /// The mutator isn't below `mutators`, or a named slot isn't below `slots`.
    BadSlot,
    /// The slot that names the object holds null.
    NullSlot,
    /// The object has no cell of that kind at that index.
    BadIndex,
    /// A reference command on an array of words, or a word command on an array of references.
    WrongKind,
    /// The shape has more cells than an object may have.
    TooLarge,
    /// The next identity is over the configured limit.
    IdentitiesSpent,
    /// There is no room for the object.
    NoSpace,
    /// The named static isn't below `statics`.
    BadStatic,
    /// The mutator isn't live, and the command isn't Join.
    NotLive,
    /// The mutator is live, and the command is Join.
    AlreadyLive,
}

impl Refusal {
    ghost use Rattle.std.specs.Prelude.{◌≡◌};
    ghost use Rattle.graph_heap.specs.Refusal.{refusal_number};

    /// Returns the number by which replies and histories name the refusal.
    pub fn number(self) -> u8
        ensures { result ≡ refusal_number self }
    {
        match self {
            Refusal::BadSlot => 1,
            Refusal::NullSlot => 2,
            Refusal::BadIndex => 3,
            Refusal::WrongKind => 4,
            Refusal::TooLarge => 5,
            Refusal::IdentitiesSpent => 6,
            Refusal::NoSpace => 7,
            Refusal::BadStatic => 8,
            Refusal::NotLive => 14,
            Refusal::AlreadyLive => 15,
        }
    }
}

/// The reply to a command. In place of an identity, 0 is null.
#[derive(Clone, Copy, Debug, PartialEq, Eq)]
pub enum Reply {
    /// The identity of the new object.
    Made(u64),
    /// The identity that was loaded.
    Ref(u64),
    /// The word that was read.
    Word(u64),
    Done,
    /// The comparison held, and the cell was written.
    Stored,
    /// The comparison failed: the identity that the cell holds.
    Kept(u64),
    /// The comparison failed: the word that the cell holds.
    KeptWord(u64),
    Is(bool),
    /// An identity and its shape.
    Described(u64, Shape),
    Refused(Refusal),
}

/// An entry of a history: a command, its mutator, and its reply.
#[derive(Clone, Copy, Debug, PartialEq, Eq)]
pub struct Entry {
    pub mutator: u32,
    pub command: Command,
    pub reply: Reply,
}

/// The limits of a heap: mutators, slots of each, statics, and the greatest identity; and how many mutators are live at
/// first.
#[derive(Clone, Copy, Debug, PartialEq, Eq)]
pub struct Limits {
    pub mutators: u32,
    pub slots: u32,
    pub statics: u32,
    pub identities: u64,
    pub live: u32,
}

/// The change of a command. Roots are numbered in one row: the slots of mutator 0, of mutator 1 and so on, and then the
/// statics.
#[derive(Clone, Copy, Debug, PartialEq, Eq)]
pub enum Change {
    Nothing,
    /// A root gets an identity.
    Root { cell: usize, id: u64 },
    /// A reference cell of an object gets an identity.
    Ref { id: u64, i: u32, value: u64 },
    /// A word cell of an object gets a word.
    Word { id: u64, i: u32, value: u64 },
    /// An object is made, and a root gets its identity.
    New { cell: usize, id: u64, shape: Shape },
    /// A mutator becomes live.
    Join { mutator: u32 },
    /// All slots of a mutator get null, and it is no longer live.
    Leave { mutator: u32 },
}
