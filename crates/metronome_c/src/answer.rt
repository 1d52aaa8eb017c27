//! Replies as C sees them.
ghost use Rattle.std.specs.Prelude.{◌≡◌};
ghost use Rattle.metronome_c.specs.Answer.{answer_of, answered, refused, shape_of, shape_told};

use crate::status::Status;
use graph_heap::{Reply, Shape};

/// A reply: its kind and its number.
#[repr(C)]
#[derive(Clone, Copy, Debug, PartialEq, Eq)]
pub struct Answer {
    pub kind: u32,
    pub number: u64,
}

/// The shape of an object: its kind, and the numbers of its cells of each kind.
#[repr(C)]
#[derive(Clone, Copy, Debug, PartialEq, Eq)]
pub struct MetronomeShape {
    pub kind: u32,
    pub refs: u32,
    pub words: u32,
}

impl Answer {
    /// Returns the answer that tells a reply.
    #[inline(always)]
    fn from_reply(reply: Reply) -> Answer
        ensures { result ≡ answer_of reply }
    {
        let (kind, number) = match reply {
            Reply::Refused(refusal) => (0, u64::from(refusal.number())),
            Reply::Made(id) => (1, id),
            Reply::Ref(id) => (2, id),
            Reply::Word(word) => (3, word),
            Reply::Done => (4, 0),
            Reply::Stored => (5, 0),
            Reply::Kept(id) => (6, id),
            Reply::KeptWord(word) => (7, word),
            Reply::Is(is) => (8, u64::from(is)),
            Reply::Described(id, _) => (9, id),
        };
        Answer { kind, number }
    }

    /// Returns the answer that tells a reply, or why the handle holds no heap.
    #[inline(always)]
    pub(crate) fn from_outcome(reply: Result<Reply, Status>) -> Answer
        ensures { result ≡ answered reply }
    {
        match reply {
            Ok(reply) => Answer::from_reply(reply),
            Err(why) => Answer::refused(why),
        }
    }

    /// Returns the answer of a handle that holds no heap.
    #[cold]
    #[inline(never)]
    fn refused(why: Status) -> Answer
        ensures { result ≡ refused why }
    {
        Answer {
            kind: 0,
            number: u64::from(why.number()),
        }
    }
}

impl MetronomeShape {
    /// Returns the shape, as C sees it.
    pub(crate) fn from_shape(shape: Shape) -> MetronomeShape
        ensures { result ≡ shape_of shape }
    {
        let (kind, refs, words) = match shape {
            Shape::Plain { refs, words } => (0, refs, words),
            Shape::RefArray(refs) => (1, refs, 0),
            Shape::WordArray(words) => (2, 0, words),
        };
        MetronomeShape { kind, refs, words }
    }

    /// Returns the shape that a reply tells, or this one if there is no reply, or it tells none.
    pub(crate) fn told_by(self, reply: Result<Reply, Status>) -> MetronomeShape
        ensures { result ≡ shape_told self reply }
    {
        match reply {
            Ok(Reply::Described(_, shape)) => MetronomeShape::from_shape(shape),
            _ => self,
        }
    }
}
