//! The progress of a list of commands.
ghost use Rattle.std.specs.Prelude.{◌≡◌, ◌+◌, ◌<◌, ◌^◌, Some, None};
ghost use Rattle.bulk.specs.InOrder.{refusal_in};

use graph_heap::{Refusal, Reply};

/// How far a list of commands was done, counted from its first command.
#[derive(Clone, Copy, Debug, PartialEq, Eq)]
pub struct Progress {
    /// The number of commands done, before the first that was refused.
    pub done: u32,
    /// Why the next command was refused; None if all were done.
    pub refused: Option<Refusal>,
}

impl Progress {
    /// Returns the progress after all `done` commands of a list.
    #[inline(always)]
    pub(crate) fn whole(done: u32) -> Progress
        ensures { result ≡ record { done = done; refused = None } }
    {
        Progress {
            done,
            refused: None,
        }
    }

    /// Returns the progress after `done` commands of a list and a refused one.
    #[inline(always)]
    pub(crate) fn stopped(done: u32, refusal: Refusal) -> Progress
        ensures { result ≡ record { done = done; refused = Some refusal } }
    {
        Progress {
            done,
            refused: Some(refusal),
        }
    }

    /// Returns the progress of a longer list, of which `before` commands were done before this list.
    #[inline(always)]
    pub(crate) fn behind(self, before: u32) -> Progress
        requires { before + self.done < 2 ^ 32 }
        ensures { result ≡ record { done = before + self.done; refused = self.refused } }
    {
        Progress {
            done: before + self.done,
            refused: self.refused,
        }
    }
}

/// Returns the refusal, if a reply is one.
#[inline(always)]
pub(crate) fn refusal_in(reply: Reply) -> Option<Refusal>
    ensures { result ≡ refusal_in reply }
{
    match reply {
        Reply::Refused(refusal) => Some(refusal),
        _ => None,
    }
}
