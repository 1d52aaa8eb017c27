//! The faults of a line, and of an input.
ghost use Rattle.std.specs.Prelude.{◌≡◌};
ghost use Rattle.trace.specs.declared.fault.PlayFault.TheVariants as faults;

use crate::WriteFailed;
use graph_heap::NoMemory;
use thiserror::Error;

/// The fault of a line of a trace, of a history or of scripts.
#[derive(Clone, Copy, Debug, PartialEq, Eq, Error)]
pub enum LineFault {
    /// It has more than 256 bytes.
    #[error("line too long")]
    TooLong,
    /// The input ends in it, before its LF.
    #[error("line not ended")]
    NotEnded,
    /// It isn't a line of a trace.
    #[error("not an event")]
    NotAnEvent,
    /// It isn't a command of a script.
    #[error("not a command")]
    NotACommand,
    /// Its mutator isn't below the number of mutators.
    #[error("no such mutator")]
    NoSuchMutator,
    /// It isn't an entry of a history.
    #[error("not an entry")]
    NotAnEntry,
    /// Its ticks would pass the clock's limit.
    #[error("clock spent")]
    ClockSpent,
}

/// Why the lines of an input were not all done. The lines before the fault stay done.
#[derive(Clone, Copy, Debug, PartialEq, Eq, Error)]
pub enum PlayFault {
    /// A line, by its number from 1, has this fault.
    #[error("line {0}: {1}")]
    Line(u64, LineFault),
    /// A read failed.
    #[error("cannot read")]
    Read,
    /// A write failed. The last command is done, and a beginning of its line is written.
    #[error("cannot write")]
    Write,
    /// Memory was refused for the next line.
    #[error("no memory")]
    NoMemory,
}

impl From<NoMemory> for PlayFault {
    ghost from_gives = { λ why fault. fault ≡ faults.NoMemory };

    fn from(_why: NoMemory) -> PlayFault {
        PlayFault::NoMemory
    }
}

impl From<WriteFailed> for PlayFault {
    ghost from_gives = { λ why fault. fault ≡ faults.Write };

    fn from(_why: WriteFailed) -> PlayFault {
        PlayFault::Write
    }
}
