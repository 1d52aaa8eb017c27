//! How a run ends, with its exit status.
ghost use Rattle.std.specs.Prelude.{◌≡◌};
ghost use Rattle.trace.specs.declared.fault.PlayFault.TheVariants as texts;
ghost use Rattle.program.specs.declared.fault.RunFault.TheVariants as faults;
ghost use Rattle.program.specs.Faults.{of_settings};
ghost use Rattle.program.specs.Status.{ending_status, fault_status};

use documents::ReadFault;
use graph_heap::NoMemory;
use size_classes::ConfigFault;
use thiserror::Error;
use trace::{PlayFault, WriteFailed};

/// The end of a run that meets no fault.
#[derive(Clone, Copy, Debug, PartialEq, Eq)]
pub enum Ending {
    /// All was done.
    Done,
    /// The history has a wrong reply, and the program wrote where.
    WrongReply,
}

impl Ending {
    /// Returns the exit status.
    pub fn status(self) -> u8
        ensures { result ≡ ending_status self }
    {
        match self {
            Ending::Done => 0,
            Ending::WrongReply => 7,
        }
    }
}

/// Why a run failed. All that it wrote before the fault stands.
#[derive(Debug, Drop, Error)]
pub enum RunFault {
    /// The words of the command line are refused.
    #[error("{0}")]
    Words(String),
    /// The configuration is refused.
    #[error("config: {0}")]
    Config(ConfigFault),
    /// A line is wrong; a file can't be opened, or a read failed; a write failed; or memory was refused.
    #[error("{0}")]
    Text(PlayFault),
    /// A script, or the collector's budgets, ended early. The history was written.
    #[error("run not complete")]
    NotComplete,
}

impl RunFault {
    /// Returns the exit status.
    pub fn status(&self) -> u8
        ensures { result ≡ fault_status self.now }
    {
        match self {
            RunFault::Words(_) => 2,
            RunFault::Config(_) => 3,
            RunFault::Text(PlayFault::Line(..)) => 4,
            RunFault::Text(PlayFault::Read | PlayFault::Write) => 5,
            RunFault::Text(PlayFault::NoMemory) => 6,
            RunFault::NotComplete => 8,
        }
    }
}

impl From<NoMemory> for RunFault {
    ghost from_gives = { λ why fault. fault ≡ faults.Text texts.NoMemory };

    fn from(_refused: NoMemory) -> RunFault {
        RunFault::Text(PlayFault::NoMemory)
    }
}

impl From<ReadFault<ConfigFault>> for RunFault {
    ghost from_gives = { λ why fault. fault ≡ of_settings why };

    fn from(fault: ReadFault<ConfigFault>) -> RunFault {
        match fault {
            ReadFault::Refused(why) => RunFault::Config(why),
            ReadFault::NoMemory => RunFault::Text(PlayFault::NoMemory),
        }
    }
}

impl From<PlayFault> for RunFault {
    ghost from_gives = { λ why fault. fault ≡ faults.Text why };

    fn from(fault: PlayFault) -> RunFault {
        RunFault::Text(fault)
    }
}

impl From<WriteFailed> for RunFault {
    ghost from_gives = { λ why fault. fault ≡ faults.Text texts.Write };

    fn from(_failed: WriteFailed) -> RunFault {
        RunFault::Text(PlayFault::Write)
    }
}
