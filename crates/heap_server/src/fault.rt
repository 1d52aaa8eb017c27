//! Why a server refuses a call.
ghost use Rattle.std.specs.Prelude.{◌≡◌};
ghost use Rattle.heap_server.specs.declared.fault.ServerFault.TheVariants as faults;
ghost use Rattle.heap_server.specs.Seen.{fault_number};

use graph_heap::NoMemory;
use thiserror::Error;

/// Why a server refuses a call. The command isn't done.
#[derive(Clone, Copy, Debug, PartialEq, Eq, Error)]
pub enum ServerFault {
    /// Memory was refused for the entry of the history. Its number among the refusals is 9.
    #[error("no memory")]
    NoMemory,
    /// The place word had this number, and not the length of the history. Its number among the refusals is 10.
    #[error("torn at {0}")]
    Torn(u64),
}

impl ServerFault {
    /// Returns the number of the refusal.
    pub fn number(self) -> u8
        ensures { result ≡ fault_number self }
    {
        match self {
            ServerFault::NoMemory => 9,
            ServerFault::Torn(_) => 10,
        }
    }
}

impl From<NoMemory> for ServerFault {
    ghost from_gives = { λ refused fault. fault ≡ faults.NoMemory };

    fn from(_refused: NoMemory) -> ServerFault {
        ServerFault::NoMemory
    }
}
