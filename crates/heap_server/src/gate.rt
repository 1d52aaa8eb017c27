//! The gate of a play.

/// A gate that each worker of a play passes, before each of its commands or budgets and after the last. A gate may hold
/// it there.
pub trait Gate {
    /// The worker of this number comes by and has done this many of its commands or budgets. The worker of
    /// script m has number m, and the collector's the number of scripts.
    fn pass(&self, worker: u32, made: u64);
}

/// A gate that lets all through at once.
#[derive(Clone, Copy, Debug, Default, PartialEq, Eq)]
pub struct OpenGate;

impl Gate for OpenGate {
    fn pass(&self, _worker: u32, _made: u64) {}
}
