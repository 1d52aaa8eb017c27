//! How quanta started.
ghost use Rattle.std.specs.Prelude.{◌≡◌};
ghost use Rattle.trace.specs.Starts.{name_of};

use heap_model::phase::Phase;

/// The phase of a collector, without its progress.
#[derive(Clone, Copy, Debug, PartialEq, Eq)]
pub enum PhaseName {
    Idle,
    Roots,
    Marking,
    Sweeping,
    Moving,
}

impl PhaseName {
    /// Returns the name of a phase.
    pub fn of(phase: Phase) -> PhaseName
        ensures { result ≡ name_of phase }
    {
        match phase {
            Phase::Idle => PhaseName::Idle,
            Phase::Roots { .. } => PhaseName::Roots,
            Phase::Marking { .. } => PhaseName::Marking,
            Phase::Sweeping { .. } => PhaseName::Sweeping,
            Phase::Moving(_) => PhaseName::Moving,
        }
    }
}

/// The start of a quantum that took ticks.
#[derive(Clone, Copy, Debug, PartialEq, Eq)]
pub struct QuantumStart {
    /// The phase of the collector at the start.
    pub phase: PhaseName,
    /// Whether it is the first one that took ticks since a cycle began.
    pub opens_cycle: bool,
    /// How many pages were free.
    pub free_pages: usize,
}
