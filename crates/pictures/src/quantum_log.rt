//! The quanta of a run that found a cycle running.
ghost use Rattle.std.specs.Prelude.{◌≡◌, List, ◌++◌, ◌∷◌, []};
ghost use Rattle.trace.specs.Observing.{IsMark};
ghost use Rattle.trace.specs.Steps.{Step, IsQuantum};
ghost use Rattle.pictures.specs.Quanta.{quantum_of, HasQuanta};

use crate::sample::Phases;
use machine::Recorded;
use std::alloc::Global;
use trace::Mark;

/// A quantum that found a cycle running.
#[derive(Clone, Copy, Debug, PartialEq, Eq)]
pub struct Quantum {
    /// After how many commands it was.
    pub commands: u64,
    /// The units that it spent.
    pub units: u64,
    /// The units that it might spend.
    pub budget: u64,
    /// The phase that it found.
    pub phase: Phases,
}

/// The quanta of a run so far that found a cycle running, unless memory was refused for one.
#[derive(Drop)]
pub(crate) struct QuantumLog {
    pub items: Vec<Quantum>,
    pub is_refused: bool,
}

/// Returns the quantum of this budget that led to a heap, before which the collector was at this mark.
fn quantum_between(before: &Mark, budget: u32, recorded: &Recorded) -> Quantum
    ensures { (s : Step) → IsQuantum budget s → IsMark s.before.heap before.now → s.after ≡ recorded.now.course
        → result ≡ quantum_of s }
{
    Quantum {
        commands: recorded.history().len() as u64,
        units: recorded.heap().units().saturating_sub(before.units),
        budget: u64::from(budget),
        phase: Phases::of(before.phase),
    }
}

impl QuantumLog {
    /// Makes the log before the first quantum.
    pub(crate) fn new(alloc: Global) -> QuantumLog
        ensures { HasQuanta [] result }
    {
        QuantumLog {
            items: Vec::new(alloc),
            is_refused: false,
        }
    }

    /// Adds a quantum of this budget, before which the collector was at this mark, unless the collector was idle.
    pub(crate) fn quantum(&mut self, before: &Mark, budget: u32, recorded: &Recorded)
        ensures { (steps : List Step) (s : Step) → HasQuanta steps self.old → IsQuantum budget s
            → IsMark s.before.heap before.now → s.after ≡ recorded.now.course
            → HasQuanta (steps ++ s ∷ []) self.new }
    {
        if before.phase.is_idle() {
            return;
        }
        match self.items.push(quantum_between(before, budget, recorded)) {
            Ok(()) => {}
            Err(_) => self.is_refused = true,
        }
    }
}
