//! Events of a heap, as a log keeps them.
ghost use Rattle.std.specs.Prelude.{◌≡◌};
ghost use Rattle.machine.specs.Recorded.{begin_done, quantum_done};
ghost use Rattle.paced.specs.Logged.{event_of};

use graph_heap::{Command, Reply};
use heap_model::phase::Phase;
use machine::{BudgetOutOfRange, Busy, Spent};

/// An event of a heap, with its answer.
#[derive(Clone, Copy, Debug, PartialEq, Eq)]
pub enum Logged {
    Command {
        mutator: u32,
        command: Command,
        reply: Reply,
    },
    Begun,
    BeginRefused,
    Quantum {
        budget: u32,
        units: u32,
        phase: Phase,
    },
    QuantumRefused {
        budget: u32,
    },
}

impl Logged {
    /// Returns the event of a call that begins a cycle.
    #[inline(always)]
    pub fn from_begin(told: Result<(), Busy>) -> Logged
        ensures { event_of result ≡ begin_done told }
    {
        match told {
            Ok(()) => Logged::Begun,
            Err(Busy) => Logged::BeginRefused,
        }
    }

    /// Returns the event of a call that spends a quantum of a budget.
    #[inline(always)]
    pub fn from_quantum(budget: u32, told: Result<Spent, BudgetOutOfRange>) -> Logged
        ensures { event_of result ≡ quantum_done budget told }
    {
        match told {
            Ok(spent) => Logged::Quantum {
                budget,
                units: spent.units,
                phase: spent.phase,
            },
            Err(BudgetOutOfRange) => Logged::QuantumRefused { budget },
        }
    }
}
