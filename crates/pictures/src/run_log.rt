//! The log of a run while it is played.
ghost use Rattle.trace.specs.Observing.{run_from};
ghost use Rattle.pictures.specs.Data.{HasRun};

use crate::quantum_log::QuantumLog;
use crate::sampler::Sampler;
use graph_heap::{Entry, NoMemory};
use inspector::Log;
use machine::Recorded;
use std::alloc::Global;
use trace::{Mark, Observer};

/// The samples, the cycles and the quanta of a run so far.
#[derive(Drop)]
pub(crate) struct RunLog {
    pub sampler: Sampler,
    pub cycles: Log,
    pub quanta: QuantumLog,
}

impl RunLog {
    /// Makes the log before the first line, of this heap.
    pub(crate) fn new(alloc: Global, recorded: &Recorded) -> RunLog
        ensures { HasRun (run_from recorded.now.course) result }
    {
        RunLog {
            sampler: Sampler::new(alloc, recorded.heap()),
            cycles: Log::new(alloc),
            quanta: QuantumLog::new(alloc),
        }
    }
}

impl Observer for RunLog {
    ghost has_seen = { HasRun };

    ghost may_be_refused = { Unit {0} };

    fn command_done(&mut self, entry: &Entry) -> Result<(), NoMemory> {
        self.cycles.command_done(entry)
    }

    fn begins(&mut self, number: u64, recorded: &Recorded) -> Result<(), NoMemory> {
        self.cycles.begins(number, recorded)
    }

    fn quantum_done(&mut self, before: &Mark, budget: u32, recorded: &Recorded) {
        self.cycles.quantum_done(before, budget, recorded);
        self.quanta.quantum(before, budget, recorded);
    }

    fn line_done(&mut self, number: u64, recorded: &Recorded) -> Result<(), NoMemory> {
        if self.quanta.is_refused {
            return Err(NoMemory);
        }
        self.cycles.line_done(number, recorded)?;
        self.sampler.event(number, recorded.heap())
    }
}
