//! The meter as an observer of a run.
ghost use Rattle.sizing.specs.Measuring.{HasMeasured};

use crate::meter::Meter;
use graph_heap::{Entry, NoMemory};
use machine::Recorded;
use trace::{Mark, Observer};

impl Observer for Meter {
    ghost has_seen = { HasMeasured };

    ghost may_be_refused = { Unit {0} };

    fn command_done(&mut self, entry: &Entry) -> Result<(), NoMemory> {
        self.command(entry)
    }

    fn begins(&mut self, _number: u64, _recorded: &Recorded) -> Result<(), NoMemory> {
        if self.is_cycle_running() {
            return Ok(());
        }
        self.begun()
    }

    fn quantum_done(&mut self, _before: &Mark, budget: u32, recorded: &Recorded) {
        self.quanta(budget, recorded.heap().phase());
    }

    fn line_done(&mut self, _number: u64, _recorded: &Recorded) -> Result<(), NoMemory> {
        Ok(())
    }
}
