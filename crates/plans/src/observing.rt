//! The meter of live words as an observer of a run.
ghost use Rattle.plans.specs.LiveMeter.{HasMetered};

use crate::live::LiveMeter;
use graph_heap::{Entry, NoMemory};
use machine::Recorded;
use trace::{Mark, Observer};

impl Observer for LiveMeter {
    ghost has_seen = { HasMetered };

    ghost may_be_refused = { Unit {0} };

    fn command_done(&mut self, entry: &Entry) -> Result<(), NoMemory> {
        self.command(entry)
    }

    fn begins(&mut self, _number: u64, _recorded: &Recorded) -> Result<(), NoMemory> {
        Ok(())
    }

    fn quantum_done(&mut self, _before: &Mark, _budget: u32, _recorded: &Recorded) {}

    fn line_done(&mut self, _number: u64, _recorded: &Recorded) -> Result<(), NoMemory> {
        Ok(())
    }
}
