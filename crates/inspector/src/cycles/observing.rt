//! The log of cycles as an observer of a run.
ghost use Rattle.inspector.specs.Log.{HasLogged};

use crate::cycles::log::Log;
use graph_heap::{Entry, NoMemory};
use machine::Recorded;
use sizing::in_cycle;
use trace::{Mark, Observer};

impl Observer for Log {
    ghost has_seen = { HasLogged };

    ghost may_be_refused = { Unit {0} };

    fn command_done(&mut self, _entry: &Entry) -> Result<(), NoMemory> {
        Ok(())
    }

    fn begins(&mut self, number: u64, recorded: &Recorded) -> Result<(), NoMemory> {
        if in_cycle(recorded.heap().phase()) {
            return Ok(());
        }
        self.begin_at(number, recorded)
    }

    fn quantum_done(&mut self, before: &Mark, _budget: u32, recorded: &Recorded) {
        self.quantum(before, recorded);
    }

    fn line_done(&mut self, _number: u64, _recorded: &Recorded) -> Result<(), NoMemory> {
        Ok(())
    }
}
