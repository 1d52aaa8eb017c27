//! The log of cycles, as a survey of a run.
ghost use Rattle.inspector.specs.Taking.{TellsCycles};

use crate::cycles::cycle::Cycles;
use crate::cycles::log::Log;
use graph_heap::NoMemory;
use size_classes::Config;
use std::alloc::Global;
use trace::{Player, Survey};

/// It finds the cycles of the run, with the figures of each.
impl Survey for Log {
    type Findings = Cycles;

    ghost tells = { TellsCycles };

    fn start(alloc: Global, _config: &Config, _player: &Player) -> Result<Log, NoMemory> {
        Ok(Log::new(alloc))
    }

    fn finish(self, player: &Player, _lines: u64) -> Result<Cycles, NoMemory> {
        self.cycles(player.recorded().heap())
    }
}
