//! The meter of live words, as a survey of a run.
ghost use Rattle.plans.specs.Live.{TellsMostLive};

use crate::live::{LiveMeter, MostLive};
use graph_heap::NoMemory;
use size_classes::Config;
use std::alloc::Global;
use trace::{Player, Survey};

/// Finds the least number of words within which the blocks of live objects stay over the run, whenever a cycle may begin.
/// Also counts the blocks of each size class that were made. `run_plans` reports plans for these words and classes. If
/// the number is 2^64 - 1 or more, it is reported as 2^64 - 1.
impl Survey for LiveMeter {
    type Findings = MostLive;

    ghost tells = { TellsMostLive };

    fn start(alloc: Global, config: &Config, _player: &Player) -> Result<LiveMeter, NoMemory> {
        LiveMeter::new(alloc, &config.limits())
    }

    fn finish(self, _player: &Player, _lines: u64) -> Result<MostLive, NoMemory> {
        Ok(self.found())
    }
}
