//! The meter, as a survey of a run.
ghost use Rattle.sizing.specs.Measuring.{RunMeasured};

use crate::measured::Measured;
use crate::meter::Meter;
use graph_heap::NoMemory;
use size_classes::Config;
use std::alloc::Global;
use trace::{Player, Survey};

/// Finds the need of the run. The run keeps to the numbers that are returned, and to no numbers of which one is less. If
/// the configuration has the pages that it must have (`Needed::pages_in`), or the pace fits `Measured::slowest` of it, no
/// reply of this run is the refusal for lack of space. Neither is a reply of any run that needs no more.
impl Survey for Meter {
    type Findings = Measured;

    ghost tells = { RunMeasured };

    fn start(alloc: Global, config: &Config, _player: &Player) -> Result<Meter, NoMemory> {
        Meter::new(alloc, &config.limits())
    }

    fn finish(self, _player: &Player, _lines: u64) -> Result<Measured, NoMemory> {
        Ok(self.measured())
    }
}
