//! The most that a cycle takes.
ghost use Rattle.std.specs.Prelude.{◌≡◌};
ghost use Rattle.metronome_c.specs.Limit.{limit_of, TellsLimit};

use crate::status::Status;
use size_classes::{Config, LEAST_BUDGET, Settings};

/// The units that a cycle takes at most, and the quanta of the schedule.
#[repr(C)]
#[derive(Clone, Copy, Debug, PartialEq, Eq)]
pub struct CycleLimit {
    pub units: u64,
    pub quanta: u64,
}

impl CycleLimit {
    /// Returns the limit of a configuration. Each quantum of its schedule spends all of its budget except at most 255 units.
    fn from_config(config: &Config) -> CycleLimit
        ensures { result ≡ limit_of config.now }
    {
        let spent = config.budget() - (LEAST_BUDGET - 1);
        let limit = config.cycle_limit();
        CycleLimit {
            units: limit,
            quanta: limit / u64::from(spent) + 1,
        }
    }
}

/// Stores the most that a cycle takes in a heap of these settings. It makes none.
#[unsafe(no_mangle)]
pub extern "C" fn metronome_cycle_limit(settings: &Settings, limit: &mut CycleLimit) -> u32
    ensures { TellsLimit settings.now limit.old limit.new result }
{
    match Config::check_for_library(settings) {
        Ok(config) => {
            *limit = CycleLimit::from_config(&config);
            Status::Done.number()
        }
        Err(fault) => Status::of_fault(fault).number(),
    }
}
