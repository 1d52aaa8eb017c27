//! The measurements of a run.
ghost use Rattle.std.specs.Prelude.{◌≤◌, IfSome};
ghost use Rattle.std.proofs.Props.{props};
ghost use Rattle.size_classes.specs.declared.config.TheConstants.{LEAST_BUDGET};

use crate::needed::Needed;
use size_classes::Config;
use space::Pace;

/// The measurements of a run: its need in blocks and pages, the least pace to which it keeps, and the least budget of a
/// quantum.
#[derive(Clone, Copy, Debug, PartialEq, Eq)]
pub struct Measured {
    /// None if some number is more than can be stated.
    pub needed: Option<Needed>,
    /// None if some class needed more blocks than a pace can state.
    pub pace: Option<Pace>,
    /// The least budget of a quantum, in units. None if no quantum was done.
    pub budget: Option<u32>,
    ghost budget_in_range: { IfSome budget (λ least. LEAST_BUDGET ≤ least) } by { Prim.hlevel props },
}

impl Measured {
    ghost use Rattle.std.specs.Prelude.{◌≡◌};
    ghost use Rattle.size_classes.specs.declared.config.TheConstants.{MOST_BUDGET};
    ghost use Rattle.sizing.specs.Measured.{least_units, HasUnits};

    /// Returns the least units of any quantum of the run and of a configuration's schedule.
    fn units(&self, config: &Config) -> u32
        ensures units { result ≡ least_units config.now self.now.budget }
        ensures within { (LEAST_BUDGET ≤ result) × (result ≤ MOST_BUDGET) }
    {
        match self.budget {
            Some(least) => least.min(config.budget()),
            None => config.budget(),
        }
    }

    /// Returns a configuration that differs from the given one only in its schedule: a quantum has the least units of
    /// any quantum of the run, or the given schedule's if these are fewer.
    pub fn slowest(&self, config: &Config) -> Config
        ensures { HasUnits config.now (least_units config.now self.now.budget) result }
    {
        Config {
            pages: config.pages,
            mutators: config.mutators,
            slots: config.slots,
            statics: config.statics,
            identities: config.identities,
            defrag_below: config.defrag_below,
            defrag_pages: config.defrag_pages,
            collector_ticks: 1,
            mutator_ticks: config.mutator_ticks,
            rate: self.units(config),
            live: config.live,
        }
    }
}
