//! Plans: how many words of objects may be made in a heap of some settings while its collector works.
ghost use Rattle.std.specs.Prelude.{◌≡◌, ℕ, Option, true, false};
ghost use Rattle.paced.specs.Planning.{IsLeastPages};
ghost use Rattle.metronome_c.specs.Planning.{plan_in, Suits, SuitsSettings, flow_told, IsPlanned, TellsPlan};

use crate::status::Status;
use paced::{Plan, flow_fits, lasts, least_pages_for, moves_all, planned_for};
use size_classes::{Config, Settings};

/// A plan for live objects of at most `live_words` words. It says how many words of blocks are made at most for each quantum of
/// a budget, and in a whole cycle. It also has the fewest pages that have a plan, or 0 if none have one.
#[repr(C)]
#[derive(Clone, Copy, Debug, PartialEq, Eq)]
pub struct MetronomeFlow {
    pub live_words: u64,
    pub quantum_words: u64,
    pub cycle_words: u64,
    pub least_pages: u64,
    pub budget: u32,
}

impl MetronomeFlow {
    /// Returns the words of a plan of a configuration, or none if there is no plan. It also has the fewest pages that have a
    /// plan with room for an object of `largest` words.
    fn of_plan(config: &Config, live_words: u64, largest: u64, plan: Option<Plan>) -> MetronomeFlow
        ensures { (least : Option ℕ) × IsLeastPages config.now live_words largest least
            × (result ≡ flow_told config.now live_words least plan) }
    {
        let least = match least_pages_for(config, live_words, largest, None) {
            Some(pages) => u64::from(pages),
            None => 0,
        };
        let (quantum_words, cycle_words) = match plan {
            Some(plan) => (plan.quantum_words, plan.cycle_words),
            None => (0, 0),
        };
        MetronomeFlow {
            live_words,
            quantum_words,
            cycle_words,
            least_pages: least,
            budget: config.budget(),
        }
    }

    /// Returns whether the plan suits a configuration. Its quanta have the budget of the configuration. Each cycle moves and
    /// may empty all pages. Its flow fits, and the words of a cycle last until it has ended.
    pub(crate) fn suits(&self, config: &Config) -> bool
        ensures yes { result ≡ true → Suits config.now self.now }
        ensures no { result ≡ false → Suits config.now self.now → ⊥ }
    {
        self.budget == config.budget()
            && moves_all(config)
            && flow_fits(config, self.live_words, &self.plan(), None)
            && lasts(config, self.live_words, &self.plan(), 0)
    }

    /// Returns whether the plan suits the configuration of settings, or these have a fault.
    pub(crate) fn suits_settings(&self, settings: &Settings) -> bool
        ensures yes { result ≡ true → SuitsSettings settings.now self.now }
        ensures no { result ≡ false → SuitsSettings settings.now self.now → ⊥ }
    {
        match Config::check_for_library(settings) {
            Ok(config) => self.suits(&config),
            Err(_fault) => true,
        }
    }

    /// Returns its plan.
    pub(crate) fn plan(&self) -> Plan
        ensures { result ≡ plan_in self.now }
    {
        Plan {
            quantum_words: self.quantum_words,
            cycle_words: self.cycle_words,
        }
    }
}

/// Returns the plan that `paced` finds for a heap of a configuration (`paced::planned_for`), or None if the heap doesn't move all.
fn planned_in(config: &Config, live_words: u64, largest: u64) -> Option<Plan>
    ensures { IsPlanned config.now live_words largest result }
{
    if moves_all(config) {
        planned_for(config, live_words, largest, None)
    } else {
        None
    }
}

/// Stores the plan for a heap of these settings that leaves room for an object of `largest` words, or none if there is no such plan.
fn tell_plan(settings: &Settings, live_words: u64, largest: u64, flow: &mut MetronomeFlow) -> u32
    ensures { TellsPlan settings.now live_words largest flow.old flow.new result }
{
    let config = match Config::check_for_library(settings) {
        Ok(config) => config,
        Err(fault) => return Status::of_fault(fault).number(),
    };
    let plan = planned_in(&config, live_words, largest);
    *flow = MetronomeFlow::of_plan(&config, live_words, largest, plan);
    let status = match plan {
        Some(_) => Status::Done,
        None => Status::NoPlan,
    };
    status.number()
}

/// Stores a plan for a heap of these settings, in which live objects take at most `live_words` words of blocks whenever a cycle
/// begins. The plan has as many words for a cycle as fit, and the most for a quantum with which they last until a whole cycle has
/// ended. No heap is made. Time grows with the budget and with the plan's `least_pages`; if no number of pages has a plan, all are
/// tried.
#[unsafe(no_mangle)]
pub extern "C" fn metronome_plan(
    settings: &Settings,
    live_words: u64,
    flow: &mut MetronomeFlow,
) -> u32
    ensures { TellsPlan settings.now live_words 0 flow.old flow.new result }
{
    tell_plan(settings, live_words, 0, flow)
}

/// Stores the same of the plans that leave room for an object of `largest_words` words of blocks.
#[unsafe(no_mangle)]
pub extern "C" fn metronome_plan_for(
    settings: &Settings,
    live_words: u64,
    largest_words: u64,
    flow: &mut MetronomeFlow,
) -> u32
    ensures { TellsPlan settings.now live_words largest_words flow.old flow.new result }
{
    tell_plan(settings, live_words, largest_words, flow)
}
