//! How many quanta a cycle takes at most if a plan is kept.
ghost use Rattle.std.specs.Prelude.{◌≡◌, ℕ, ◌+◌, ◌*◌, ◌/◌, ◌^◌, ◌<◌, ◌≤◌, Bool};
ghost use Rattle.size_classes.specs.declared.config.TheConstants.{MOST_HEAP_PAGES};
ghost use Rattle.size_classes.specs.declared.class.TheConstants.{PAGE_WORDS};
ghost use Rattle.fragmentation.specs.declared.flow.TheConstants.{LEAST_PAGE_FILL};
ghost use Rattle.size_classes.specs.Cycle.{sweep_units};
ghost use Rattle.fragmentation.specs.Flow.{sweep_quanta, flow_moving};
ghost use Rattle.fragmentation.specs.Configured.{roots_in};
ghost use Rattle.paced.specs.declared.plan.Plan.{Plan as PlanView};
ghost use Rattle.paced.specs.Rooms.{flow_for};
ghost use Rattle.paced.specs.Planning.{quanta_on};

use crate::plan::Plan;
use fragmentation::LEAST_PAGE_FILL;
use size_classes::{CLASSES, Config, LEAST_BUDGET, MOST_BLOCKS, PAGE_WORDS};

/// Returns the words of pages.
fn arena_words(pages: u32) -> u128
    requires { pages ≤ MOST_HEAP_PAGES }
    ensures words { result ≡ PAGE_WORDS * pages }
    ensures within { result ≤ 2147483648 }
{
    u128::from(PAGE_WORDS) * u128::from(pages)
}

/// Returns the most words that the blocks of live objects have when a cycle begins. They may take all words of whole pages, and
/// of one more.
fn live_most(live_words: u64) -> u128
    ensures words { result ≡ PAGE_WORDS * (live_words / LEAST_PAGE_FILL + 1) }
    ensures within { result < 2 ^ 100 }
{
    u128::from(PAGE_WORDS) * (u128::from(live_words / LEAST_PAGE_FILL) + 1)
}

/// Returns the units that roots, marking and sweeping spend at most on a number of pages, if marking spends `marking` units.
fn sweep_units(config: &Config, pages: u32, marking: u128) -> u128
    requires pages { pages ≤ MOST_HEAP_PAGES }
    requires marking { marking < 2 ^ 101 }
    ensures units { result ≡ sweep_units (roots_in config.now) pages marking }
    ensures within { result ≤ marking + 537950000 }
{
    let roots = u128::from(config.root_cells());
    let looks = u128::from(MOST_BLOCKS + 1) * u128::from(pages);
    roots + marking + looks + u128::from(MOST_BLOCKS + 4)
}

/// Returns the quanta of the schedule's budget that a cycle takes at most up to its sweep's end. When it begins, `live_words`
/// words are live, and at each quantum `quantum_words` are asked for. Marking takes the words of all pages, or those that are
/// live and those asked for by then.
pub(crate) fn sweep_quanta(config: &Config, pages: u32, live_words: u64, quantum_words: u64) -> u64
    requires { pages ≤ MOST_HEAP_PAGES }
    ensures quanta { (makes : ℕ → Bool) (plan : PlanView) → plan.quantum_words ≡ quantum_words
        → result ≡ sweep_quanta (flow_for makes live_words plan) (roots_in config.now) pages
        (config.now.collector_ticks * config.now.rate) }
    ensures within { (1 ≤ result) × (result ≤ 10600000) }
{
    let budget = u64::from(config.budget());
    let full = sweep_units(config, pages, arena_words(pages)) / u128::from(budget) + 1;
    if quantum_words >= budget {
        return full as u64;
    }
    let marking = live_most(live_words) + u128::from(quantum_words);
    let marked = sweep_units(config, pages, marking) / u128::from(budget - quantum_words) + 1;
    full.min(marked) as u64
}

/// Returns the units that moving spends at most on a number of pages if a plan is kept and `live_words` words are live when it
/// begins. It looks at every page for each class, and once more. For each page it also takes one look at every page, or the
/// words that are moved to it.
fn moving_units(pages: u32, live_words: u64, cycle_words: u64) -> u64
    requires { pages ≤ MOST_HEAP_PAGES }
    ensures units { (makes : ℕ → Bool) (plan : PlanView) → plan.cycle_words ≡ cycle_words
        → result ≡ flow_moving (flow_for makes live_words plan) pages }
    ensures within { result ≤ 1102000000000 }
{
    let looks = (CLASSES as u64 + 1 + u64::from(pages)) * u64::from(pages);
    let moved = arena_words(pages).min(live_most(live_words) + u128::from(cycle_words));
    let share = moved as u64 * u64::from(PAGE_WORDS.saturating_sub(pages)) / u64::from(PAGE_WORDS);
    looks + share + 1
}

/// Returns the quanta of the schedule's budget that a whole cycle takes at most. Quanta that end in moving may each leave 255
/// units.
pub(crate) fn quanta_on(config: &Config, pages: u32, live_words: u64, plan: &Plan) -> u64
    requires { pages ≤ MOST_HEAP_PAGES }
    ensures quanta { (makes : ℕ → Bool) → result ≡ quanta_on config.now (flow_for makes live_words plan.now) pages }
    ensures within { (2 ≤ result) × (result ≤ 1110000000000) }
{
    let swept = sweep_quanta(config, pages, live_words, plan.quantum_words);
    let moving = moving_units(pages, live_words, plan.cycle_words);
    let left = u64::from(LEAST_BUDGET - 1);
    swept + (moving / (u64::from(config.budget()) - left) + 1)
}
