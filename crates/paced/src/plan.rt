//! Plans, and whether the flow of one fits in a configuration.
ghost use Rattle.std.specs.Prelude.{◌≡◌, ℕ, ◌+◌, ◌-◌, ◌*◌, ◌/◌, ◌^◌, ◌<◌, ◌≤◌, ◌↔◌, Bool, IsTrue, IfSome, Option, None, option_map};
ghost use Rattle.size_classes.specs.declared.config.TheConstants.{MOST_HEAP_PAGES};
ghost use Rattle.fragmentation.specs.Configured.{roots_in, MovesAll, FlowFitsIn};
ghost use Rattle.fragmentation.specs.Flow.{classes_made, FlowFitsOn};
ghost use Rattle.paced.specs.Rooms.{flow_for, among, made_of};
ghost use Rattle.paced.specs.Planning.{quanta_on, LastsOn, IsFullestOn, FillsPages, IsFastestFor, HasPlanOn, IsLeastPagesFor};
ghost use Rattle.paced.specs.declared.plan.Plan.{Plan as PlanView};
ghost use Rattle.paced.specs.Bounds.{LastsWith};

use crate::quanta::{quanta_on, sweep_quanta};
use fragmentation::{LEAST_PAGE_FILL, PARTLY_FILLED_PAGES};
use size_classes::{CLASSES, Class, Config, MOST_HEAP_PAGES};

/// How many words of blocks may be asked for while the collector of a heap works.
#[derive(Clone, Copy, Debug, PartialEq, Eq)]
pub struct Plan {
    /// Words for each quantum of a cycle.
    pub quantum_words: u64,
    /// Words from one cycle's beginning until the next begins.
    pub cycle_words: u64,
}

/// Returns how many size classes these are: each counts once.
pub fn classes_in(used: &[Class]) -> u64
    ensures count { result ≡ classes_made (among used.now) }
    ensures within { result ≤ CLASSES }
{
    let mut count = 0u64;
    for number in 0..CLASSES {
        if used.contains(&Class::new(number as u8)) {
            count += 1;
        }
    }
    count
}

/// Returns how many size classes blocks are made of: these alone, or all.
#[inline(always)]
fn count_made(classes: Option<&[Class]>) -> u64
    ensures count { result ≡ classes_made (made_of (option_map (λ used. used.now) classes.entry)) }
    ensures within { result ≤ CLASSES }
{
    match classes {
        Some(used) => classes_in(used),
        None => CLASSES as u64,
    }
}

/// Returns the pages that suffice for blocks of `words` words of `classes` size classes, with the pages of each class that may
/// be filled in part.
fn pages_for_words(words: u128, classes: u64) -> u128
    requires words { words < 2 ^ 127 }
    requires classes { classes ≤ CLASSES }
    ensures { result ≡ words / LEAST_PAGE_FILL + PARTLY_FILLED_PAGES * classes }
{
    let partly = u128::from(PARTLY_FILLED_PAGES * classes);
    words / u128::from(LEAST_PAGE_FILL) + partly
}

/// Returns whether moving follows each sweep in a heap of a configuration, and may empty all pages. A plan requires it.
pub fn moves_all(config: &Config) -> bool
    ensures { IsTrue result ↔ MovesAll config.now }
{
    config.pages < config.defrag_below && config.pages <= config.defrag_pages
}

/// Returns whether the flow of a plan fits on a number of pages, if blocks are made of `classes` size classes.
fn fits_on(config: &Config, pages: u32, live_words: u64, plan: &Plan, classes: u64) -> bool
    requires pages { pages ≤ MOST_HEAP_PAGES }
    requires classes { classes ≤ CLASSES }
    ensures { (makes : ℕ → Bool) → classes_made makes ≡ classes
        → IsTrue result ↔ FlowFitsOn (flow_for makes live_words plan.now) (roots_in config.now) pages
        (config.now.collector_ticks * config.now.rate) }
{
    let quanta = sweep_quanta(config, pages, live_words, plan.quantum_words);
    let traced = u128::from(quanta) * u128::from(plan.quantum_words);
    let words = u128::from(live_words) + (2 * u128::from(plan.cycle_words) + traced);
    traced <= u128::from(plan.cycle_words) && pages_for_words(words, classes) <= u128::from(pages)
}

/// Returns whether the flow of a plan fits in a configuration. Blocks of live objects have at most `live_words` words whenever
/// a cycle begins, or `LEAST_PAGE_FILL` for each whole page that they take. Blocks are made of these classes alone, or of all.
/// Fewer pages may be filled in part if there are fewer classes.
#[inline(always)]
pub fn flow_fits(config: &Config, live_words: u64, plan: &Plan, classes: Option<&[Class]>) -> bool
    ensures { IsTrue result ↔ FlowFitsIn config.now
        (flow_for (made_of (option_map (λ used. used.now) classes.entry)) live_words plan.now) }
{
    fits_on(config, config.pages, live_words, plan, count_made(classes))
}

/// Returns the quanta of the configuration's budget that a whole cycle takes at most, if a plan is kept and `live_words` words
/// are live when the cycle begins.
pub fn cycle_quanta(config: &Config, live_words: u64, plan: &Plan) -> u64
    ensures quanta { (makes : ℕ → Bool) → result
        ≡ quanta_on config.now (flow_for makes live_words plan.now) config.now.pages }
    ensures within { (2 ≤ result) × (result ≤ 1110000000000) }
{
    quanta_on(config, config.pages, live_words, plan)
}

/// Returns whether a plan lasts with room for an object of `largest` words. Then a cycle has words for each quantum that it
/// takes at most, and for one such object besides.
pub fn lasts(config: &Config, live_words: u64, plan: &Plan, largest: u64) -> bool
    ensures { IsTrue result ↔ LastsWith config.now plan.now live_words largest }
{
    let quanta = cycle_quanta(config, live_words, plan);
    let traced = u128::from(quanta) * u128::from(plan.quantum_words);
    plan.quantum_words >= 1 && traced + u128::from(largest) <= u128::from(plan.cycle_words)
}

/// Returns the words of blocks for which a number of pages has room besides live ones, if blocks are made of `classes` size
/// classes.
fn room_for(live_words: u64, pages: u32, classes: u64) -> u64
    requires pages { pages ≤ MOST_HEAP_PAGES }
    requires classes { classes ≤ CLASSES }
    ensures { result ≡ (pages + 1 - PARTLY_FILLED_PAGES * classes) * LEAST_PAGE_FILL - live_words - 1 }
{
    let some = (u64::from(pages) + 1).saturating_sub(PARTLY_FILLED_PAGES * classes);
    (some * LEAST_PAGE_FILL)
        .saturating_sub(live_words)
        .saturating_sub(1)
}

/// Returns the plan of `quantum_words` words for each quantum that has the most words for a cycle, of those that fit on a
/// number of pages. Blocks are made of `classes` size classes. Returns None if none fits.
fn fullest(
    config: &Config,
    pages: u32,
    live_words: u64,
    classes: u64,
    quantum_words: u64,
) -> Option<Plan>
    requires pages { pages ≤ MOST_HEAP_PAGES }
    requires classes { classes ≤ CLASSES }
    requires words { 1 ≤ quantum_words }
    ensures { (makes : ℕ → Bool) → classes_made makes ≡ classes
        → FillsPages makes config.now live_words pages quantum_words result }
{
    let room = u128::from(room_for(live_words, pages, classes));
    let quanta = sweep_quanta(config, pages, live_words, quantum_words);
    let traced = u128::from(quanta) * u128::from(quantum_words);
    if room < 3 * traced {
        return None;
    }
    Some(Plan {
        quantum_words,
        cycle_words: ((room - traced) / 2) as u64,
    })
}

/// Returns that plan if it lasts with room for an object of `largest` words. Then it has words for each quantum that a cycle
/// takes at most, and for one such object besides.
fn lasting(
    config: &Config,
    pages: u32,
    live_words: u64,
    largest: u64,
    classes: u64,
    quantum_words: u64,
) -> Option<Plan>
    requires pages { pages ≤ MOST_HEAP_PAGES }
    requires classes { classes ≤ CLASSES }
    requires words { 1 ≤ quantum_words }
    ensures some { (makes : ℕ → Bool) → classes_made makes ≡ classes
        → IfSome result (λ plan. (plan.quantum_words ≡ quantum_words)
        × LastsOn config.now (flow_for makes live_words plan) largest pages
        × IsFullestOn makes config.now live_words pages plan) }
    ensures none { (makes : ℕ → Bool) → classes_made makes ≡ classes → result ≡ None → (plan : PlanView)
        → plan.quantum_words ≡ quantum_words → LastsOn config.now (flow_for makes live_words plan) largest pages
        → IsFullestOn makes config.now live_words pages plan → ⊥ }
{
    let plan = fullest(config, pages, live_words, classes, quantum_words)?;
    let quanta = quanta_on(config, pages, live_words, &plan);
    let words = u128::from(quanta) * u128::from(quantum_words);
    if words + u128::from(largest) <= u128::from(plan.cycle_words) {
        Some(plan)
    } else {
        None
    }
}

/// Returns a number of words for each quantum that no plan of a configuration exceeds. The plan leaves room for an object of
/// `largest` words, and blocks are made of `classes` size classes.
fn most_words(config: &Config, live_words: u64, largest: u64, classes: u64) -> u64
    requires { classes ≤ CLASSES }
    ensures { (makes : ℕ → Bool) → classes_made makes ≡ classes → (plan : PlanView)
        → LastsOn config.now (flow_for makes live_words plan) largest config.now.pages
        → plan.quantum_words ≤ result }
{
    let none = Plan {
        quantum_words: 0,
        cycle_words: 0,
    };
    let whole = cycle_quanta(config, live_words, &none);
    let swept = sweep_quanta(config, config.pages, live_words, 0);
    let room = room_for(live_words, config.pages, classes)
        .saturating_sub(largest)
        .saturating_sub(largest);
    room / (2 * whole + swept)
}

/// Returns the fastest plan of a configuration that leaves room for an object of `largest` words, if blocks are made of
/// `classes` size classes.
fn fastest(config: &Config, live_words: u64, largest: u64, classes: u64) -> Option<Plan>
    requires { classes ≤ CLASSES }
    ensures { (makes : ℕ → Bool) → classes_made makes ≡ classes
        → IsFastestFor makes config.now live_words largest result }
{
    let mut words = most_words(config, live_words, largest, classes);
    while words > 0 {
        let plan = lasting(config, config.pages, live_words, largest, classes, words);
        if plan.is_some() {
            return plan;
        }
        words -= 1;
    }
    None
}

/// Returns the plan with the most words for each quantum, of the plans that last and have as many words for a cycle as fit. A
/// plan lasts if a cycle has words for each quantum that it takes at most: so its words last until it has ended. Returns None
/// if no plan has a word for each quantum. `live_words` and `classes` are those of `flow_fits`. A plan for some classes is for
/// a program that asks for no block of another class.
pub fn planned(config: &Config, live_words: u64, classes: Option<&[Class]>) -> Option<Plan>
    ensures { IsFastestFor (made_of (option_map (λ used. used.now) classes.entry)) config.now live_words 0 result }
{
    fastest(config, live_words, 0, count_made(classes))
}

/// Returns the same of the plans that leave room for an object of `largest` words. Then an object of w words, at most
/// `largest`, costs at most w / `quantum_words` quanta, rounded up.
pub fn planned_for(
    config: &Config,
    live_words: u64,
    largest: u64,
    classes: Option<&[Class]>,
) -> Option<Plan>
    ensures { IsFastestFor (made_of (option_map (λ used. used.now) classes.entry)) config.now live_words largest
        result }
{
    fastest(config, live_words, largest, count_made(classes))
}

/// Returns whether there is a plan on this number of pages with room for an object of `largest` words. Blocks are made of
/// `classes` size classes. There is one if there is one with one word for each quantum.
fn has_plan_on(config: &Config, live_words: u64, largest: u64, pages: u32, classes: u64) -> bool
    requires pages { pages ≤ MOST_HEAP_PAGES }
    requires classes { classes ≤ CLASSES }
    ensures { (makes : ℕ → Bool) → classes_made makes ≡ classes
        → IsTrue result ↔ HasPlanOn makes config.now live_words largest pages }
{
    lasting(config, pages, live_words, largest, classes, 1).is_some()
}

/// Returns the least number of pages that has a plan with room for an object of `largest` words, if blocks are made of
/// `classes` size classes.
fn fewest(config: &Config, live_words: u64, largest: u64, classes: u64) -> Option<u32>
    requires { classes ≤ CLASSES }
    ensures { (makes : ℕ → Bool) → classes_made makes ≡ classes
        → IsLeastPagesFor makes config.now live_words largest result }
{
    for pages in 1..MOST_HEAP_PAGES + 1 {
        if has_plan_on(config, live_words, largest, pages, classes) {
            return Some(pages);
        }
    }
    None
}

/// Returns the least number of pages, of those that a heap may have, that has a plan (`planned`). Every cycle moves and may
/// empty all pages, and all else is as the configuration has it. Returns None if no number of pages has a plan: a cycle on more
/// pages takes more quanta. `live_words` and `classes` are those of `flow_fits`.
pub fn least_pages(config: &Config, live_words: u64, classes: Option<&[Class]>) -> Option<u32>
    ensures { IsLeastPagesFor (made_of (option_map (λ used. used.now) classes.entry)) config.now live_words 0 result }
{
    fewest(config, live_words, 0, count_made(classes))
}

/// Returns the same of the plans that leave room for an object of `largest` words (`planned_for`).
pub fn least_pages_for(
    config: &Config,
    live_words: u64,
    largest: u64,
    classes: Option<&[Class]>,
) -> Option<u32>
    ensures { IsLeastPagesFor (made_of (option_map (λ used. used.now) classes.entry)) config.now live_words largest
        result }
{
    fewest(config, live_words, largest, count_made(classes))
}
