//! The plans as a table of a run's data.
ghost use Rattle.std.specs.Prelude.{◌≡◌, ◌≤◌, IfOk, IfSome, option_map, string_bytes};
ghost use Rattle.size_classes.specs.declared.config.TheConstants.{MOST_HEAP_PAGES};
ghost use Rattle.plans.specs.Bars.{figures_of, IsBar, AreBars, ArePlanBars, bar_row, plans_table, PlansTable};
ghost use Rattle.paced.specs.Rooms.{made_of};

use crate::order::next_of;
use crate::report::numbers_told;
use crate::row::tenths;
use paced::{Plan, least_pages, planned};
use pictures::{JsonRow, row, table};
use size_classes::{Class, Config};
use std::alloc::{AllocError, Global};

/// The figures of a plan.
#[derive(Clone, Copy, Debug, PartialEq, Eq)]
pub struct PlanFigures {
    /// How many words may be requested at a quantum.
    pub words: u64,
    /// How many tenths of a unit the collector spends for each of them.
    pub tenths: u64,
}

/// A number of pages, with the figures of the plan on them, if there is one.
#[derive(Clone, Copy, Debug, PartialEq, Eq)]
pub struct PlanBar {
    pub pages: u32,
    pub plan: Option<PlanFigures>,
}

impl JsonRow for PlanBar {
    ghost told = { bar_row };

    fn row(&self, alloc: Global) -> Result<String, AllocError> {
        let pages = u64::from(self.pages);
        match self.plan {
            None => row(alloc, pages, &[None, None]),
            Some(plan) => row(
                alloc,
                pages,
                &[Some(u128::from(plan.words)), Some(u128::from(plan.tenths))],
            ),
        }
    }
}

/// Returns the figures of a configuration's plan, if there is one.
fn figures(config: &Config, plan: Option<Plan>) -> Option<PlanFigures>
    requires { IfSome plan (λ plan. 1 ≤ plan.quantum_words) }
    ensures { result ≡ figures_of config.now plan }
{
    let words = plan?.quantum_words;
    Some(PlanFigures {
        words,
        tenths: tenths(config.budget(), words),
    })
}

/// Returns the bar of the plan on this many pages, if moving follows each sweep and may empty all of them.
fn bar(config: &Config, live_words: u64, classes: Option<&[Class]>, pages: u32) -> PlanBar
    requires { (1 ≤ pages) × (pages ≤ MOST_HEAP_PAGES) }
    ensures { IsBar (made_of (option_map (λ used. used.now) classes.entry)) config.now live_words pages result }
{
    let on = config.on_pages(pages, true);
    let plan = planned(&on, live_words, classes);
    PlanBar {
        pages,
        plan: figures(&on, plan),
    }
}

/// Returns a bar for each of some numbers of pages that a heap may have, in rising order, each once.
fn bars(
    alloc: Global,
    config: &Config,
    live_words: u64,
    classes: Option<&[Class]>,
    numbers: &[u32],
) -> Result<Vec<PlanBar>, AllocError>
    ensures { IfOk result (λ bars. AreBars (made_of (option_map (λ used. used.now) classes.entry)) config.now live_words numbers.now
        bars.items) }
{
    let mut bars = Vec::new(alloc);
    let mut above = 0;
    while let Some(pages) = next_of(numbers, above) {
        bars.push(bar(config, live_words, classes, pages))?;
        above = pages;
    }
    Ok(bars)
}

/// Returns the plans of `plans_report`: one for each number of pages that has a line there.
fn plan_bars(
    alloc: Global,
    config: &Config,
    live_words: u64,
    classes: Option<&[Class]>,
) -> Result<Vec<PlanBar>, AllocError>
    ensures { IfOk result (λ bars. ArePlanBars (option_map (λ used. used.now) classes.entry) config.now live_words bars.items) }
{
    let least = least_pages(config, live_words, classes);
    let (numbers, count) = numbers_told(config, least);
    bars(alloc, config, live_words, classes, &numbers[..count])
}

/// Returns the table of some plans, for this many live words.
fn table_of(alloc: Global, live: u64, bars: &[PlanBar]) -> Result<String, AllocError>
    ensures { IfOk result (λ text. string_bytes text ≡ plans_table live bars.now) }
{
    let head = format!(in alloc;
        "\"live\":\"{live}\",\n\"plans\":[[\"pages\",\"words\",\"tenths\"]"
    )?;
    table(alloc, head.as_str(), bars)
}

/// Returns the plans for this many live words, and for all size classes, as a member of a run's data; nothing if no
/// number of live words is given.
pub fn plans_data(alloc: Global, config: &Config, live: Option<u64>) -> Result<String, AllocError>
    ensures { IfOk result (λ text. PlansTable config.now live (string_bytes text)) }
{
    match live {
        None => Ok(String::new(alloc)),
        Some(live) => {
            let bars = plan_bars(alloc, config, live, None)?;
            table_of(alloc, live, bars.as_slice())
        }
    }
}
