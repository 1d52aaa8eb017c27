//! The plan on a number of pages, as a line.
ghost use Rattle.std.specs.Prelude.{◌≡◌, ◌≤◌, IfOk, IfSome, option_map, string_bytes};
ghost use Rattle.size_classes.specs.declared.config.TheConstants.{MOST_HEAP_PAGES};
ghost use Rattle.paced.specs.Rooms.{made_of};
ghost use Rattle.plans.specs.Report.{tenths_of, plan_line, IsRow};

use crate::needs::Needs;
use crate::waits::waits_lines;
use command_line::Asked;
use paced::{Plan, cycle_quanta, planned_for};
use size_classes::{Class, Config};
use std::alloc::{AllocError, Global};

/// Returns the tenths of a unit for each word, if this many words are requested at a quantum of this many units,
/// rounded up.
pub(crate) fn tenths(units: u32, words: u64) -> u64
    requires { 1 ≤ words }
    ensures { result ≡ tenths_of units words }
{
    (10 * u64::from(units)).div_ceil(words)
}

/// Returns the line of the plan on a configuration's pages, for this many live words, or of no plan.
fn plan_line(
    alloc: Global,
    config: &Config,
    live_words: u64,
    plan: Option<Plan>,
) -> Result<String, AllocError>
    requires { IfSome plan (λ plan. 1 ≤ plan.quantum_words) }
    ensures { IfOk result (λ line. string_bytes line ≡ plan_line config.now live_words plan) }
{
    let pages = config.pages;
    let Some(plan) = plan else {
        return format!(in alloc; "pages {pages}: no plan\n");
    };
    let quanta = cycle_quanta(config, live_words, &plan);
    let (words, cycle) = (plan.quantum_words, plan.cycle_words);
    let tenths = tenths(config.budget(), words);
    format!(in alloc; "pages {pages} quanta {quanta} words {words} cycle {cycle} tenths {tenths}\n")
}

/// Returns the line of the plan on this many pages, if moving follows each sweep and may empty all of them: the number
/// of pages, the most quanta that a cycle takes, the words of a quantum and of a cycle, and tenths of a unit for each
/// word. The plan has room for the largest object. Lines follow that say for how long a program waits that asks for some words. Or the line says that there is no
/// plan.
pub(crate) fn row(
    alloc: Global,
    config: &Config,
    needs: Needs,
    classes: Option<&[Class]>,
    asks: &[Asked],
    pages: u32,
) -> Result<String, AllocError>
    requires { (1 ≤ pages) × (pages ≤ MOST_HEAP_PAGES) }
    ensures { IfOk result (λ line. IsRow (made_of (option_map (λ used. used.now) classes.entry)) config.now needs asks.now
        pages (string_bytes line)) }
{
    let on = config.on_pages(pages, true);
    let plan = planned_for(&on, needs.live, needs.largest, classes);
    [
        plan_line(alloc, &on, needs.live, plan)?,
        waits_lines(alloc, &on, needs.live, asks, plan)?,
    ]
    .concat(alloc)
}
