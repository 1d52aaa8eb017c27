//! The report of the plans for a number of live words.
ghost use Rattle.std.specs.Prelude.{◌≡◌, ◌≤◌, IfOk, IfSome, option_map, string_bytes, take};
ghost use Rattle.size_classes.specs.declared.config.TheConstants.{MOST_HEAP_PAGES};
ghost use Rattle.paced.specs.Rooms.{made_of};
ghost use Rattle.plans.specs.Report.{live_line, fewest_line, numbers_told, IsClassesLine, IsRow, IsTable, IsPlansReport};

use crate::needs::Needs;
use crate::table::table;
use command_line::Asked;
use paced::{classes_in, least_pages, least_pages_for};
use size_classes::{Class, Config, MOST_PAGES};
use std::alloc::{AllocError, Global};

/// Returns the line with the live words, the units of a quantum, and the number of size classes, if some are given.
fn live_line(
    alloc: Global,
    config: &Config,
    live_words: u64,
    classes: Option<&[Class]>,
) -> Result<String, AllocError>
    ensures { IfOk result (λ line. string_bytes line ≡ live_line config.now live_words
        (option_map (λ used. used.now) classes.entry)) }
{
    let units = config.budget();
    match classes {
        Some(used) => {
            let count = classes_in(used);
            format!(in alloc; "live {live_words} units {units} classes {count}\n")
        }
        None => format!(in alloc; "live {live_words} units {units}\n"),
    }
}

/// Returns the line with the fewest pages that have a plan, and the keys to set for them; or that no number of pages has
/// one.
fn fewest_line(alloc: Global, least: Option<u32>) -> Result<String, AllocError>
    requires { IfSome least (λ pages. pages ≤ MOST_HEAP_PAGES) }
    ensures { IfOk result (λ line. string_bytes line ≡ fewest_line least) }
{
    let Some(pages) = least else {
        return format!(in alloc; "no number of pages up to 1048576 has a plan\n");
    };
    if MOST_PAGES < pages {
        return format!(in alloc; "fewest {pages}: more than a file may ask for\n");
    }
    let below = pages + 1;
    format!(in alloc;
        "fewest {pages}: pages = {pages}, defrag_below = {below}, defrag_pages = {pages}\n"
    )
}

/// Returns the line with the number of these size classes, and the fewest pages with a plan if blocks are made of them
/// alone, with the keys to set.
pub(crate) fn classes_line(
    alloc: Global,
    config: &Config,
    live_words: u64,
    used: &[Class],
) -> Result<String, AllocError>
    ensures { IfOk result (λ line. IsClassesLine config.now live_words used.now (string_bytes line)) }
{
    let count = classes_in(used);
    let fewest = fewest_line(alloc, least_pages(config, live_words, Some(used)))?;
    format!(in alloc; "classes {count}: {fewest}")
}

/// Returns the numbers of pages that have a line: the configuration's own; and, if there is a plan, the fewest pages
/// with one and some more. The second value says how many of the six numbers count. A number may count more than once.
pub(crate) fn numbers_told(config: &Config, least: Option<u32>) -> ([u32; 6], usize)
    requires { IfSome least (λ pages. pages ≤ MOST_HEAP_PAGES) }
    ensures told { take result.1 result.0 ≡ numbers_told config.now least }
    ensures within { result.1 ≤ 6 }
{
    let own = config.pages;
    match least {
        None => ([own; 6], 1),
        Some(few) => (
            [own, few, few + few / 4, few + few / 2, 2 * few, 3 * few],
            6,
        ),
    }
}

/// Returns the plans on these numbers of pages.
fn plans(
    alloc: Global,
    config: &Config,
    needs: Needs,
    classes: Option<&[Class]>,
    asks: &[Asked],
    least: Option<u32>,
) -> Result<String, AllocError>
    requires { IfSome least (λ pages. pages ≤ MOST_HEAP_PAGES) }
    ensures { IfOk result (λ text. IsTable (IsRow (made_of (option_map (λ used. used.now) classes.entry)) config.now needs
        asks.now) (numbers_told config.now least) (string_bytes text)) }
{
    let (numbers, count) = numbers_told(config, least);
    table(alloc, config, needs, classes, asks, &numbers[..count])
}

/// Returns the report of the plans by which a heap of a configuration paces itself, with room for these words. It has the units of a quantum. It has the fewest pages
/// with a plan, and the keys to set for them, or says that no number of pages has one. It has a line for each of some
/// numbers of pages, in rising order: the configuration's own, the fewest, and 5/4, 3/2, 2 and 3 times as many, as far as
/// a heap may have them. Except for the pages, and the moving that a plan needs, all is as the configuration has it. If
/// size classes are given, the plans are for a program that requests blocks of these alone, and the report has their
/// number. For each plan there is a line for each number of words in `asks`: it has the most quanta for which a program
/// waits that asks for them, and its share of the time.
pub fn plans_report(
    alloc: Global,
    config: &Config,
    needs: Needs,
    classes: Option<&[Class]>,
    asks: &[Asked],
) -> Result<String, AllocError>
    ensures { IfOk result (λ text. IsPlansReport (option_map (λ used. used.now) classes.entry) config.now needs
        asks.now (string_bytes text)) }
{
    let least = least_pages_for(config, needs.live, needs.largest, classes);
    [
        live_line(alloc, config, needs.live, classes)?,
        fewest_line(alloc, least)?,
        plans(alloc, config, needs, classes, asks, least)?,
    ]
    .concat(alloc)
}
