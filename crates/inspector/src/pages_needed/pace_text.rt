//! The report of a pace.
ghost use Rattle.std.specs.Prelude.{◌≡◌, Some, IfOk, string_bytes};
ghost use Rattle.space.specs.Fitting.{pace_in};
ghost use Rattle.inspector.specs.NeededReport.{pace_line, quanta_line, from_line, least_lines, pace_report, IsPaceReport};

use crate::class_lines::class_lines;
use crate::pages_needed::from::fits_from;
use crate::pages_needed::lines::{Scope, pages_line, too_many};
use size_classes::{Class, Config};
use space::{Pace, least_pages, pace_needs};
use std::alloc::{AllocError, Global};

/// Returns the line of a class, or nothing if no block of it is needed.
fn class_line(alloc: Global, pace: &Pace, class: Class) -> Result<String, AllocError>
    ensures { IfOk result (λ line. string_bytes line ≡ pace_line (pace_in pace.now) class) }
{
    let number = class.number();
    let (live, busy, idle) = (pace.live[number], pace.busy[number], pace.idle[number]);
    if live == 0 && busy == 0 && idle == 0 {
        return Ok(String::new(alloc));
    }
    let size = class.size();
    format!(in alloc; "size {size} live {live} busy {busy} idle {idle}\n")
}

/// Returns the line with the quanta of a cycle from which the pages are calculated, each of the schedule's units.
fn quanta_line(alloc: Global, quanta: u64, units: u32) -> Result<String, AllocError>
    ensures { IfOk result (λ line. string_bytes line ≡ quanta_line quanta units) }
{
    format!(in alloc; "quanta {quanta} units {units}\n")
}

/// Returns the line with the pages from which on each number suffices, or that the most may not.
fn from_line(alloc: Global, from: Option<u32>) -> Result<String, AllocError>
    ensures { IfOk result (λ line. string_bytes line ≡ from_line from) }
{
    match from {
        Some(from) => format!(in alloc; "all from {from} to 4096 suffice\n"),
        None => format!(in alloc; "4096 may not suffice\n"),
    }
}

/// Returns the lines with the least number of pages that suffices, and with that from which on each does; or that none is
/// known.
fn least_lines(alloc: Global, least: Option<u32>, from: Option<u32>) -> Result<String, AllocError>
    ensures { IfOk result (λ text. string_bytes text ≡ least_lines least from) }
{
    let Some(least) = least else {
        return format!(in alloc; "no number of pages up to 4096 is known to suffice\n");
    };
    let from = from_line(alloc, from)?;
    format!(in alloc; "least pages {least}\n{from}")
}

/// Returns all lines of a pace.
fn lines_with(alloc: Global, config: &Config, pace: &Pace) -> Result<String, AllocError>
    ensures { IfOk result (λ text. IsPaceReport config.now (Some pace.now) (string_bytes text)) }
{
    let needs = pace_needs(config, pace, config.pages);
    [
        class_lines(alloc, |class| class_line(alloc, pace, class))?,
        quanta_line(alloc, needs.quanta, config.budget())?,
        pages_line(alloc, Scope::Pace, needs.pages, config.pages)?,
        least_lines(alloc, least_pages(config, pace), fits_from(config, pace))?,
    ]
    .concat(alloc)
}

/// Returns the report of a pace in a heap of a configuration, with quanta of its schedule's units. Each class with needed
/// blocks has a line: its size in words, the blocks of live objects, those requested while a cycle runs up to the next
/// quantum, and those between two cycles. Then come the quanta of a cycle from which the pages are calculated. A line
/// says how many pages are needed, out of those there are, and for which runs they suffice. The last has the least number
/// of pages that suffices, and from how many on each does. If there is no pace, it says that the blocks are too many.
pub fn pace_report(
    alloc: Global,
    config: &Config,
    pace: &Option<Pace>,
) -> Result<String, AllocError>
    ensures { IfOk result (λ text. IsPaceReport config.now pace.now (string_bytes text)) }
{
    match pace {
        Some(pace) => lines_with(alloc, config, pace),
        None => too_many(alloc),
    }
}
