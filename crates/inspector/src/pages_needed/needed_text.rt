//! The report of a run's needs.
ghost use Rattle.std.specs.Prelude.{◌≡◌, ◌++◌, IfOk, string_bytes};
ghost use Rattle.inspector.specs.NeededReport.{blocks_line, still_line, moved_line, gathered_line, page_demand_line, form_lines};
ghost use Rattle.inspector.specs.NeededReport.{keys_line, fewest_keys, fewest_line, room_line, needed_report, needed_told};

use crate::class_lines::class_lines;
use crate::pages_needed::lines::{Scope, pages_line, too_many};
use size_classes::{Class, Config, MOST_PAGES};
use sizing::Needed;
use space::pages_of_class;
use std::alloc::{AllocError, Global};

/// Returns the line of a class, or nothing if no block of it is needed.
fn class_line(alloc: Global, needed: &Needed, class: Class) -> Result<String, AllocError>
    ensures { IfOk result (λ line. string_bytes line ≡ blocks_line needed.now class) }
{
    let blocks = needed.together[class.number()];
    if blocks == 0 {
        return Ok(String::new(alloc));
    }
    let (size, pages) = (class.size(), pages_of_class(class, u128::from(blocks), 0));
    format!(in alloc; "size {size} blocks {blocks} pages {pages}\n")
}

/// Returns the line with the pages that suffice if blocks are never moved.
fn still_line(alloc: Global, pages: u128) -> Result<String, AllocError>
    ensures { IfOk result (λ line. string_bytes line ≡ still_line pages) }
{
    format!(in alloc;
        "without moving {pages}: for each run that needs no more blocks of any size\n"
    )
}

/// Returns the line with the pages that suffice with moving as configured.
fn moved_line(alloc: Global, pages: u128) -> Result<String, AllocError>
    ensures { IfOk result (λ line. string_bytes line ≡ moved_line pages) }
{
    format!(in alloc; "as configured {pages}: for each run that needs no more blocks of any size\n")
}

/// Returns the line with the pages that suffice with moving after each sweep.
fn gathered_line(alloc: Global, pages: u64) -> Result<String, AllocError>
    ensures { IfOk result (λ line. string_bytes line ≡ gathered_line pages) }
{
    format!(in alloc; "moving after each sweep {pages}: for each run that needs no more pages so\n")
}

/// Returns the line with the pages that suffice with moving after each sweep, whatever the sizes of objects are.
fn page_demand_line(alloc: Global, pages: u128, needed: &Needed) -> Result<String, AllocError>
    ensures { IfOk result (λ line. string_bytes line ≡ page_demand_line pages needed.now) }
{
    let (live, made) = (needed.live, needed.made);
    format!(in alloc;
        "whatever the sizes {pages}: moving after each sweep, for each run of at most {live} pages live and {made} made\n"
    )
}

/// Returns the lines with the pages that suffice in each way.
fn form_lines(
    alloc: Global,
    still: u128,
    moved: u128,
    budgeted: u128,
    needed: &Needed,
) -> Result<String, AllocError>
    ensures { IfOk result (λ text. string_bytes text ≡ form_lines still moved budgeted needed.now) }
{
    [
        still_line(alloc, still)?,
        moved_line(alloc, moved)?,
        gathered_line(alloc, needed.gathered)?,
        page_demand_line(alloc, budgeted, needed)?,
    ]
    .concat(alloc)
}

/// Returns the line of the keys to set for this many pages: below how many free ones moving follows a sweep, and how many
/// it empties.
fn keys_line(alloc: Global, pages: u32, below: u32, emptied: u32) -> Result<String, AllocError>
    ensures { IfOk result (λ line. string_bytes line ≡ keys_line pages below emptied) }
{
    if below == 0 {
        return format!(in alloc; "pages = {pages}, defrag_below = {below}\n");
    }
    format!(in alloc; "pages = {pages}, defrag_below = {below}, defrag_pages = {emptied}\n")
}

/// Returns the line of the keys to set for the fewest pages.
fn fewest_keys(alloc: Global, still: u128, pages: u128) -> Result<String, AllocError>
    ensures { IfOk result (λ line. string_bytes line ≡ fewest_keys still pages) }
{
    if pages > u128::from(MOST_PAGES) {
        return format!(in alloc; "more than a file may ask for\n");
    }
    let count = pages as u32;
    let below = if still <= pages { 0 } else { count + 1 };
    keys_line(alloc, count, below, count)
}

/// Returns the line with the fewest pages, and the keys to set for them.
fn fewest_line(alloc: Global, still: u128, pages: u128) -> Result<String, AllocError>
    ensures { IfOk result (λ line. string_bytes line ≡ fewest_line still pages) }
{
    let keys = fewest_keys(alloc, still, pages)?;
    format!(in alloc; "fewest {pages}: {keys}")
}

/// Returns the line with the pages on which the trace itself finds room, and the keys to set for them.
fn room_line(alloc: Global, found: &Option<Config>) -> Result<String, AllocError>
    ensures { IfOk result (λ line. string_bytes line ≡ room_line found.now) }
{
    let Some(config) = found else {
        return format!(in alloc;
            "for this trace: no number of pages up to 4096 is known to suffice\n"
        );
    };
    let (pages, below, emptied) = (config.pages, config.defrag_below, config.defrag_pages);
    let keys = keys_line(alloc, pages, below, emptied)?;
    format!(in alloc; "for this trace {pages}: {keys}")
}

/// Returns all lines of a run's needs.
fn needed_lines(alloc: Global, config: &Config, needed: &Needed) -> Result<String, AllocError>
    ensures { IfOk result (λ text. string_bytes text ≡ needed_report config.now needed.now) }
{
    let (still, moved) = (needed.still(), needed.moved(config));
    [
        class_lines(alloc, |class| class_line(alloc, needed, class))?,
        form_lines(alloc, still, moved, needed.budgeted(), needed)?,
        fewest_line(alloc, still, needed.fewest())?,
        pages_line(alloc, Scope::Demand, needed.pages_in(config), config.pages)?,
    ]
    .concat(alloc)
}

/// Returns the lines of a run's needs, or that the blocks are too many.
fn told_of(alloc: Global, config: &Config, needed: &Option<Needed>) -> Result<String, AllocError>
    ensures { IfOk result (λ text. string_bytes text ≡ needed_told config.now needed.now) }
{
    match needed {
        Some(needed) => needed_lines(alloc, config, needed),
        None => too_many(alloc),
    }
}

/// Returns the report of a run's needs. Each class with needed blocks has a line: its size in words, how many blocks
/// together, and the pages that they take. Then come the pages that suffice in each way, and for which runs. Next are the
/// fewest pages without moving or with moving after each sweep, and the keys to set for them. A line says how many pages
/// the configuration must have, out of those that it has, and whether they suffice for this run and each that needs no
/// more. If there are no numbers, it says that the blocks are too many. Last come the pages on which the trace of the run
/// finds room, with the keys to set.
pub fn needed_report(
    alloc: Global,
    config: &Config,
    needed: &Option<Needed>,
    found: &Option<Config>,
) -> Result<String, AllocError>
    ensures { IfOk result (λ text. string_bytes text ≡ needed_told config.now needed.now ++ room_line found.now) }
{
    [told_of(alloc, config, needed)?, room_line(alloc, found)?].concat(alloc)
}
