//! Finds how many pages are enough for a trace itself, by measuring it on some numbers of pages.
ghost use Rattle.std.specs.Prelude.{◌≡◌, ◌≤◌, Some};
ghost use Rattle.size_classes.specs.declared.config.TheConstants.{MOST_PAGES};
ghost use Rattle.trace.specs.LinesProcessed.{reads_failed, writes_failed};
ghost use Rattle.program.specs.Demand.{is_enough, Measures, IsEnoughOn, IsFound, OrFault};
ghost use Rattle.program.specs.Bounds.{enough_of, AreBounds, BoundsOrNone};

use crate::measuring::measure_text;
use size_classes::{Config, MOST_PAGES};
use sizing::Needed;
use std::alloc::Global;
use trace::PlayFault;

/// Returns whether a configuration has enough pages for these needs; false if they are unknown.
fn is_enough(config: &Config, needed: &Option<Needed>) -> bool
    ensures { result ≡ is_enough config.now needed.now }
{
    match needed {
        Some(needed) => needed.pages_in(config) <= u128::from(config.pages),
        None => false,
    }
}

/// A trace measured on a configuration.
#[derive(Clone, Copy)]
struct Trial {
    config: Config,
    /// Whether the pages suffice for what the trace needed there.
    enough: bool,
    /// The fewest pages for what it needed there, at most those that a file may ask for. They may be tried next.
    fewest: u32,
}

/// Measures the trace of a text on the configuration with this many pages, with moving or without.
fn trial_of(
    alloc: Global,
    config: &Config,
    text: &[u8],
    moves: bool,
    pages: u32,
) -> Result<Trial, PlayFault>
    requires { (1 ≤ pages) × (pages ≤ MOST_PAGES) }
    ensures trial { OrFault config.now text.now (λ trial. Measures config.now text.now moves pages trial.enough trial.config) result }
    ensures reads { reads_failed result ≡ 0 }
    ensures writes { writes_failed result ≡ 0 }
{
    let config = config.on_pages(pages, moves);
    let needed = measure_text(alloc, &config, text)?.needed;
    let (enough, fewest) = (is_enough(&config, &needed), fewest_of(&needed));
    Ok(Trial {
        config,
        enough,
        fewest,
    })
}

/// Measures the trace without moving; if these pages are too few for that, with moving.
fn trial_on(alloc: Global, config: &Config, text: &[u8], pages: u32) -> Result<Trial, PlayFault>
    requires { (1 ≤ pages) × (pages ≤ MOST_PAGES) }
    ensures trial { OrFault config.now text.now (λ trial. IsEnoughOn config.now text.now pages (enough_of trial)) result }
    ensures reads { reads_failed result ≡ 0 }
    ensures writes { writes_failed result ≡ 0 }
{
    let still = trial_of(alloc, config, text, false, pages)?;
    if still.enough {
        return Ok(still);
    }
    trial_of(alloc, config, text, true, pages)
}

/// A trial on enough pages, and a number of pages that is too few, or 0.
#[derive(Clone, Copy)]
struct Bounds {
    below: u32,
    found: Trial,
}

/// Finds bounds: tries `from` pages, then twice as many each time. Returns None if the most pages are too few.
fn widen(
    alloc: Global,
    config: &Config,
    text: &[u8],
    from: u32,
) -> Result<Option<Bounds>, PlayFault>
    requires { (1 ≤ from) × (from ≤ MOST_PAGES) }
    ensures found { OrFault config.now text.now (BoundsOrNone config.now text.now) result }
    ensures reads { reads_failed result ≡ 0 }
    ensures writes { writes_failed result ≡ 0 }
{
    let (mut below, mut pages) = (0, from);
    while below < MOST_PAGES {
        let found = trial_on(alloc, config, text, pages)?;
        if found.enough {
            return Ok(Some(Bounds { below, found }));
        }
        below = pages;
        pages = (2 * pages).min(MOST_PAGES);
    }
    Ok(None)
}

/// Returns a configuration within bounds that has enough pages, so that one page fewer is too few. Each trial takes the
/// fewest pages for what the last one needed. After a trial on enough pages, the next goes down by at least a step, which
/// doubles each time. After one on too few, the next goes up by at least half the pages that are left.
fn narrow(alloc: Global, config: &Config, text: &[u8], bounds: Bounds) -> Result<Config, PlayFault>
    requires { AreBounds config.now text.now bounds }
    ensures found { OrFault config.now text.now (λ found. IsFound config.now text.now (Some found)) result }
    ensures reads { reads_failed result ≡ 0 }
    ensures writes { writes_failed result ≡ 0 }
{
    let Bounds {
        mut below,
        mut found,
    } = bounds;
    let (mut next, mut step) = (found.fewest, 1u32);
    while found.config.pages - below > 1 {
        let pages = next.max(below + 1).min(found.config.pages - 1);
        let trial = trial_on(alloc, config, text, pages)?;
        if trial.enough {
            step = step.saturating_mul(2);
            next = trial.fewest.min(pages.saturating_sub(step));
            found = trial;
        } else {
            below = pages;
            next = trial.fewest.max(below + (found.config.pages - below) / 2);
        }
    }
    Ok(found.config)
}

/// Returns the fewest pages for these needs, at most those that a file may ask for; these, if the needs are unknown.
fn fewest_of(needed: &Option<Needed>) -> u32
    ensures { (1 ≤ result) × (result ≤ MOST_PAGES) }
{
    match needed {
        Some(needed) => needed.fewest().min(u128::from(MOST_PAGES)) as u32,
        None => MOST_PAGES,
    }
}

/// Returns the configuration that has enough pages for the trace of a text, so that one page fewer is too few. It doesn't
/// move blocks, if its pages are enough so, or else it moves after each sweep. Returns None if the most pages that a file
/// may ask for are too few.
pub fn find_room(
    alloc: Global,
    config: &Config,
    text: &[u8],
    needed: &Option<Needed>,
) -> Result<Option<Config>, PlayFault>
    ensures found { OrFault config.now text.now (IsFound config.now text.now) result }
    ensures reads { reads_failed result ≡ 0 }
    ensures writes { writes_failed result ≡ 0 }
{
    match widen(alloc, config, text, fewest_of(needed))? {
        Some(bounds) => Ok(Some(narrow(alloc, config, text, bounds)?)),
        None => Ok(None),
    }
}
