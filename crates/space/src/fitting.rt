//! Whether a configuration has enough pages, so that no new object is refused for lack of space.
ghost use Rattle.std.specs.Prelude.{◌≡◌, ◌+◌, ◌*◌, ◌≤◌, ◌↔◌, IsTrue};
ghost use Rattle.size_classes.specs.Cycle.{swept_units, moving_units};
ghost use Rattle.space.specs.Fitting.{pace_in, spare_in, below_in, moved_quanta_at, unmoved_quanta_at};
ghost use Rattle.space.specs.Fitting.{IsNeeded, FitsIn, IsLeast};
ghost use Rattle.space.specs.Pace.{demand_of};
ghost use Rattle.space.specs.Space.{space_for};
ghost use Rattle.size_classes.specs.declared.config.TheConstants.{MOST_HEAP_PAGES};

use crate::pace::{MOST_QUANTA, MOST_UNMOVED_QUANTA, Pace};
use size_classes::{CLASSES, Config, LEAST_BUDGET, MOST_BLOCKS, MOST_PAGES, PAGE_WORDS};

/// Returns how many pages may be left sparse: as many as a cycle may empty, and none if blocks are never moved.
pub fn spare(config: &Config) -> u32
    ensures { result ≡ spare_in config.now }
{
    if config.defrag_below == 0 {
        0
    } else {
        config.defrag_pages
    }
}

/// Returns below how many free pages moving follows a sweep; 0 if no page may be emptied.
pub fn below(config: &Config) -> u32
    ensures { result ≡ below_in config.now }
{
    if config.defrag_pages == 0 {
        0
    } else {
        config.defrag_below
    }
}

/// Returns the units that roots, marking and sweeping spend at most, in a heap of the configuration with this many pages.
fn swept(config: &Config, pages: u32) -> u64
    requires { pages ≤ MOST_HEAP_PAGES }
    ensures swept { result ≡ swept_units (config.now.mutators * config.now.slots + config.now.statics) pages }
    ensures within { result ≤ 2_700_000_000 }
{
    let count = u64::from(pages);
    let roots = u64::from(config.root_cells());
    let arena = u64::from(PAGE_WORDS) * count;
    let most = u64::from(MOST_BLOCKS);
    roots + arena + (most + 1) * count + (most + 4)
}

/// Returns the most units that moving spends on this many pages, of which a cycle may empty `emptied`.
fn moving(pages: u32, emptied: u32) -> u64
    requires pages { pages ≤ MOST_HEAP_PAGES }
    requires emptied { emptied ≤ MOST_HEAP_PAGES }
    ensures moving { result ≡ moving_units pages emptied }
    ensures within { result ≤ 1_102_000_000_000 }
{
    let count = u64::from(pages);
    let arena = u64::from(PAGE_WORDS) * count;
    let looks = (u64::from(emptied) + CLASSES as u64) * count;
    looks + arena + 1
}

/// Returns the most quanta of the schedule that a cycle takes, in a heap of the configuration with this many pages, of
/// which it may empty `emptied`. Quanta that end in moving may leave a part of their budgets.
pub fn moved_quanta(config: &Config, pages: u32, emptied: u32) -> u64
    requires pages { pages ≤ MOST_HEAP_PAGES }
    requires emptied { emptied ≤ MOST_HEAP_PAGES }
    ensures quanta { result ≡ moved_quanta_at config.now pages emptied }
    ensures within { (1 ≤ result) × (result ≤ MOST_QUANTA) }
{
    let budget = u64::from(config.budget());
    let left = u64::from(LEAST_BUDGET - 1);
    let moving = moving(pages, emptied);
    let ended = moving / (budget - left) + 1;
    (swept(config, pages) + moving + left * ended) / budget + 1
}

/// Returns the quanta that a cycle takes at most up to its sweep's end, or as a whole if moving never begins: each spends
/// its whole budget.
pub fn unmoved_quanta(config: &Config, pages: u32) -> u64
    requires { pages ≤ MOST_HEAP_PAGES }
    ensures quanta { result ≡ unmoved_quanta_at config.now pages }
    ensures within { (1 ≤ result) × (result ≤ MOST_UNMOVED_QUANTA) }
{
    swept(config, pages) / u64::from(config.budget()) + 1
}

/// The needs of a pace in a heap of a configuration with this many pages.
#[derive(Clone, Copy, Debug, PartialEq, Eq)]
pub struct Needs {
    /// The pages.
    pub pages: u128,
    /// The most quanta of the schedule that a cycle takes; the pages are calculated from them.
    pub quanta: u64,
}

impl Needs {
    /// Returns the needs of a pace if a cycle takes this many quanta: with `sparse` pages that may be left sparse for
    /// each class, and `free` others that stay free.
    fn of(pace: &Pace, quanta: u64, sparse: u32, free: u32) -> Needs
        requires { quanta ≤ MOST_QUANTA }
        ensures pages { result.pages ≡ space_for (demand_of (pace_in pace.now) quanta) sparse + free }
        ensures quanta { result.quanta ≡ quanta }
    {
        Needs {
            pages: pace.pages(quanta, sparse) + u128::from(free),
            quanta,
        }
    }
}

/// Returns the needs of a pace in a heap of a configuration with this many pages, in the way that takes fewer. One way
/// counts the pages that moving may leave sparse; the other counts as many free pages as moving begins below. In the
/// second way moving never begins, and fewer quanta suffice for a cycle.
pub fn pace_needs(config: &Config, pace: &Pace, pages: u32) -> Needs
    requires { pages ≤ MOST_HEAP_PAGES }
    ensures { IsNeeded config.now (pace_in pace.now) pages result }
{
    let unmoved = Needs::of(pace, unmoved_quanta(config, pages), 0, below(config));
    let quanta = moved_quanta(config, pages, config.defrag_pages);
    let moved = Needs::of(pace, quanta, spare(config), 0);
    if unmoved.pages <= moved.pages {
        unmoved
    } else {
        moved
    }
}

/// Returns whether a pace takes no more than this many pages in a heap that has this many.
fn fits_in(config: &Config, pace: &Pace, pages: u32) -> bool
    requires { pages ≤ MOST_HEAP_PAGES }
    ensures { IsTrue result ↔ FitsIn config.now (pace_in pace.now) pages }
{
    pace_needs(config, pace, pages).pages <= u128::from(pages)
}

/// Returns whether the pages of a configuration are as many as a pace takes.
pub fn pace_fits(config: &Config, pace: &Pace) -> bool
    ensures { IsTrue result ↔ FitsIn config.now (pace_in pace.now) config.now.pages }
{
    fits_in(config, pace, config.pages)
}

/// Returns the least number of pages in which a pace fits, with all else as the configuration has it. None if it fits
/// in no number of pages that a configuration file may ask for.
pub fn least_pages(config: &Config, pace: &Pace) -> Option<u32>
    ensures { IsLeast config.now (pace_in pace.now) result }
{
    for pages in 1..MOST_PAGES + 1 {
        if fits_in(config, pace, pages) {
            return Some(pages);
        }
    }
    None
}
