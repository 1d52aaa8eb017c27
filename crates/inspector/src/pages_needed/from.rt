//! From how many pages on a pace fits.
ghost use Rattle.space.specs.Fitting.{pace_in};
ghost use Rattle.inspector.specs.NeededReport.{IsFrom};

use size_classes::{Config, MOST_PAGES};
use space::{Pace, pace_needs};

/// Returns the least number of pages from which on a pace fits in each number that a configuration file may ask for,
/// with all else as the configuration has it. None if it doesn't fit in the most. With more pages a cycle takes more
/// quanta, so a pace may fit in some number and not in a greater one.
pub fn fits_from(config: &Config, pace: &Pace) -> Option<u32>
    ensures { IsFrom config.now (pace_in pace.now) result }
{
    let mut from = None;
    for pages in 1..MOST_PAGES + 1 {
        let needed = pace_needs(config, pace, pages).pages;
        from = if needed <= u128::from(pages) {
            from.or(Some(pages))
        } else {
            None
        };
    }
    from
}
