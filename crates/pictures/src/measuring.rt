//! The shares that the mutators had, and those that the schedule promises.
ghost use Rattle.std.specs.Prelude.{◌≡◌, ◌<◌, ◌↔◌, ◌⊎◌, IsNone, IfOk, IfSome};
ghost use Rattle.pictures.specs.Utilisation.{span_of, IsShare, AreShares};

use crate::share::{Share, WINDOWS};
use mmu_report::{bound, least_mutator, permille};
use quanta::Schedule;
use size_classes::Config;
use std::alloc::{AllocError, Global};

/// Returns the shares of a window, or None if it is longer than the time that has passed, or has no tick.
fn share_of(config: &Config, schedule: &Schedule, window: u64) -> Option<Share>
    ensures none { IsNone result ↔ ((window ≡ 0) ⊎ (span_of schedule.now < window)) }
    ensures share { IfSome result (IsShare config.now schedule.now window) }
{
    let least = least_mutator(schedule.intervals(), schedule.span(), window)?;
    let bound = bound(config.collector_ticks, config.mutator_ticks, window);
    Some(Share {
        window,
        measured: permille(least, window),
        promised: permille(bound, window),
    })
}

/// Returns the shares of the windows that aren't longer than the time that has passed, the shortest window first.
pub(crate) fn shares(
    alloc: Global,
    config: &Config,
    schedule: &Schedule,
) -> Result<Vec<Share>, AllocError>
    ensures { IfOk result (λ shares. AreShares config.now schedule.now shares.items) }
{
    let mut shares = Vec::new(alloc);
    for window in WINDOWS {
        let Some(share) = share_of(config, schedule, window) else {
            return Ok(shares);
        };
        shares.push(share)?;
    }
    Ok(shares)
}
