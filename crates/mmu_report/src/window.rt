//! The least that the mutators have of a window.
ghost use Rattle.std.specs.Prelude.{◌≡◌, ◌⊎◌, ◌↔◌, ◌+◌, ◌<◌, ◌≤◌, ◌^◌, IfSome, IsNone};
ghost use Rattle.quanta.specs.Intervals.{IsRising};
ghost use Rattle.mmu_report.specs.Utilisation.{IsLeast};

use crate::front::Front;
use quanta::Interval;

/// Returns the least, over all windows of `window` ticks within the first `span`, of the ticks of the window that lie
/// in no interval. None if there is no such window, or it has no tick.
///
/// This is minimum mutator utilisation (Cheng and Blelloch, 2001). It tries only windows that start at 0, start with an
/// interval, or end at the span: any other has no fewer such ticks than one of these. The windows' starts go up over
/// the intervals, and so do their ends, each once. So the time is linear in the number of intervals, whatever the
/// window and the span. It takes no memory.
pub fn least_mutator(intervals: &[Interval], span: u64, window: u64) -> Option<u64>
    requires { IsRising intervals.now }
    ensures none { IsNone result ↔ ((window ≡ 0) ⊎ (span < window)) }
    ensures least { IfSome result (IsLeast intervals.now span window) }
    ensures part { IfSome result (λ least. (0 < window) × (least ≤ window)) }
{
    if window == 0 || span < window {
        return None;
    }
    Some(least_within(intervals, span - window, window))
}

/// Returns the least share of the windows that start at `last` or before.
fn least_within(intervals: &[Interval], last: u64, window: u64) -> u64
    requires rising { IsRising intervals.now }
    requires fits { last + window < 2 ^ 64 }
    ensures least { IsLeast intervals.now (last + window) window result }
    ensures part { result ≤ window }
{
    let mut ends = Front::new(intervals);
    let mut least = window - ends.covered_below(window);
    let mut covered = 0;
    let mut reached = 0;
    for interval in intervals {
        if last < interval.start {
            break;
        }
        let taken = ends.covered_below(interval.start + window) - covered;
        least = least.min(window - taken);
        covered += interval.end - interval.start;
        reached = interval.end;
    }
    if reached <= last {
        let taken = ends.covered_below(last + window) - covered;
        least = least.min(window - taken);
    }
    least
}
