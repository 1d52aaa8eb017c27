//! Intervals of ticks.
ghost use Rattle.std.specs.Prelude.{◌≡◌, None};
ghost use Rattle.std.specs.List.{last_or};

/// The ticks that a quantum of the collector takes: from `start` on, and below `end`.
#[derive(Clone, Copy, Debug, PartialEq, Eq)]
pub struct Interval {
    /// The first of its ticks.
    pub start: u64,
    /// The first tick after it.
    pub end: u64,
}

/// Returns the last of the intervals.
pub(crate) fn last_of(intervals: &[Interval]) -> Option<Interval>
    ensures { result ≡ last_or None intervals.now }
{
    intervals.last().copied()
}
