//! The ticks that intervals have below a place that goes up.
ghost use Rattle.std.specs.Prelude.{◌≡◌, ℕ, ◌+◌, ◌<◌, ◌≤◌, ◌^◌};
ghost use Rattle.quanta.specs.Intervals.{IsRising};
ghost use Rattle.mmu_report.specs.Covered.{covered};

use quanta::Interval;

/// A front that goes up over intervals. It passes each of them once.
#[derive(Drop)]
pub struct Front<'a> {
    /// The intervals that aren't passed yet.
    ahead: &'a [Interval],
    /// The ticks of those that are.
    passed: u64,
}

impl<'a> Front<'a> {
    /// Returns a front before all intervals.
    pub fn new(intervals: &'a [Interval]) -> Front<'a>
        ensures ahead { result.ahead.now ≡ intervals.now }
        ensures passed { result.passed ≡ 0 }
    {
        Front {
            ahead: intervals,
            passed: 0,
        }
    }

    /// Returns how many ticks below a place lie in an interval, in a front that goes up to that place.
    pub fn covered_below(&mut self, place: u64) -> u64
        requires rising { IsRising self.old.ahead.now }
        requires fits { self.old.passed + covered self.old.ahead.now place < 2 ^ 64 }
        ensures covered { result ≡ self.old.passed + covered self.old.ahead.now place }
        ensures later { (x : ℕ) → place ≤ x
            → self.new.passed + covered self.new.ahead.now x ≡ self.old.passed + covered self.old.ahead.now x }
        ensures rising { IsRising self.new.ahead.now }
    {
        while let Some((first, others)) = self.ahead.split_first() {
            if place < first.end {
                return self.passed + place.saturating_sub(first.start);
            }
            self.passed += first.end - first.start;
            self.ahead = others;
        }
        self.passed
    }
}
