//! Laws of the mutators' share under a schedule. Each function does nothing: its contract is the law.
ghost use Rattle.std.specs.Prelude.{◌≡◌, ℕ, ◌+◌, ◌*◌, ◌<◌, ◌≤◌, List, Any};
ghost use Rattle.quanta.specs.declared.interval.Interval.{Interval};
ghost use Rattle.quanta.specs.Intervals.{IsSpaced};
ghost use Rattle.mmu_report.specs.Utilisation.{IsLeast, bound_of};

/// If intervals of c ticks have at least q ticks between them, the mutators have no fewer ticks of any window than the
/// bound.
pub fn bound_is_kept()
    ensures { (c q span window least : ℕ) (intervals : List Interval) → 0 < c + q → IsSpaced c q intervals
        → IsLeast intervals span window least → bound_of c q window ≤ least }
{}

/// The least of a window is exactly the bound, if one such window within the span begins with an interval, and in it
/// another interval begins at each period of c + q ticks.
pub fn bound_is_met()
    ensures { (c q span window least start : ℕ) (intervals : List Interval) → 0 < c + q → IsSpaced c q intervals
        → IsLeast intervals span window least
        → start + window ≤ span → ((j : ℕ) → start + j * (c + q) < start + window
        → Any (λ i. i.start ≡ start + j * (c + q)) intervals)
        → least ≡ bound_of c q window }
{}
