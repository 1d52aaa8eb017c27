//! The least ticks that a schedule promises the mutators, and their share of a window.
ghost use Rattle.std.specs.Prelude.{◌≡◌, ◌+◌, ◌*◌, ◌/◌, ◌<◌, ◌≤◌};
ghost use Rattle.mmu_report.specs.Utilisation.{bound_of};

/// Returns the least number of ticks of a window that the mutators have, if each quantum of the collector takes
/// `collector_ticks` and the mutators have `mutator_ticks` before the next. A window has a number of whole periods, and
/// the mutators have their ticks of each. A quantum may take the first ticks of the rest.
pub fn bound(collector_ticks: u32, mutator_ticks: u32, window: u64) -> u64
    requires { 0 < collector_ticks + mutator_ticks }
    ensures bound { result ≡ bound_of collector_ticks mutator_ticks window }
    ensures within { result ≤ window }
{
    let collector = u64::from(collector_ticks);
    let mutator = u64::from(mutator_ticks);
    let period = mutator + collector;
    let periods = window / period;
    let rest = window - period * periods;
    mutator * periods + rest.saturating_sub(collector)
}

/// Returns the mutators' share of a window in thousandths, rounded down.
pub fn permille(least: u64, window: u64) -> u64
    requires some { 0 < window }
    requires part { least ≤ window }
    ensures share { result ≡ 1000 * least / window }
    ensures within { result ≤ 1000 }
{
    (1000 * u128::from(least) / u128::from(window)) as u64
}
