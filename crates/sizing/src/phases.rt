//! Whether a cycle is running.
ghost use Rattle.std.specs.Prelude.{◌≡◌};
ghost use Rattle.space.specs.Pace as pace;

use heap_model::phase::Phase;

/// Returns whether a cycle is running.
pub fn in_cycle(phase: Phase) -> bool
    ensures { result ≡ pace.in_cycle phase }
{
    !phase.is_idle()
}
