//! Phases as C sees them.
ghost use Rattle.std.specs.Prelude.{◌≡◌};
ghost use Rattle.metronome_c.specs.Collecting as collecting;

use heap_model::phase::Phase;

/// Returns the number of a phase, without how far it has come.
pub(crate) fn phase_number(phase: Phase) -> u32
    ensures { result ≡ collecting.phase_number phase }
{
    match phase {
        Phase::Idle => 0,
        Phase::Roots { .. } => 1,
        Phase::Marking { .. } => 2,
        Phase::Sweeping { .. } => 3,
        Phase::Moving(_) => 4,
    }
}
