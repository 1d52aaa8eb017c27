//! Plans are kept.
ghost use Rattle.std.specs.Prelude.{◌≡◌};
ghost use Rattle.metronome_c.specs.Figures.{TellsFound};
ghost use Rattle.metronome_c.specs.Keeping.{work_told, work_in_turn, work_of, Keeps};
ghost use Rattle.metronome_c.specs.Opened.{held_in};

use crate::figures::{found_in, tell};
use crate::metronome::Metronome;
use crate::planning::MetronomeFlow;
use crate::status::Status;
use paced::Figures;

/// The work that the collector did because the plan required it.
#[repr(C)]
#[derive(Clone, Copy, Debug, PartialEq, Eq)]
pub struct MetronomeWork {
    pub quanta: u64,
    pub cycles: u64,
    pub most_quanta: u64,
}

impl MetronomeWork {
    /// Returns a pacer's figures, as C sees them.
    pub(crate) fn from_figures(figures: Figures) -> MetronomeWork
        ensures { result ≡ work_told figures }
    {
        MetronomeWork {
            quanta: figures.quanta,
            cycles: figures.cycles,
            most_quanta: figures.most_quanta,
        }
    }
}

/// Makes the heap keep a plan from here on: before each new object the collector works as much as the plan requires.
#[unsafe(no_mangle)]
pub extern "C" fn metronome_keep(heap: &mut Metronome, flow: &MetronomeFlow) -> u32
    ensures { Keeps (held_in heap.old) flow.now (held_in heap.new) result }
{
    let found = heap.ask(|own| own.keep(flow), |_member| Err(Status::IsShared));
    Status::of_outcome(found_in(found)).number()
}

/// Returns the work for a plan, if there is a turn, and a plan is kept.
fn worked(told: Option<Option<Figures>>) -> Result<MetronomeWork, Status>
    ensures { result ≡ work_in_turn told }
{
    match told {
        Some(Some(figures)) => Ok(MetronomeWork::from_figures(figures)),
        Some(None) => Err(Status::NoPlan),
        None => Err(Status::Outside),
    }
}

/// Stores the work that the collector did because the plan required it, since it is kept.
#[unsafe(no_mangle)]
pub extern "C" fn metronome_kept(heap: &mut Metronome, work: &mut MetronomeWork) -> u32
    ensures { TellsFound work_of (held_in heap.old) (held_in heap.new) (work.old, work.new) result }
{
    let found = heap.ask(
        |own| worked(Some(own.figures())),
        |member| worked(member.figures()),
    );
    tell(work, found_in(found))
}
