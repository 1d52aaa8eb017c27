//! Observers of a run while it is played.
ghost use Rattle.std.specs.Prelude.{◌≡◌, ◌<◌, length, OnErr, OnOk};
ghost use Rattle.trace.specs.Steps.{Step, IsCommand, IsBegin, IsQuantum};
ghost use Rattle.trace.specs.Observing.{Run, after_line, IsMark, SeesStep};

use graph_heap::{Entry, NoMemory};
use heap_model::phase::Phase;
use machine::{Heap, Recorded};

/// The state of a heap's collector: its phase, and the units of the cycle.
#[derive(Clone, Copy, Debug, PartialEq, Eq)]
pub struct Mark {
    pub phase: Phase,
    pub units: u64,
}

impl Mark {
    /// Returns the present state of a heap's collector.
    #[inline(always)]
    pub fn from_heap(heap: &Heap) -> Mark
        ensures { IsMark heap.now result }
    {
        Mark {
            phase: heap.phase(),
            units: heap.units(),
        }
    }
}

/// An observer of a run. It gets each event while the lines are played, and changes nothing of the run. But if memory
/// is refused to it, the run ends.
pub trait Observer {
    /// The condition on an observer that has seen a run.
    ghost has_seen: { Run → Self → Type 0 };

    /// Whether memory may be refused to it.
    ghost may_be_refused: { Type 0 };

    /// A command was done, and has this entry.
    fn command_done(&mut self, entry: &Entry) -> Result<(), NoMemory>
        ensures seen { OnOk result ((s : Step) → IsCommand entry.now s → SeesStep has_seen s self.old self.new) }
        ensures err { OnErr result may_be_refused };

    /// The line of this number will begin a cycle, or find one running. The heap is that before the line.
    fn begins(&mut self, number: u64, recorded: &Recorded) -> Result<(), NoMemory>
        ensures seen { OnOk result ((s : Step) → IsBegin number recorded.now.course s
            → SeesStep has_seen s self.old self.new) }
        ensures err { OnErr result may_be_refused };

    /// A quantum of this budget was done. Before it the collector had the state `before`.
    fn quantum_done(&mut self, before: &Mark, budget: u32, recorded: &Recorded)
        ensures seen { (s : Step) → IsQuantum budget s → IsMark s.before.heap before.now
            → s.after ≡ recorded.now.course → SeesStep has_seen s self.old self.new };

    /// The line of this number, which is that of an event, was done.
    fn line_done(&mut self, number: u64, recorded: &Recorded) -> Result<(), NoMemory>
        requires { (run : Run) × has_seen run self.old × (length run.moments < number) }
        ensures seen { OnOk result ((run : Run) → has_seen run self.old → run.now ≡ recorded.now.course
            → has_seen (after_line run number) self.new) }
        ensures err { OnErr result may_be_refused };
}

/// Observes nothing: a run that is played in silence.
impl Observer for () {
    ghost has_seen = { λ run self. Unit {0} };

    ghost may_be_refused = { ⊥ };

    #[inline(always)]
    fn command_done(&mut self, _entry: &Entry) -> Result<(), NoMemory> {
        Ok(())
    }

    #[inline(always)]
    fn begins(&mut self, _number: u64, _recorded: &Recorded) -> Result<(), NoMemory> {
        Ok(())
    }

    #[inline(always)]
    fn quantum_done(&mut self, _before: &Mark, _budget: u32, _recorded: &Recorded) {}

    #[inline(always)]
    fn line_done(&mut self, _number: u64, _recorded: &Recorded) -> Result<(), NoMemory> {
        Ok(())
    }
}
