//! The effect of a quantum on the cycle that it found.
ghost use Rattle.std.specs.Prelude.{◌≡◌, true};
ghost use Rattle.nodes.specs.Copies.{copies_in};
ghost use Rattle.trace.specs.Observing.{IsMark};
ghost use Rattle.trace.specs.Steps.{Step};
ghost use Rattle.inspector.specs.Log.{IsQuantumEffect};
ghost use Rattle.inspector.specs.Steps.{is_quantum};

use machine::Heap;
use nodes::Copies;
use sizing::in_cycle;
use trace::Mark;

/// The effect of a quantum on the cycle that it found.
#[derive(Clone, Copy, Debug, PartialEq, Eq)]
pub struct QuantumEffect {
    /// Whether it found one running.
    pub works: bool,
    /// Whether it ended the sweep.
    pub ends_sweep: bool,
    /// Whether it ended the cycle.
    pub ends_cycle: bool,
    /// The units that it spent on the cycle.
    pub units: u64,
}

impl QuantumEffect {
    /// Returns the effect of a quantum, from the collector's mark before it and the heap after it.
    pub fn between(before: &Mark, heap: &Heap) -> QuantumEffect
        ensures { (s : Step) → is_quantum s.event ≡ true → IsMark s.before.heap before.now → s.after.heap ≡ heap.now
            → IsQuantumEffect s result }
    {
        let works = in_cycle(before.phase);
        let after = heap.phase();
        QuantumEffect {
            works,
            ends_sweep: works && before.phase.awaits_sweep_end() && !after.awaits_sweep_end(),
            ends_cycle: works && !in_cycle(after),
            units: if works {
                heap.units().saturating_sub(before.units)
            } else {
                0
            },
        }
    }

    /// Returns the copies in the heap, which are counted if the quantum ended a sweep or a cycle; else none.
    pub fn copies(&self, heap: &Heap) -> Copies
        ensures sweep { self.now.ends_sweep ≡ true → result ≡ copies_in heap.now.store }
        ensures cycle { self.now.ends_cycle ≡ true → result ≡ copies_in heap.now.store }
    {
        if self.ends_sweep || self.ends_cycle {
            return heap.copies();
        }
        Copies {
            objects: 0,
            parts: 0,
            old: 0,
        }
    }
}
