//! The cycles of a run so far.
ghost use Rattle.std.specs.Prelude.{◌≡◌, true, false, ◌++◌, ◌∷◌, [], List, IfOk, OnOk};
ghost use Rattle.heap_model.specs.Event.{Course};
ghost use Rattle.trace.specs.Observing.{IsMark};
ghost use Rattle.trace.specs.Steps.{Step};
ghost use Rattle.inspector.specs.Steps.{begins, is_quantum};
ghost use Rattle.inspector.specs.Cycles.{AreCycles};
ghost use Rattle.inspector.specs.Log.{IsQuantumEffect, AreCounted, IsOpenIn, IsLog};

use crate::cycles::cycle::{Cycle, Cycles};
use crate::cycles::open::{Base, Open};
use crate::cycles::turn::QuantumEffect;
use graph_heap::NoMemory;
use machine::{Heap, Recorded};
use nodes::Copies;
use std::alloc::Global;
use trace::Mark;

/// The cycles of a run so far: those that another followed, and the last one.
#[derive(Drop)]
pub struct Log {
    pub(crate) closed: Vec<Cycle>,
    pub(crate) last: Option<Open>,
    pub(crate) base: Base,
}

impl Log {
    /// Makes the log before the first step.
    pub fn new(alloc: Global) -> Log
        ensures { (now : Course) → IsLog [] now result }
    {
        Log {
            closed: Vec::new(alloc),
            last: None,
            base: Base::new(),
        }
    }

    /// Returns the cycle that is open after one more quantum.
    fn open_after(&self, turn: &QuantumEffect, copies: &Copies, recorded: &Recorded) -> Option<Open>
        ensures { (steps : List Step) (s : Step) → IsOpenIn steps s.before self.now.closed.items self.now.last
            → begins s ≡ false → IsQuantumEffect s turn.now → AreCounted s copies.now → s.after ≡ recorded.now.course
            → IsOpenIn (steps ++ s ∷ []) s.after self.now.closed.items result }
    {
        match self.last {
            Some(cycle) => Some(cycle.after(turn, copies, recorded)),
            None => None,
        }
    }

    /// Notes a quantum, before which the collector was at this mark.
    pub(crate) fn quantum(&mut self, before: &Mark, recorded: &Recorded)
        ensures { (steps : List Step) (s : Step) → IsLog steps s.before self.old → is_quantum s.event ≡ true
            → IsMark s.before.heap before.now → s.after ≡ recorded.now.course
            → IsLog (steps ++ s ∷ []) s.after self.new }
    {
        let turn = QuantumEffect::between(before, recorded.heap());
        let copies = turn.copies(recorded.heap());
        let place = recorded.history().len();
        self.base = self.base.after(&turn, &copies, place);
        self.last = self.open_after(&turn, &copies, recorded);
    }

    /// Closes the last cycle, if there is one: another follows it, or the run ends, at this heap.
    pub(crate) fn close(&mut self, heap: &Heap) -> Result<(), NoMemory>
        ensures cycles { OnOk result ((steps : List Step) (now : Course) → IsLog steps now self.old
            → now.heap ≡ heap.now → AreCycles steps self.new.closed.items) }
        ensures base { self.new.base ≡ self.old.base }
    {
        match self.last {
            Some(cycle) => {
                self.closed.push(cycle.closed(heap))?;
                Ok(())
            }
            None => Ok(()),
        }
    }

    /// Notes that a line begins a cycle.
    pub(crate) fn begin_at(&mut self, line: u64, recorded: &Recorded) -> Result<(), NoMemory>
        ensures { OnOk result ((steps : List Step) (s : Step) → IsLog steps s.before self.old → begins s ≡ true
            → s.line ≡ line → s.before ≡ recorded.now.course → IsLog (steps ++ s ∷ []) s.after self.new) }
    {
        self.close(recorded.heap())?;
        self.last = Some(Open::new(line, &self.base, recorded));
        Ok(())
    }

    /// Returns the cycles of a run that ends at this heap; the last one is still running, or no other follows it.
    pub fn cycles(mut self, heap: &Heap) -> Result<Cycles, NoMemory>
        ensures { IfOk result (λ cycles. (steps : List Step) (now : Course) → IsLog steps now self → now.heap ≡ heap.now
            → AreCycles steps cycles.items.items) }
    {
        self.close(heap)?;
        Ok(Cycles { items: self.closed })
    }
}
