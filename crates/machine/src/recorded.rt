//! A heap with its history.
ghost use Rattle.std.specs.Prelude.{◌≡◌, ◌⊎◌, ◌+◌, ◌<◌, ◌≤◌, [], ◌∷◌, length, IfOk, IsOk, OnErr, OnOk};
ghost use Rattle.graph_heap.specs.Graph.{opening};
ghost use Rattle.graph_heap.specs.History.{IsLegal};
ghost use Rattle.heap_model.specs.Agreement.{Agrees};
ghost use Rattle.heap_model.specs.Event.{present_of, Does};
ghost use Rattle.heap_model.specs.Event as done;
ghost use Rattle.heap_model.specs.declared.phase.Phase.TheVariants as phases;
ghost use Rattle.heap_model.specs.Opening.{IsOpening};
ghost use Rattle.heap_model.specs.Settings.{settings_of, settings_by};
ghost use Rattle.heap_model.specs.Spent.{cycle_limit};
ghost use Rattle.machine.specs.Headline.{AlwaysHolds};
ghost use Rattle.machine.specs.Space.{FindsSpace, FoundSpace};
ghost use Rattle.machine.specs.Recorded.{begin_done, quantum_done, RunsFront, commands_in, EachSweepEnds, EndsSoon, HoldsKept};

use crate::collector::{BudgetOutOfRange, Busy, Spent};
use crate::event::Event;
use crate::heap::Heap;
use graph_heap::{Command, Entry, NoMemory};
use size_classes::Config;
use std::alloc::Global;
use std::marker::Model;

/// A heap with the history of its commands and replies, which only grows. Contracts see both, the place in the
/// history at which the last cycle began, and for how many more entries there is memory. The history is always legal,
/// and the heap agrees with the graph heap to which the history leads. In idle and moving it holds exactly the kept
/// objects.
pub struct Recorded {
    heap: Heap,
    history: Vec<Entry>,
    place: usize,
}

impl Drop for Recorded {
    // Makes one call, for the reason that `Heap` gives.
    fn drop(self) {
        let Recorded {
            heap,
            history,
            place,
        } = self;
    }
}

impl Model for Recorded {
    ghost use Rattle.heap_model.specs.Event.{IsCourse};
    ghost use Rattle.machine.specs.Recorded.{RecordedHeap, recorded_of};

    ghost Value = { RecordedHeap };

    ghost view = { recorded_of };

    ghost invariant = { λ a. IsCourse (recorded_of a).course };
}

/// The receipt for a command: its entry in the history, and the place of that entry, from 0. Only `Recorded::call`
/// makes a receipt.
#[derive(Clone, Copy, Debug, PartialEq, Eq)]
pub struct Receipt {
    entry: Entry,
    place: usize,
}

impl Model for Receipt {
    ghost use Rattle.machine.specs.Recorded.{ReceiptView};

    ghost Value = { ReceiptView };

    ghost view = { λ r. record { entry = r.entry; place = r.place } };

    ghost inverse = { λ v. record { entry = v.entry; place = v.place } };
}

impl Receipt {
    /// Returns the entry: the mutator, the command and the reply.
    pub fn entry(&self) -> &Entry
        ensures { result.now ≡ self.now.entry }
    {
        &self.entry
    }

    /// Returns the place of the entry in the history, from 0.
    pub fn place(&self) -> usize
        ensures { result ≡ self.now.place }
    {
        self.place
    }
}

impl Recorded {
    /// Returns a new heap without history. It is refused only for lack of memory.
    pub fn new(alloc: Global, config: &Config) -> Result<Recorded, NoMemory>
        ensures heap { IfOk result (λ r. IsOpening r.course.heap) }
        ensures settings { IfOk result (λ r. settings_of r.course.heap ≡ settings_by config.now) }
        ensures history { IfOk result (λ r. r.course.history ≡ []) }
        ensures place { IfOk result (λ r. r.course.place ≡ 0) }
    {
        let heap = Heap::new(alloc, config)?;
        Ok(Recorded {
            heap,
            history: Vec::new(alloc),
            place: 0,
        })
    }

    /// Makes room for `entries` more entries: memory isn't refused to that many calls.
    pub fn reserve(&mut self, entries: usize) -> Result<(), NoMemory>
        ensures room { OnOk result (entries ≤ self.new.room) }
        ensures kept { self.old.room ≤ self.new.room }
        ensures course { self.new.course ≡ self.old.course }
    {
        self.history.reserve(entries)?;
        Ok(())
    }

    /// Does a command of a mutator, and enters it with its reply. It makes room for the entry first: if memory is
    /// refused, nothing has changed.
    #[inline(always)]
    pub fn call(&mut self, mutator: u32, command: Command) -> Result<Receipt, NoMemory>
        ensures entry { IfOk result (λ r. (r.entry.mutator ≡ mutator) × (r.entry.command ≡ command)) }
        ensures does { IfOk result (λ r. Does self.old.course
            (done.Command_done mutator command r.entry.reply) self.new.course) }
        ensures place { IfOk result (λ r. r.place ≡ length self.old.course.history) }
        ensures room { 0 < self.old.room → IsOk result }
        ensures left { self.old.room ≤ self.new.room + 1 }
        ensures err { OnErr result (self.new.course ≡ self.old.course) }
    {
        self.history.reserve(1)?;
        let reply = self.heap.step(mutator, command);
        let entry = Entry {
            mutator,
            command,
            reply,
        };
        let place = self.history.len();
        self.history.push_reserved(entry);
        Ok(Receipt { entry, place })
    }

    /// Begins a cycle at this place of the history, unless one is running. It takes no memory.
    pub fn begin(&mut self) -> Result<(), Busy>
        ensures does { Does self.old.course (begin_done result) self.new.course }
        ensures suffice { IsOk result → EndsSoon self.new.course }
        ensures room { self.new.room ≡ self.old.room }
    {
        self.heap.begin()?;
        self.place = self.history.len();
        Ok(())
    }

    /// Spends units of a budget on the running cycle. It takes no memory.
    pub fn quantum(&mut self, budget: u32) -> Result<Spent, BudgetOutOfRange>
        ensures does { Does self.old.course (quantum_done budget result) self.new.course }
        ensures swept { EachSweepEnds self.old.course }
        ensures ends { IfOk result (λ s. (s.phase ≡ phases.Idle) ⊎ (budget < s.units + 256)) }
        ensures room { self.new.room ≡ self.old.room }
    {
        self.heap.quantum(budget)
    }

    /// Does one event. A cycle or a budget may be refused: then the event changes nothing, and isn't an error.
    fn event(&mut self, event: Event) -> Result<(), NoMemory>
        ensures runs { RunsFront self.old.course (event ∷ []) self.new.course result }
        ensures room { commands_in (event ∷ []) ≤ self.old.room → IsOk result }
        ensures left { self.old.room ≤ self.new.room + commands_in (event ∷ []) }
    {
        match event {
            Event::Command { mutator, command } => {
                self.call(mutator, command)?;
            }
            Event::Begin => {
                let _on = self.begin();
            }
            Event::Quantum(budget) => {
                let _refused = self.quantum(budget);
            }
        }
        Ok(())
    }

    /// States the promises of the type, for all events that led here and all that are done next. It does nothing.
    pub fn promise(&self)
        ensures headline { AlwaysHolds self.now.course }
        ensures space { FindsSpace self.now.course }
        ensures found { FoundSpace self.now.course }
    {
        let _history = &self.history;
    }

    /// Does events one after the other, in any order. If memory is refused for the entry of a command, it stops, and that
    /// command isn't done. For all events, each reply is that of one sequential heap, which never moves or frees an object,
    /// at the command's place in one history that only grows. Each freed object is unreachable there. When a sweep ends, the
    /// heap holds exactly the objects that were reachable when its cycle began and those made since. A cycle ends soon. From
    /// a heap that was just made no reply is the refusal for lack of space if the events keep to a demand that fits its
    /// configuration, or to a pace that does (`space::pace_fits`). Nor is one if moving follows each sweep and may empty all
    /// pages, and the events keep to a budget of pages, whatever the sizes of the objects.
    pub fn run(&mut self, events: &[Event]) -> Result<(), NoMemory>
        ensures headline { AlwaysHolds self.old.course }
        ensures space { FindsSpace self.old.course }
        ensures runs { RunsFront self.old.course events.now self.new.course result }
        ensures room { commands_in events.now ≤ self.old.room → IsOk result }
    {
        self.promise();
        for event in events {
            self.event(*event)?;
        }
        Ok(())
    }

    /// Returns the heap.
    pub fn heap(&self) -> &Heap
        ensures heap { result.now ≡ self.now.course.heap }
        ensures allocated { HoldsKept self.now.course }
        ensures units { self.now.course.heap.units ≤ cycle_limit self.now.course.heap }
    {
        &self.heap
    }

    /// Returns the history, from its first entry on.
    pub fn history(&self) -> &[Entry]
        ensures history { result.now ≡ self.now.course.history }
        ensures legal { IsLegal (opening self.now.course.heap.limits) self.now.course.history }
        ensures agrees { Agrees self.now.course.heap (present_of self.now.course) }
    {
        self.history.as_slice()
    }
}
