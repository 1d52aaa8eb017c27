//! The heap.
ghost use Rattle.std.specs.Prelude.{◌≡◌, ◌<◌, ◌≤◌, ◌*◌, length, min, IfOk};
ghost use Rattle.graph_heap.specs.Graph.{Graph};
ghost use Rattle.graph_heap.specs.Effect.{reply_of, next_of};
ghost use Rattle.heap_model.specs.Opening.{IsOpening};
ghost use Rattle.heap_model.specs.Settings.{settings_of, settings_by};
ghost use Rattle.heap_model.specs.Agreement.{Agrees};
ghost use Rattle.heap_model.specs.Change.{DoesChange};
ghost use Rattle.heap_model.specs.Event.{change_by, room_for};
ghost use Rattle.nodes.specs.Touching.{touched};
ghost use Rattle.machine.specs.Plan.{CanCommit, CommitsEach};

use graph_heap::{Command, NoMemory, Reply, dispatch};
use nodes::HeapFields;
use size_classes::Config;
use std::alloc::Global;
use std::marker::Model;

mod answering;
mod collecting;
mod inspecting;
mod planning;
mod reading;
mod runs;
mod writing;

use planning::Plan;
use writing::do_write;

/// A heap of objects, with its roots. Contracts see the heap as it lies in words.
pub struct Heap {
    fields: HeapFields,
}

impl Drop for Heap {
    // Makes this one call. Otherwise the compiler writes a derived drop into each function that drops a heap, and
    // each is proved anew.
    fn drop(self) {
        let Heap { fields: _ } = self;
    }
}

impl Model for Heap {
    ghost use Rattle.heap_model.specs.State.{HeapState};
    ghost use Rattle.nodes.specs.HeapFields.{state_of, AreHeapFields};

    ghost Value = { HeapState };

    ghost view = { λ a. state_of a.fields };

    ghost invariant = { λ a. AreHeapFields a.fields };
}

impl Heap {
    /// Returns a heap of free pages with null roots and no object. The first `live` mutators are live. The heap gets
    /// memory for all that it will ever hold, but touches no page yet. It is refused only for lack of memory.
    pub fn new(alloc: Global, config: &Config) -> Result<Heap, NoMemory>
        ensures opening { IfOk result IsOpening }
        ensures settings { IfOk result (λ h. settings_of h ≡ settings_by config.now) }
    {
        let fields = HeapFields::new(alloc, config)?;
        Ok(Heap { fields })
    }

    /// Touches the first `pages` pages, or all if there are fewer: clears the words of those that weren't touched
    /// before. Otherwise the first object that is made on a page clears its words. Nothing else changes, and nothing
    /// can be refused.
    pub fn touch(&mut self, pages: usize)
        ensures touched { self.new ≡ record self.old { store = touched self.old.store pages } }
        ensures there { 2048 * min pages (length self.new.store.pages) ≤ length self.new.store.words }
        ensures agrees { (g : Graph) → Agrees self.old g → Agrees self.new g }
    {
        self.fields.nodes.touch(pages);
    }

    /// Does a command of a mutator, and returns the reply. For each graph heap with which the heap agrees, the reply
    /// is that of the graph heap's step; there is room exactly if the heap has room for the parts of the new object.
    /// The heap agrees with the graph heap after the step. While roots are scanned or parts marked, a reference is
    /// recorded before it is overwritten.
    pub fn step(&mut self, mutator: u32, command: Command) -> Reply
        ensures reply { (g : Graph) → Agrees self.old g
            → result ≡ reply_of (room_for self.old command) g mutator command }
        ensures agrees { (g : Graph) → Agrees self.old g
            → Agrees self.new (next_of (room_for self.old command) g mutator command) }
        ensures does { (g : Graph) → Agrees self.old g
            → DoesChange self.old g (change_by (room_for self.old command) g mutator command) self.new }
    {
        dispatch!(Heap, self, mutator, command)
    }

    /// Does the write of a plan for a mutator, and returns the reply.
    #[inline(always)]
    fn commit(&mut self, mutator: u32, planned: Plan) -> Reply
        requires mutator { mutator < self.old.limits.mutators }
        requires planned { CanCommit self.old planned }
        ensures { CommitsEach self.old planned result self.new }
    {
        match planned {
            Ok(planned) => {
                do_write(&mut self.fields, mutator, &planned.write);
                planned.reply
            }
            Err(refusal) => Reply::Refused(refusal),
        }
    }
}
