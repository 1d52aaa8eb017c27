//! The fields of a heap.
ghost use Rattle.std.specs.Prelude.{◌≡◌, ◌+◌, ◌<◌, ◌^◌, IfOk};
ghost use Rattle.heap_model.specs.Opening.{IsOpening};
ghost use Rattle.heap_model.specs.Settings.{settings_of, settings_by};

use crate::grey::Grey;
use crate::nodes::Nodes;
use graph_heap::NoMemory;
use heap_model::phase::Phase;
use roots::Roots;
use size_classes::Config;
use std::alloc::Global;

/// The fields of a heap. Each step of the collector and each write of a mutator borrows them all. `state_of` is the
/// heap for which they stand, and `AreHeapFields` their invariant between two steps.
#[derive(Drop)]
pub struct HeapFields {
    pub config: Config,
    pub nodes: Nodes,
    pub roots: Roots,
    /// The identity that the next object gets.
    pub next: u64,
    pub phase: Phase,
    /// The units of work spent since the last cycle began.
    pub units: u64,
    /// The colour of a marked block.
    pub mark_parity: bool,
    pub grey: Grey,
}

impl HeapFields {
    ghost use Rattle.nodes.specs.HeapFields.{state_of, AreHeapFields};

    /// Returns a heap of free pages, with null roots and no object, and memory for all that it will ever hold. Refuses
    /// only for lack of memory.
    pub fn new(alloc: Global, config: &Config) -> Result<HeapFields, NoMemory>
        ensures heap { IfOk result AreHeapFields }
        ensures opening { IfOk result (λ a. IsOpening (state_of a)) }
        ensures settings { IfOk result (λ a. settings_of (state_of a) ≡ settings_by config.now) }
    {
        let nodes = Nodes::new(alloc, config.pages)?;
        let roots = Roots::new(alloc, config)?;
        let grey = Grey::new(alloc, config.mutators)?;
        Ok(HeapFields {
            config: *config,
            nodes,
            roots,
            next: 1,
            phase: Phase::Idle,
            units: 0,
            mark_parity: false,
            grey,
        })
    }

    /// Charges a cycle units of work, after which the collector stands at this place of a phase.
    pub fn charge(&mut self, cost: u32, phase: Phase)
        requires { self.old.units + cost < 2 ^ 64 }
        ensures { self.new ≡ record self.old { phase = phase; units = self.old.units + cost } }
    {
        self.phase = phase;
        self.units += cost as u64;
    }
}
