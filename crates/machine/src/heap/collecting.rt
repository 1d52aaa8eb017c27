//! The collector begins a cycle, and works on it in quanta.
ghost use Rattle.std.specs.Prelude.{◌≡◌, ◌⊎◌, ◌+◌, ◌<◌, ◌≤◌, [], IfOk};
ghost use Rattle.graph_heap.specs.Graph.{Graph};
ghost use Rattle.heap_model.specs.declared.phase.Phase.TheVariants as phases;
ghost use Rattle.heap_model.specs.Agreement.{Agrees};
ghost use Rattle.heap_model.specs.Spent.{cycle_limit};
ghost use Rattle.heap_model.specs.Represents.{Represents};
ghost use Rattle.heap_model.specs.QuantumSpending.{QuantumSpends};
ghost use Rattle.nodes.specs.Acting.{ActsIn};
ghost use Rattle.nodes.specs.Grey.{in_buffers, AreLinked};
ghost use Rattle.nodes.specs.HeapFields.{state_of, AreHeapFields};
ghost use Rattle.machine.specs.Collecting.{Begins, Spends};

use super::Heap;
use crate::collector::{BudgetOutOfRange, Busy, Spent};
use defrag::move_next;
use heap_model::phase::Phase;
use marker::{scan_parts, scan_roots};
use nodes::HeapFields;
use satb_barrier::flush_all;
use size_classes::{LEAST_BUDGET, MOST_BUDGET};
use sweeper::sweep_next;

/// Does the next actions of the collector, one or more of the same kind, if their units fit in the room that is left.
/// It returns whether it did some; if not, or if no cycle is running, nothing changes. The buffers must be empty.
fn act(heap: &mut HeapFields, room: u32) -> bool
    requires heap { AreHeapFields heap.old }
    requires buffers { in_buffers heap.old.grey.buffers ≡ [] }
    requires room { 0 < room }
    ensures acts { ActsIn heap.old room heap.new result }
    ensures buffers { heap.new.grey.buffers ≡ heap.old.grey.buffers }
    ensures linked { AreLinked heap.new.nodes heap.new.grey }
{
    match heap.phase {
        Phase::Idle => return false,
        Phase::Roots { next } => scan_roots(heap, next, room),
        Phase::Marking { part, cell } => scan_parts(heap, part, cell, room),
        Phase::Sweeping { page, block } => sweep_next(heap, page, block, room),
        Phase::Moving(place) => return move_next(heap, place, room),
    }
    true
}

/// Does actions while their units fit in the rest of a budget, until no cycle is running. It returns the units that
/// it spent. The buffers must be empty.
fn spend(heap: &mut HeapFields, budget: u32) -> u32
    requires heap { AreHeapFields heap.old }
    requires buffers { in_buffers heap.old.grey.buffers ≡ [] }
    ensures fields { AreHeapFields heap.new }
    ensures turn { QuantumSpends (state_of heap.old) budget (state_of heap.new) result }
{
    let before = heap.units;
    let end = before + budget as u64;
    while heap.units < end && act(heap, (end - heap.units) as u32) {}
    (heap.units - before) as u32
}

impl Heap {
    /// Returns the phase of the collector, with its progress. A heap always represents two graph heaps: that at
    /// present, and that when the last cycle began.
    pub fn phase(&self) -> Phase
        ensures phase { result ≡ self.now.phase }
        ensures represents { (present : Graph) × (snapshot : Graph) × Represents self.now present snapshot }
    {
        self.fields.phase
    }

    /// Returns the units of work spent since the last cycle began: at most the limit of a cycle.
    pub fn units(&self) -> u64
        ensures units { result ≡ self.now.units }
        ensures within { result ≤ cycle_limit self.now }
    {
        self.fields.units
    }

    /// Begins a cycle: it turns the mark parity, so that no block is marked. It costs no units. While a cycle is
    /// running it is refused, and nothing changes.
    pub fn begin(&mut self) -> Result<(), Busy>
        ensures begins { Begins self.old self.new result }
        ensures agrees { (g : Graph) → Agrees self.old g → Agrees self.new g }
    {
        if !self.fields.phase.is_idle() {
            return Err(Busy);
        }
        self.fields.mark_parity = !self.fields.mark_parity;
        self.fields.phase = Phase::Roots { next: 0 };
        self.fields.units = 0;
        Ok(())
    }

    /// Spends units of a budget. It puts all recorded parts into the list of grey parts, and then does the next
    /// action while its units fit in the rest, until no cycle is running. It never begins a cycle. A budget outside
    /// `LEAST_BUDGET` to `MOST_BUDGET` is refused, and nothing changes.
    pub fn quantum(&mut self, budget: u32) -> Result<Spent, BudgetOutOfRange>
        ensures spends { Spends self.old budget self.new result }
        ensures ends { IfOk result (λ s. (s.phase ≡ phases.Idle) ⊎ (budget < s.units + 256)) }
        ensures agrees { (g : Graph) → Agrees self.old g → Agrees self.new g }
    {
        if budget < LEAST_BUDGET || MOST_BUDGET < budget {
            return Err(BudgetOutOfRange);
        }
        flush_all(&mut self.fields);
        let units = spend(&mut self.fields, budget);
        Ok(Spent {
            units,
            phase: self.fields.phase,
        })
    }
}
