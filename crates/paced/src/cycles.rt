//! Counts the cycles of a heap.
ghost use Rattle.std.specs.Prelude.{◌≡◌};
ghost use Rattle.machine.specs.Collecting.{Begins, Spends};
ghost use Rattle.machine.specs.Recorded.{begin_done, quantum_done};
ghost use Rattle.paced.specs.Cycles.{next_cycle, one_quantum_on, come_to, cycles_after, EndsOrSpends};
ghost use Rattle.paced.specs.Pacing.{KeepsAgreeing};

use machine::{BudgetOutOfRange, Busy, Heap, Spent};

/// A cycle: its number, from 1, its quanta, their units, and the most units of one. Quanta count if they found the cycle
/// running. Free pages are those when it began, and those after the last of its quanta. All zeros stand for no cycle. The
/// struct is laid out as in C.
#[repr(C)]
#[derive(Clone, Copy, Debug, PartialEq, Eq)]
pub struct Cycle {
    pub number: u64,
    pub quanta: u64,
    pub units: u64,
    pub longest: u64,
    pub free_before: u64,
    pub free_after: u64,
}

impl Cycle {
    /// Stands for no cycle.
    const NONE: Cycle = Cycle {
        number: 0,
        quanta: 0,
        units: 0,
        longest: 0,
        free_before: 0,
        free_after: 0,
    };

    /// Returns the next cycle, which has just begun.
    fn next(&self, heap: &Heap) -> Cycle
        ensures { result ≡ next_cycle self.now heap.now }
    {
        let free = heap.free_pages() as u64;
        Cycle {
            number: self.number.saturating_add(1),
            free_before: free,
            free_after: free,
            ..Cycle::NONE
        }
    }

    /// Returns the cycle after one more quantum, which spent this many units.
    fn one_quantum_on(&self, units: u32, heap: &Heap) -> Cycle
        ensures { result ≡ one_quantum_on self.now units heap.now }
    {
        Cycle {
            quanta: self.quanta.saturating_add(1),
            units: heap.units(),
            longest: self.longest.max(u64::from(units)),
            free_after: heap.free_pages() as u64,
            ..*self
        }
    }
}

/// The cycle that began last, as far as it has gone, and the last cycle that ended.
#[derive(Clone, Copy, Debug, PartialEq, Eq)]
pub struct Cycles {
    pub begun: Cycle,
    pub ended: Cycle,
}

impl Cycles {
    /// No cycle has begun yet.
    pub const NONE: Cycles = Cycles {
        begun: Cycle::NONE,
        ended: Cycle::NONE,
    };

    /// Begins a cycle of a heap, and counts it.
    pub fn begin(&mut self, heap: &mut Heap) -> Result<(), Busy>
        ensures begins { Begins heap.old heap.new result }
        ensures agrees { KeepsAgreeing heap.old heap.new }
        ensures counted { self.new ≡ cycles_after (begin_done result) heap.old heap.new self.old }
    {
        heap.begin()?;
        self.begun = self.begun.next(heap);
        Ok(())
    }

    /// Spends units of a budget on the cycle that is running in a heap, if one is, and counts the quantum.
    pub fn quantum(&mut self, heap: &mut Heap, budget: u32) -> Result<Spent, BudgetOutOfRange>
        ensures spends { Spends heap.old budget heap.new result }
        ensures ends { EndsOrSpends budget result }
        ensures agrees { KeepsAgreeing heap.old heap.new }
        ensures counted { self.new ≡ cycles_after (quantum_done budget result) heap.old heap.new self.old }
    {
        let was_idle = heap.phase().is_idle();
        let spent = heap.quantum(budget)?;
        if !was_idle {
            let cycle = self.begun.one_quantum_on(spent.units, heap);
            self.come_to(cycle, heap);
        }
        Ok(spent)
    }

    /// Stores the cycle that began last. It has also ended if none is running any more.
    fn come_to(&mut self, cycle: Cycle, heap: &Heap)
        ensures { self.new ≡ come_to self.old cycle heap.now }
    {
        self.begun = cycle;
        if heap.phase().is_idle() {
            self.ended = cycle;
        }
    }
}
