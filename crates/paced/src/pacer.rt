//! A pacer of a heap that its caller lends.
ghost use Rattle.std.specs.Prelude.{◌≡◌, ◌⊎◌, ℕ, ◌+◌, ◌<◌, ◌*◌, ◌≤◌, true, false, max};
ghost use Rattle.heap_model.specs.declared.phase.Phase.{Phase};
ghost use Rattle.heap_model.specs.Event.{Cycle_begun, Quantum_done};
ghost use Rattle.heap_model.specs.Spent.{cycle_limit};
ghost use Rattle.space.specs.Pace.{in_cycle};
ghost use Rattle.machine.specs.Collecting.{Begins, Spends};
ghost use Rattle.machine.specs.Recorded.{begin_done, quantum_done};
ghost use Rattle.paced.specs.Cycles.{cycles_after, EndsOrSpends};
ghost use Rattle.paced.specs.Logged.{Enters};
ghost use Rattle.paced.specs.Pacing.{paced_by, state_by, shape_words, KeepsAgreeing, MayAsk, Paced, PaysUnless, Counted};
ghost use Rattle.paced.specs.Rooms.{first_pacer};
ghost use Rattle.paced.specs.Working.{DoesPiece, work_left};
ghost use Rattle.paced.specs.Bounds.{pieces_left, PreparesUnless};

use crate::asking::words_of_shape;
use crate::cycles::Cycles;
use crate::figures::Figures;
use crate::log::Log;
use crate::logged::Logged;
use crate::plan::Plan;
use graph_heap::Shape;
use machine::{BudgetOutOfRange, Busy, Heap, Spent};
use size_classes::Config;
use std::marker::Model;
use thiserror::Error;

/// The blocks of the new object have more words than the plan has for a whole cycle.
#[derive(Clone, Copy, Debug, PartialEq, Eq, Error)]
#[error("object above the words of a cycle")]
pub struct AbovePlan;

/// A plan, and the counts that it needs. It paces one heap, which its caller lends to each call with the heap's cycles. Each
/// call that makes an object, begins a cycle or spends a quantum on that heap must go through the pacer. It takes no memory.
/// Contracts see the plan, the budget of a quantum, the counts and the figures.
#[derive(Drop)]
pub struct Pacer {
    plan: Plan,
    /// The budget of a quantum, in units.
    budget: u32,
    /// Words of blocks that were asked for since the last cycle began.
    words: u64,
    /// Quanta of that budget or a greater one that were done since then.
    quanta: u64,
    figures: Figures,
}

impl Model for Pacer {
    ghost use Rattle.heap_model.specs.Event.{IsBudget};
    ghost use Rattle.paced.specs.Pacing.{PacerView};

    ghost Value = { PacerView };

    ghost view = { λ a. record {
      counts = record { plan = a.plan; budget = a.budget; words = a.words; quanta = a.quanta };
      figures = a.figures;
    } };

    ghost invariant = { λ a. IsBudget a.budget };
}

impl Pacer {
    /// Returns a pacer for a heap of a configuration that was just made. Its quanta have the configuration's budget. The caller
    /// must check that the plan fits (`flow_fits`): if it doesn't, objects may be refused for lack of space.
    pub fn new(config: &Config, plan: Plan) -> Pacer
        ensures { result ≡ first_pacer (config.now.collector_ticks * config.now.rate) plan }
    {
        Pacer {
            plan,
            budget: config.budget(),
            words: 0,
            quanta: 0,
            figures: Figures::NONE,
        }
    }

    /// Returns the work that the collector did because the pacer required it.
    pub fn figures(&self) -> Figures
        ensures { result ≡ self.now.figures }
    {
        self.figures
    }

    /// Returns whether this many words may be asked for now.
    fn allows(&self, heap: &Heap, words: u64) -> bool
        ensures yes { result ≡ true → MayAsk (state_by self.now heap.now) words }
        ensures no { result ≡ false → MayAsk (state_by self.now heap.now) words → ⊥ }
        ensures behind { result ≡ false → words ≤ self.now.counts.plan.cycle_words
            → (in_cycle heap.now.phase ≡ true) ⊎ (0 < self.now.counts.words) }
        ensures within { heap.now.units ≤ cycle_limit heap.now }
    {
        let idle = heap.phase().is_idle();
        if words == 0 {
            return true;
        }
        let after = u128::from(self.words) + u128::from(words);
        if after > u128::from(self.plan.cycle_words) {
            return false;
        }
        if idle {
            return true;
        }
        let due = (u128::from(self.quanta) + 1) * u128::from(self.plan.quantum_words);
        after <= due
    }

    /// Counts that a cycle has begun.
    fn count_begin(&mut self)
        ensures { Counted self.old Cycle_begun self.new }
    {
        self.words = 0;
        self.quanta = 0;
    }

    /// Counts that a quantum of this budget was done.
    fn count_quantum(&mut self, budget: u32)
        ensures { (units : ℕ) (phase : Phase) → Counted self.old (Quantum_done budget units phase) self.new }
    {
        if budget >= self.budget {
            self.quanta = self.quanta.saturating_add(1);
        }
    }

    /// Begins a cycle, or spends a quantum on the cycle that is running. Returns whether it began one.
    fn work<L: Log>(&mut self, heap: &mut Heap, cycles: &mut Cycles, log: &mut L) -> bool
        requires { heap.old.units ≤ cycle_limit heap.old }
        ensures piece { (p : DoesPiece (paced_by self.old heap.old cycles.old) result
            (paced_by self.new heap.new cycles.new)) × L.enters log.old p.event log.new }
        ensures figures { self.new.figures ≡ self.old.figures }
        ensures agrees { KeepsAgreeing heap.old heap.new }
        ensures less { (in_cycle heap.old.phase ≡ true) ⊎ (0 < self.old.counts.words)
            → work_left (state_by self.new heap.new) < work_left (state_by self.old heap.old) }
    {
        let budget = self.budget;
        match cycles.begin(heap) {
            Ok(()) => {
                log.enter(Logged::Begun);
                self.count_begin();
                true
            }
            Err(_busy) => {
                let spent = cycles.quantum(heap, budget);
                log.enter(Logged::from_quantum(budget, spent));
                self.count_quantum(budget);
                false
            }
        }
    }

    /// Makes the collector work until this many words may be asked for, and counts them. If they are more than a whole cycle
    /// has, nothing is done.
    fn pay<L: Log>(
        &mut self,
        heap: &mut Heap,
        cycles: &mut Cycles,
        log: &mut L,
        words: u64,
    ) -> Result<(), AbovePlan>
        ensures { PaysUnless (λ es. Enters L.enters log.old es log.new) (paced_by self.old heap.old cycles.old) words result
            (paced_by self.new heap.new cycles.new) }
    {
        if words > self.plan.cycle_words {
            return Err(AbovePlan);
        }
        let mut quanta = 0u64;
        let mut begun = 0u64;
        while !self.allows(heap, words) {
            let began = self.work(heap, cycles, log);
            begun = begun.saturating_add(u64::from(began));
            quanta = quanta.saturating_add(u64::from(!began));
        }
        self.figures = self.figures.with_work(quanta, begun);
        self.words += words;
        Ok(())
    }

    /// Makes the collector work as much as the plan requires for a new object of this shape, and no more. It counts the
    /// object's words, and the caller then makes the object on the heap. The log gets the events of this work. If the object
    /// has more words than a whole cycle has, nothing is done.
    pub fn pay_for<L: Log>(
        &mut self,
        heap: &mut Heap,
        cycles: &mut Cycles,
        log: &mut L,
        shape: Shape,
    ) -> Result<(), AbovePlan>
        ensures { PaysUnless (λ es. Enters L.enters log.old es log.new) (paced_by self.old heap.old cycles.old)
            (shape_words shape) result (paced_by self.new heap.new cycles.new) }
    {
        let words = words_of_shape(&shape);
        self.pay(heap, cycles, log, words)
    }

    /// Returns the most pieces of work that are left for this many words, if they may not be asked for yet.
    fn pieces_left(&self, heap: &Heap, words: u64) -> u64
        ensures { result ≡ pieces_left (state_by self.now heap.now) words }
    {
        let each = self.plan.quantum_words.max(1);
        let more = words.saturating_sub(1);
        if heap.phase().is_idle() {
            return (more / each).saturating_add(1);
        }
        let due = (u128::from(self.words) + u128::from(more)) / u128::from(each);
        let most = due.min(u128::from(u64::MAX)) as u64;
        most.saturating_sub(self.quanta)
    }

    /// Returns the most pieces that are left: none exactly if the words may be asked for.
    fn left(&self, heap: &Heap, words: u64) -> u64
        ensures ready { result ≡ 0 → MayAsk (state_by self.now heap.now) words }
        ensures due { 0 < result → MayAsk (state_by self.now heap.now) words → ⊥ }
        ensures told { 0 < result → result ≡ max (pieces_left (state_by self.now heap.now) words) 1 }
    {
        if self.allows(heap, words) {
            return 0;
        }
        self.pieces_left(heap, words).max(1)
    }

    /// Does one piece of the work that the plan requires for this many words, if any is due: it begins a cycle or spends one
    /// quantum. Returns how many pieces are left at most, if the plan lasts and leaves room for the words. If none is left,
    /// objects of no more words in all are then made without work, until the program itself begins a cycle. It counts no words.
    /// If the words are more than a whole cycle has, it does nothing, and returns `AbovePlan`.
    pub fn prepare<L: Log>(
        &mut self,
        heap: &mut Heap,
        cycles: &mut Cycles,
        log: &mut L,
        words: u64,
    ) -> Result<u64, AbovePlan>
        ensures prepares { PreparesUnless (λ es. Enters L.enters log.old es log.new)
            (paced_by self.old heap.old cycles.old) words result (paced_by self.new heap.new cycles.new) }
        ensures paced { Paced (state_by self.old heap.old) (state_by self.new heap.new) }
    {
        if self.plan.cycle_words < words {
            return Err(AbovePlan);
        }
        if self.allows(heap, words) {
            return Ok(0);
        }
        let began = self.work(heap, cycles, log);
        self.figures = self.figures.with_work(u64::from(!began), u64::from(began));
        Ok(self.left(heap, words))
    }

    /// Begins a cycle, sooner than the plan requires it. Live objects must then be within the flow. It is refused while a cycle
    /// is running, and then nothing changes.
    pub fn begin(&mut self, heap: &mut Heap, cycles: &mut Cycles) -> Result<(), Busy>
        ensures begins { Begins heap.old heap.new result }
        ensures agrees { KeepsAgreeing heap.old heap.new }
        ensures cycles { cycles.new ≡ cycles_after (begin_done result) heap.old heap.new cycles.old }
        ensures counted { Counted self.old (begin_done result) self.new }
        ensures paced { Paced (state_by self.old heap.old) (state_by self.new heap.new) }
    {
        cycles.begin(heap)?;
        self.count_begin();
        Ok(())
    }

    /// Spends units of a budget on the cycle that is running, besides the plan's own quanta. It pays for words if its budget is
    /// the plan's or greater. It is refused outside `LEAST_BUDGET` to `MOST_BUDGET`, and then nothing changes.
    pub fn quantum(
        &mut self,
        heap: &mut Heap,
        cycles: &mut Cycles,
        budget: u32,
    ) -> Result<Spent, BudgetOutOfRange>
        ensures spends { Spends heap.old budget heap.new result }
        ensures ends { EndsOrSpends budget result }
        ensures agrees { KeepsAgreeing heap.old heap.new }
        ensures cycles { cycles.new ≡ cycles_after (quantum_done budget result) heap.old heap.new cycles.old }
        ensures counted { Counted self.old (quantum_done budget result) self.new }
        ensures paced { Paced (state_by self.old heap.old) (state_by self.new heap.new) }
    {
        let spent = cycles.quantum(heap, budget)?;
        self.count_quantum(budget);
        Ok(spent)
    }
}
