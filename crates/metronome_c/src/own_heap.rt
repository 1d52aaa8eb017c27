//! A heap of its own, with its plan.
ghost use Rattle.std.specs.Prelude.{◌≡◌, ◌↔◌, IsTrue};
ghost use Rattle.std.specs.Option.{option_map};
ghost use Rattle.paced.specs.Pacing.{shape_words};
ghost use Rattle.graph_heap.specs.declared.command.Command.TheVariants as commands;
ghost use Rattle.machine.specs.Plan.{Steps};
ghost use Rattle.metronome_c.specs.OwnHeap.{PaysHeld, AfterPaying};
ghost use Rattle.metronome_c.specs.Steps.{StepsTold};
ghost use Rattle.metronome_c.specs.Collecting.{BeginsHeld, BeginsTold, SpendsTold};
ghost use Rattle.metronome_c.specs.Keeping.{IsUnused, KeepsHeld, KeepsTold};
ghost use Rattle.metronome_c.specs.Preparing.{PreparesHeld};
ghost use Rattle.metronome_c.specs.Touching.{TouchesTold};

use crate::collector::{QuantumSpent, begun, spent};
use crate::planning::MetronomeFlow;
use crate::status::Status;
use graph_heap::{Reply, Shape};
use machine::{Busy, Heap};
use paced::{Cycles, Figures, NoLog, Pacer};
use size_classes::Config;

/// A heap, the configuration that it was made of, its pacer if it keeps a plan, and its cycles.
pub struct OwnHeap {
    pub heap: Heap,
    pub config: Config,
    pub pacer: Option<Pacer>,
    pub cycles: Cycles,
}

impl Drop for OwnHeap {
    // One call, as of a heap.
    fn drop(self) {
        let OwnHeap {
            heap: _,
            config: _,
            pacer: _,
            cycles: _,
        } = self;
    }
}

impl OwnHeap {
    /// Lets the collector work first as much as the plan requires for a new object of this shape, if one is kept, and counts
    /// the object's words. Returns false if they are more than the plan has for a whole cycle: then nothing is done.
    pub(crate) fn pays(&mut self, shape: Shape) -> bool
        ensures { PaysHeld self.old (shape_words shape) result self.new }
    {
        match &mut self.pacer {
            Some(pacer) => pacer
                .pay_for(&mut self.heap, &mut self.cycles, &mut NoLog, shape)
                .is_ok(),
            None => true,
        }
    }

    /// Makes an object of a shape for a mutator, and replies. If a plan is kept, its words are paid for first. If they are more
    /// than the plan has for a whole cycle, nothing is done.
    #[inline(always)]
    pub(crate) fn make(&mut self, mutator: u32, dst: u32, shape: Shape) -> Result<Reply, Status>
        ensures { AfterPaying (shape_words shape) (λ h r k. Steps h mutator (commands.New dst shape) r k) self.old result self.new }
    {
        if self.pacer.is_some() {
            return self.make_paid(mutator, dst, shape);
        }
        Ok(self.heap.make(mutator, dst, shape))
    }

    /// Does the same for a heap that keeps a plan. It is out of the way of heaps that keep none.
    #[cold]
    #[inline(never)]
    fn make_paid(&mut self, mutator: u32, dst: u32, shape: Shape) -> Result<Reply, Status>
        ensures { AfterPaying (shape_words shape) (λ h r k. Steps h mutator (commands.New dst shape) r k) self.old result self.new }
    {
        if !self.pays(shape) {
            return Err(Status::AbovePlan);
        }
        Ok(self.heap.make(mutator, dst, shape))
    }

    /// Describes the object of slot a for a mutator, and returns the reply.
    pub(crate) fn describe(&mut self, mutator: u32, a: u32) -> Result<Reply, Status>
        ensures { StepsTold self.old mutator (commands.Describe a) result self.new }
    {
        Ok(self.heap.describe(mutator, a))
    }

    /// Does at most one piece of the work that the plan requires for `words` words, and returns how many are left. Returns why
    /// nothing was done if no plan is kept, or if the words are more than the plan has for a whole cycle.
    pub(crate) fn prepare(&mut self, words: u64) -> Result<u64, Status>
        ensures { PreparesHeld self.old words result self.new }
    {
        let Some(pacer) = &mut self.pacer else {
            return Err(Status::NoPlan);
        };
        match pacer.prepare(&mut self.heap, &mut self.cycles, &mut NoLog, words) {
            Ok(left) => Ok(left),
            Err(_above) => Err(Status::AbovePlan),
        }
    }

    /// Begins a cycle, and returns the outcome.
    pub(crate) fn begin(&mut self) -> Result<(), Status>
        ensures { BeginsTold self.old result self.new }
    {
        begun(Some(self.begin_cycle()))
    }

    /// Begins a cycle.
    fn begin_cycle(&mut self) -> Result<(), Busy>
        ensures { BeginsHeld self.old result self.new }
    {
        match &mut self.pacer {
            Some(pacer) => pacer.begin(&mut self.heap, &mut self.cycles),
            None => self.cycles.begin(&mut self.heap),
        }
    }

    /// Spends units of a budget on the cycle that is running.
    pub(crate) fn quantum(&mut self, budget: u32) -> Result<QuantumSpent, Status>
        ensures { SpendsTold self.old budget result self.new }
    {
        let told = match &mut self.pacer {
            Some(pacer) => pacer.quantum(&mut self.heap, &mut self.cycles, budget),
            None => self.cycles.quantum(&mut self.heap, budget),
        };
        spent(Some(told))
    }

    /// Returns the figures of the pacer, if there is one.
    pub(crate) fn figures(&self) -> Option<Figures>
        ensures { result ≡ option_map (λ p. p.figures) self.now.pacer }
    {
        match &self.pacer {
            Some(pacer) => Some(pacer.figures()),
            None => None,
        }
    }

    /// Returns whether no page of the heap was used yet, and no cycle begun.
    fn is_unused(&self) -> bool
        ensures { IsTrue result ↔ IsUnused self.now.heap }
    {
        self.heap.phase().is_idle()
            && self.heap.units() == 0
            && self.heap.free_pages() == self.heap.pages()
    }

    /// Keeps a flow from here on, if it suits the heap's configuration and the heap is unused. Else nothing is done.
    pub(crate) fn keep(&mut self, flow: &MetronomeFlow) -> Result<(), Status>
        ensures { KeepsTold self.old flow.now result self.new }
    {
        if self.keeps(flow) {
            Ok(())
        } else {
            Err(Status::NoPlan)
        }
    }

    /// Does the same, and returns whether the flow is kept.
    fn keeps(&mut self, flow: &MetronomeFlow) -> bool
        ensures { KeepsHeld self.old flow.now result self.new }
    {
        if !self.is_unused() || !flow.suits(&self.config) {
            return false;
        }
        self.pacer = Some(Pacer::new(&self.config, flow.plan()));
        true
    }

    /// Touches the first pages, this many or all.
    pub(crate) fn touch(&mut self, pages: usize) -> Result<(), Status>
        ensures { TouchesTold self.old pages result self.new }
    {
        self.heap.touch(pages);
        Ok(())
    }
}
