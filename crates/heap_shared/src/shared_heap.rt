//! The heap that members share, with its log, its cycles, and its pacer if it keeps a plan.
ghost use Rattle.std.specs.Prelude.{◌≡◌, ◌<◌, ◌%◌, [], IfOk, IsSome, length, None};
ghost use Rattle.std.specs.Option.{option_map};
ghost use Rattle.std.specs.Fn.{FnOnceReturnsAt, FnOnceReturnsAtMut};
ghost use Rattle.graph_heap.specs.declared.command.Command.TheVariants as commands;
ghost use Rattle.heap_model.specs.Event as done;
ghost use Rattle.machine.specs.Headline.{AlwaysHolds};
ghost use Rattle.machine.specs.Recorded.{begin_done, quantum_done};
ghost use Rattle.paced.specs.Cycles.{no_cycles};
ghost use Rattle.paced.specs.Logged.{event_of};
ghost use Rattle.paced.specs.Pacing.{MakesNothing};
ghost use Rattle.paced.specs.Rooms.{no_figures};
ghost use Rattle.heap_shared.specs.Methods.{IsMethodOf};
ghost use Rattle.heap_shared.specs.Past.{IsLed};
ghost use Rattle.heap_shared.specs.Ring.{IsAsAsked, GoesBy, Makes, PreparesBy, TouchesBy, figures_of, entry_ago};

use crate::fault::NotPrepared;
use crate::log::HeapLog;
use crate::pacing;
use graph_heap::{Command, NoMemory, Reply, Shape};
use machine::{BudgetOutOfRange, Busy, Heap, Spent};
use paced::{AbovePlan, Cycle, Cycles, Figures, Log, Logged, Pacer, Plan};
use size_classes::Config;
use std::alloc::Global;
use std::marker::Model;

/// The wishes for a shared heap: its configuration, how many entries its ring has room for, and the plan that it keeps, if any.
/// The caller must see to it that the plan fits (`paced::flow_fits`).
#[derive(Clone, Copy, Debug, PartialEq, Eq)]
pub struct SharedConfig {
    pub config: Config,
    pub ring: usize,
    pub plan: Option<Plan>,
}

/// A heap with its log, its cycles, and its pacer if it keeps a plan. Contracts see the heap with the history of its commands,
/// its cycles and its pacer. They also see the events that led to it from a heap that was just made. The ring has the last of
/// these events, up to its capacity.
pub struct SharedHeap {
    heap: Heap,
    cycles: Cycles,
    pacer: Option<Pacer>,
    log: HeapLog,
}

impl Drop for SharedHeap {
    // It is one call, as the drop of a heap.
    fn drop(self) {
        let SharedHeap {
            heap: _,
            cycles: _,
            pacer: _,
            log: _,
        } = self;
    }
}

impl Model for SharedHeap {
    ghost use Rattle.heap_shared.specs.Past.{course_of, IsLed};
    ghost use Rattle.heap_shared.specs.Ring.{Ringed};

    ghost Value = { Ringed };

    ghost view = { λ a. record {
      course = course_of a.heap a.log.past;
      events = a.log.past.events;
      ring = a.log.kept;
      cycles = a.cycles;
      pacer = a.pacer;
    } };

    ghost invariant = { λ a. IsLed a.log.past.events (course_of a.heap a.log.past) };
}

impl SharedHeap {
    /// Makes a new heap, at which nothing was done. Refused only for lack of memory.
    pub fn new(alloc: Global, asked: &SharedConfig) -> Result<SharedHeap, NoMemory>
        ensures asked { IfOk result (λ r. IsAsAsked asked.now r) }
        ensures events { IfOk result (λ r. r.events ≡ []) }
        ensures cycles { IfOk result (λ r. r.cycles ≡ no_cycles) }
        ensures figures { IfOk result (λ r. figures_of r ≡ option_map (λ plan. no_figures) asked.now.plan) }
    {
        let heap = Heap::new(alloc, &asked.config)?;
        let log = HeapLog::new(alloc, asked.ring)?;
        Ok(SharedHeap {
            heap,
            cycles: Cycles::NONE,
            pacer: pacing::asked(&asked.config, asked.plan),
            log,
        })
    }

    /// Does a command of a mutator that makes no object, by the heap's method for it, and returns the reply.
    #[inline(always)]
    pub fn call_by<F: FnOnce(&mut Heap) -> Reply>(
        &mut self,
        mutator: u32,
        command: Command,
        method: F,
    ) -> Reply
        requires callable { F.IsAlwaysCallable method }
        requires does { IsMethodOf mutator command (FnOnceReturnsAtMut F.FnOnce method) }
        requires nothing { MakesNothing command }
        ensures goes { GoesBy self.old (done.Command_done mutator command result) self.new }
        ensures pacer { self.new.pacer ≡ self.old.pacer }
    {
        let reply = method(&mut self.heap);
        self.log.enter_command(mutator, command, reply);
        reply
    }

    /// Makes an object for a mutator, and returns the reply. If the heap keeps a plan, the collector first works as much as the
    /// plan requires for the object, and no more. If the object has more words than the plan has for a whole cycle, it does
    /// nothing.
    #[inline(always)]
    pub fn make(&mut self, mutator: u32, dst: u32, shape: Shape) -> Result<Reply, AbovePlan>
        ensures { Makes self.old mutator (commands.New dst shape) result self.new }
    {
        match &self.pacer {
            Some(_) => self.make_paid(mutator, dst, shape),
            None => Ok(self.make_now(mutator, dst, shape)),
        }
    }

    /// Does the same for a heap that keeps a plan.
    #[inline(never)]
    fn make_paid(&mut self, mutator: u32, dst: u32, shape: Shape) -> Result<Reply, AbovePlan>
        requires { IsSome self.old.pacer }
        ensures { Makes self.old mutator (commands.New dst shape) result self.new }
    {
        let Some(pacer) = &mut self.pacer else {
            unreachable!()
        };
        pacer.pay_for(&mut self.heap, &mut self.cycles, &mut self.log, shape)?;
        let reply = self.heap.make(mutator, dst, shape);
        self.log
            .enter_command(mutator, Command::New { dst, shape }, reply);
        Ok(reply)
    }

    /// Does the same for a heap that keeps no plan.
    #[inline(always)]
    fn make_now(&mut self, mutator: u32, dst: u32, shape: Shape) -> Reply
        requires { self.old.pacer ≡ None }
        ensures goes { GoesBy self.old (done.Command_done mutator (commands.New dst shape) result) self.new }
        ensures pacer { self.new.pacer ≡ None }
    {
        let reply = self.heap.make(mutator, dst, shape);
        self.log
            .enter_command(mutator, Command::New { dst, shape }, reply);
        reply
    }

    /// Does at most one piece of the work that the plan requires for `words` words, and returns how many are left. If the heap
    /// keeps no plan, or the words are more than the plan has for a whole cycle, it does nothing.
    pub fn prepare(&mut self, words: u64) -> Result<u64, NotPrepared>
        ensures { PreparesBy self.old words result self.new }
    {
        let Some(pacer) = &mut self.pacer else {
            return Err(NotPrepared::NoPlan);
        };
        match pacer.prepare(&mut self.heap, &mut self.cycles, &mut self.log, words) {
            Ok(left) => Ok(left),
            Err(AbovePlan) => Err(NotPrepared::AbovePlan),
        }
    }

    /// Touches the first `pages` pages, or all if there are fewer, if no event was done yet. Else it returns false, and does
    /// nothing.
    pub fn touch(&mut self, pages: usize) -> bool
        ensures { TouchesBy pages self.old result self.new }
    {
        if !self.log.is_empty() {
            return false;
        }
        self.heap.touch(pages);
        true
    }

    /// Returns the length of the log, modulo 2^64.
    #[inline(always)]
    pub fn count(&self) -> u64
        ensures { result ≡ length self.now.events % 18446744073709551616 }
    {
        self.log.count()
    }

    /// Returns the entry of the log that was entered `ago` entries ago, 1 for the last, if the ring has it.
    pub fn entry_ago(&self, ago: usize) -> Option<Logged>
        ensures entry { option_map event_of result ≡ entry_ago self.now.ring self.now.events ago }
        ensures within { self.now.ring < 9223372036854775808 }
    {
        self.log.entry_ago(ago)
    }

    /// Returns what `look` finds in the heap.
    pub fn inspect<T, F: FnOnce(&Heap) -> T + Drop>(&self, look: F) -> T
        requires { F.IsAlwaysCallable look }
        ensures { FnOnceReturnsAt F.FnOnce look self.now.course.heap result }
    {
        look(&self.heap)
    }

    /// Returns the last cycle that ended.
    pub fn last_cycle(&self) -> Cycle
        ensures { result ≡ self.now.cycles.ended }
    {
        self.cycles.ended
    }

    /// Returns the work that the collector did because the plan required it, if the heap keeps one.
    pub fn figures(&self) -> Option<Figures>
        ensures { result ≡ figures_of self.now }
    {
        match &self.pacer {
            Some(pacer) => Some(pacer.figures()),
            None => None,
        }
    }

    /// Begins a cycle of the collector, unless one is running.
    pub fn begin(&mut self) -> Result<(), Busy>
        ensures goes { GoesBy self.old (begin_done result) self.new }
        ensures figures { figures_of self.new ≡ figures_of self.old }
    {
        let told = pacing::begin(&mut self.pacer, &mut self.heap, &mut self.cycles);
        self.log.enter(Logged::from_begin(told));
        told
    }

    /// Spends units of a budget on the cycle that is running.
    pub fn quantum(&mut self, budget: u32) -> Result<Spent, BudgetOutOfRange>
        ensures goes { GoesBy self.old (quantum_done budget result) self.new }
        ensures figures { figures_of self.new ≡ figures_of self.old }
    {
        let told = pacing::quantum(&mut self.pacer, &mut self.heap, &mut self.cycles, budget);
        self.log.enter(Logged::from_quantum(budget, told));
        told
    }

    /// States the promises of the type. It does nothing.
    pub fn promise(&self)
        ensures headline { AlwaysHolds self.now.course }
        ensures led { IsLed self.now.events self.now.course }
    {
        let _log = &self.log;
    }
}
