//! The sums of events, and the most that they needed.
ghost use Rattle.std.specs.Prelude.{◌≡◌, ◌<◌, ◌≤◌, ◌^◌, ◌↔◌, ◌⊎◌, ℕ, true, false, List, [], ◌∷◌, ◌++◌, length, IfOk, OnOk, IfSome, IsNone, IsTrue};
ghost use Rattle.graph_heap.specs.declared.command.Limits.{Limits as Bounds};
ghost use Rattle.graph_heap.specs.Graph.{root_cells};
ghost use Rattle.graph_heap.specs.Shape.{fits};
ghost use Rattle.size_classes.specs.Need.{needed};
ghost use Rattle.size_classes.specs.declared.config.TheConstants.{LEAST_BUDGET};
ghost use Rattle.graph_heap.specs.History.{IsEntryOf, after_entry};
ghost use Rattle.graph_heap.specs.Reaching.{AreReached};
ghost use Rattle.heap_model.specs.Event.{Course, Event, Command_done, Cycle_begun, Enters, Begins, IsCourse};
ghost use Rattle.heap_model.specs.ReachedFrom.{opened};
ghost use Rattle.heap_model.specs.Opening.{IsOpening};
ghost use Rattle.heap_model.specs.State.{HeapState};
ghost use Rattle.space.specs.Pace as pace;
ghost use Rattle.space.specs.Demand.{asked_for, blocks_by};
ghost use Rattle.sizing.specs.Counts.{AreBlocks, IsTable, HasOver};
ghost use Rattle.sizing.specs.Meter.{AllFit, Asks, Allocates, Measures, Works};
ghost use Rattle.sizing.specs.Measured.{IsMeasured};

use crate::blocks::{Blocks, add, needed_by, none, raise, small_table, table};
use crate::measured::Measured;
use crate::most::Most;
use crate::phases::in_cycle;
use crate::season::Season;
use graph_heap::{Entry, Limits, NoMemory, Reference, Shape};
use heap_model::phase::Phase;
use space::Pace;
use std::alloc::Global;

/// The graph heap to which events lead, the blocks that its objects need, and the most that the events needed so far.
#[derive(Drop)]
pub struct Meter {
    graph: Reference,
    /// Whether a cycle is running.
    cycle_running: bool,
    season: Season,
    /// The blocks requested since the last beginning, or quantum of a cycle.
    asked: Blocks,
    live: Blocks,
    busy: Blocks,
    idle: Blocks,
    most: Most,
    /// The least budget of a quantum, in units.
    budget: Option<u32>,
}

/// Returns the blocks that an object of this shape needs, or none without a shape.
fn blocks_for(shape: Option<Shape>) -> Blocks
    ensures some { IfSome shape (λ s. fits s ≡ true → AreBlocks result (needed s)) }
    ensures none { IsNone shape → AreBlocks result (λ class. 0) }
{
    match shape {
        Some(shape) => needed_by(&shape),
        None => none(),
    }
}

/// Returns the lesser of two budgets, or the only one.
fn least_of(least: Option<u32>, budget: u32) -> u32
    ensures { (k : ℕ) → k ≤ result ↔ (IfSome least (λ n. k ≤ n) × (k ≤ budget)) }
{
    match least {
        Some(least) => least.min(budget),
        None => budget,
    }
}

impl Meter {
    /// Makes the meter before the first event.
    pub(crate) fn new(alloc: Global, limits: &Limits) -> Result<Meter, NoMemory>
        ensures { IfOk result (λ m. (h : HeapState) → IsOpening h → h.limits ≡ limits.now
            → Measures h.limits [] (opened h) m) }
    {
        let nothing = none();
        Ok(Meter {
            graph: Reference::new(alloc, limits)?,
            cycle_running: false,
            season: Season::new(),
            asked: nothing,
            live: nothing,
            busy: nothing,
            idle: nothing,
            most: Most::new(),
            budget: None,
        })
    }

    /// Returns whether a cycle is running.
    pub(crate) fn is_cycle_running(&self) -> bool
        ensures { result ≡ self.now.cycle_running }
    {
        self.cycle_running
    }

    /// Counts these blocks as requested.
    fn ask(&mut self, asked: &Blocks)
        ensures { Asks asked.now self.old self.new }
    {
        self.most.ask(&self.season, asked);
        add(&mut self.asked, asked);
        if self.cycle_running {
            raise(&mut self.busy, &self.asked);
        } else {
            raise(&mut self.idle, &self.asked);
        }
    }

    /// Notes that an object is allocated that needs these blocks.
    fn allocate(&mut self, blocks: &Blocks)
        ensures { Allocates blocks.now self.old self.new }
    {
        self.season.allocate(blocks);
    }

    /// Does an entry on the graph heap. Returns whether an object was allocated, and the blocks that the command
    /// requests, unless it is refused for another reason than lack of space.
    fn record(&mut self, entry: &Entry) -> Result<(bool, Blocks), NoMemory>
        ensures stepped { IsEntryOf self.old.graph entry.now
            → OnOk result (self.new ≡ record self.old { graph = after_entry self.old.graph entry.now }) }
        ensures same { OnOk result (self.new ≡ record self.old { graph = self.new.graph }) }
        ensures grows { IfOk result (λ told. IsTrue told.0 ↔
            (length self.old.graph.objects < length self.new.graph.objects)) }
        ensures asked { IfOk result (λ told. length self.old.graph.roots ≡ root_cells self.old.graph.limits
            → AreBlocks told.1 (asked_for self.old.graph entry.now.mutator entry.now.command)) }
    {
        let before = self.graph.count();
        let (_, shape) = self.graph.accepts_asking(entry)?;
        Ok((self.graph.count() > before, blocks_for(shape)))
    }

    /// Counts a command that was done, with this entry.
    pub(crate) fn command(&mut self, entry: &Entry) -> Result<(), NoMemory>
        ensures { OnOk result ((l : Bounds) (es : List Event) (r new : Course) → Measures l es r self.old → IsCourse r
            → Enters r entry.now.mutator entry.now.command entry.now.reply new
            → Measures l (es ++ Command_done entry.now.mutator entry.now.command entry.now.reply ∷ []) new self.new) }
    {
        let (is_allocated, asked) = self.record(entry)?;
        self.ask(&asked);
        if is_allocated {
            self.allocate(&asked);
        }
        Ok(())
    }

    /// Returns the blocks that the reachable objects need.
    fn reached(&self) -> Result<Blocks, NoMemory>
        ensures { IfOk result (λ blocks. AllFit self.now.graph → (ids : List ℕ) × AreReached self.now.graph ids
            × AreBlocks blocks (blocks_by self.now.graph ids)) }
    {
        let ids = self.graph.reached()?;
        let mut blocks = none();
        for id in ids.as_slice() {
            add(&mut blocks, &needed_by(&self.graph.shape(*id)));
        }
        Ok(blocks)
    }

    /// Notes that a cycle is begun.
    pub(crate) fn begun(&mut self) -> Result<(), NoMemory>
        ensures { OnOk result ((l : Bounds) (es : List Event) (r new : Course) → Measures l es r self.old → IsCourse r
            → Begins r new → Measures l (es ++ Cycle_begun ∷ []) new self.new) }
    {
        let live = self.reached()?;
        raise(&mut self.live, &live);
        self.most.begin(&live);
        self.season.begin(&live);
        self.asked = none();
        self.cycle_running = true;
        Ok(())
    }

    /// Notes that quanta are done, which end in this phase: the requested blocks are counted anew while a cycle runs.
    fn beat(&mut self, phase: Phase)
        ensures same { self.new ≡ record self.old { cycle_running = self.new.cycle_running; asked = self.new.asked } }
        ensures on { self.old.cycle_running ≡ true → (self.new.cycle_running ≡ pace.in_cycle phase)
            × AreBlocks self.new.asked (λ class. 0) }
        ensures off { self.old.cycle_running ≡ false → self.new ≡ self.old }
    {
        if self.cycle_running {
            self.asked = none();
            self.cycle_running = in_cycle(phase);
        }
    }

    /// Notes that quanta of a budget are done, one at least, of which the last ends in this phase.
    pub(crate) fn quanta(&mut self, budget: u32, phase: Phase)
        ensures { (l : Bounds) (es quanta : List Event) (r new : Course) → Measures l es r self.old → IsCourse r
            → Works budget quanta r new → new.heap.phase ≡ phase → Measures l (es ++ quanta) new self.new }
    {
        self.season.rest(phase);
        self.beat(phase);
        self.budget = Some(least_of(self.budget, budget));
    }

    /// Returns the pace of the greatest numbers, if it can be stated.
    fn pace(&self) -> Option<Pace>
        ensures some { IfSome result (λ p. IsTable (2 ^ 32) p.live self.now.live × IsTable (2 ^ 64) p.busy self.now.busy
            × IsTable (2 ^ 64) p.idle self.now.idle) }
        ensures none { IsNone result → HasOver (2 ^ 32) self.now.live ⊎ HasOver (2 ^ 64) self.now.busy
            ⊎ HasOver (2 ^ 64) self.now.idle }
    {
        Some(Pace {
            live: small_table(&self.live)?,
            busy: table(&self.busy)?,
            idle: table(&self.idle)?,
        })
    }

    /// Returns the most that the events needed.
    pub(crate) fn measured(&self) -> Measured
        requires { IfSome self.now.budget (λ least. LEAST_BUDGET ≤ least) }
        ensures { (l : Bounds) (es : List Event) (r : Course) → Measures l es r self.now → IsMeasured l es result }
    {
        Measured {
            needed: self.most.needed(),
            pace: self.pace(),
            budget: self.budget,
        }
    }
}
