//! The laws of a heap with its history, and of single actions of moving. Each function does nothing: its contract is
//! the law.
ghost use Rattle.std.specs.Prelude.{◌≡◌, ◌⊎◌, ℕ, Result};
ghost use Rattle.graph_heap.specs.declared.command.Command.{Command};
ghost use Rattle.graph_heap.specs.declared.command.Reply.{Reply};
ghost use Rattle.graph_heap.specs.Graph.{Graph};
ghost use Rattle.heap_model.specs.declared.phase.Phase.TheVariants as phases;
ghost use Rattle.heap_model.specs.declared.phase.Moving.{Moving};
ghost use Rattle.heap_model.specs.Action.{Action, KeepsBlocks};
ghost use Rattle.heap_model.specs.Event.{Course, Command_done, Does, IsCourse};
ghost use Rattle.heap_model.specs.Represents.{Represents};
ghost use Rattle.heap_model.specs.State.{HeapState};
ghost use Rattle.machine.specs.declared.collector.BudgetOutOfRange.{BudgetOutOfRange};
ghost use Rattle.machine.specs.declared.collector.Busy.{Busy};
ghost use Rattle.machine.specs.declared.collector.Spent.{Spent};
ghost use Rattle.machine.specs.Collecting.{Begins, Spends};
ghost use Rattle.machine.specs.Copies.{MakesOneOld};
ghost use Rattle.machine.specs.Headline.{AlwaysHolds};
ghost use Rattle.machine.specs.Plan.{Steps};
ghost use Rattle.machine.specs.Recorded.{begin_done, quantum_done};
ghost use Rattle.machine.specs.Space.{FindsSpace, FoundSpace};

/// States the promises of a heap with its history: if a course has the invariant that each event keeps, they hold of
/// it whatever events are done next.
pub fn courses_are_promised()
    ensures { (r : Course) → IsCourse r → AlwaysHolds r × FindsSpace r }
{}

/// Space sufficed for any events that led to a heap from one that was just made.
pub fn space_sufficed()
    ensures { (r : Course) → FoundSpace r }
{}

/// Each call of a `Heap` does one event, whatever history led to the heap. So the promises of a heap with its history
/// also hold if nobody keeps the history.
pub fn calls_are_events()
    ensures command { (r : Course) (m : ℕ) (c : Command) (answer : Reply) (after : HeapState) → IsCourse r
        → Steps r.heap m c answer after
        → (new : Course) × (new.heap ≡ after) × Does r (Command_done m c answer) new }
    ensures begin { (r : Course) (after : HeapState) (result : Result (Unit {0}) Busy) → Begins r.heap after result
        → (new : Course) × (new.heap ≡ after) × Does r (begin_done result) new }
    ensures quantum { (r : Course) (budget : ℕ) (after : HeapState) (result : Result Spent BudgetOutOfRange)
        → Spends r.heap budget after result → (new : Course) × (new.heap ≡ after)
        × Does r (quantum_done budget result) new }
{}

/// While blocks are moved, each action leaves all blocks as they are, or turns exactly one main copy into an old
/// copy.
pub fn moves_make_one_old()
    ensures { (h after : HeapState) (cost : ℕ) (present snapshot : Graph) (place : Moving)
        → Represents h present snapshot
        → h.phase ≡ phases.Moving place → Action h cost after → KeepsBlocks h.store after.store
        ⊎ MakesOneOld h.store after.store }
{}
