//! The laws of a heap that represents two graph heaps, that at present and that when the last cycle
//! began. Each function does nothing: its contract is the law.
ghost use Rattle.std.specs.Prelude.{◌≡◌, ◌⊎◌, ℕ, ◌+◌, ◌<◌, ◌≤◌, true, false, length};
ghost use Rattle.graph_heap.specs.Graph.{Graph, opening};
ghost use Rattle.heap_model.specs.declared.phase.Phase.TheVariants as phases;
ghost use Rattle.heap_model.specs.Pages.{page_at};
ghost use Rattle.heap_model.specs.State.{HeapState};
ghost use Rattle.heap_model.specs.Written.{records};
ghost use Rattle.heap_model.specs.Agreement.{Agrees};
ghost use Rattle.heap_model.specs.Opening.{IsOpening};
ghost use Rattle.heap_model.specs.Action.{Action, Chain, begun};
ghost use Rattle.heap_model.specs.Swept.{IsSwept};
ghost use Rattle.heap_model.specs.Spent.{cycle_limit};
ghost use Rattle.heap_model.specs.Marks.{HasNoMark};
ghost use Rattle.heap_model.specs.Grey.{AreGrey};
ghost use Rattle.heap_model.specs.Represents.{Represents, is_sweeping};
ghost use Rattle.heap_model.specs.QuantumSpending.{NextCosts, QuantumSpends};
ghost use Rattle.heap_model.specs.Bound.{Quantum, AreQuanta, OneEnds, most_quanta};

/// A new heap represents the opening graph heap. A heap goes on to represent graph heaps through each action, each
/// chain of actions and each beginning of a cycle. It never spends more than a cycle may.
pub fn heaps_represent()
    ensures opening { (h : HeapState) → IsOpening h → 0 < length h.store.pages
        → Represents h (opening h.limits) (opening h.limits) }
    ensures begun { (h : HeapState) (present snapshot : Graph) → Represents h present snapshot → h.phase ≡ phases.Idle
        → Represents (begun h) present present }
    ensures action { (h after : HeapState) (cost : ℕ) (present snapshot : Graph) → Represents h present snapshot
        → Action h cost after → Represents after present snapshot }
    ensures chain { (h after : HeapState) (spent : ℕ) (present snapshot : Graph) → Represents h present snapshot
        → Chain h spent after → Represents after present snapshot }
    ensures limit { (h : HeapState) (present snapshot : Graph) → Represents h present snapshot
        → h.units ≤ cycle_limit h }
{}

/// The change out of sweeping leads to a heap whose allocated blocks are exactly the parts of the kept objects. None of
/// its pages is evacuating or a target.
pub fn sweeps_end()
    ensures { (h after : HeapState) (cost : ℕ) (present snapshot : Graph) → Represents h present snapshot
        → Action h cost after → is_sweeping h.phase ≡ true → is_sweeping after.phase ≡ false
        → IsSwept after present snapshot × ((k : ℕ) → HasNoMark (page_at after.store.pages k)) }
{}

/// After a cycle began, one of the first quanta ends in idle, whatever mutators do between them.
pub fn cycles_end()
    ensures { (h : HeapState) (k : ℕ) (quanta : ℕ → Quantum) → 256 ≤ k → AreQuanta h k (most_quanta h k) quanta
        → OneEnds (most_quanta h k) quanta }
{}

/// The cost of an action is fixed by the state before it, and is at most 256 units.
pub fn costs_are_told()
    ensures action { (h after : HeapState) (cost : ℕ) → Action h cost after → NextCosts h cost }
    ensures one { (h : HeapState) (a b : ℕ) → NextCosts h a → NextCosts h b → a ≡ b }
    ensures high { (h : HeapState) (cost : ℕ) (present snapshot : Graph) → Represents h present snapshot
        → NextCosts h cost
        → cost ≤ 256 }
{}

/// A quantum of a heap that represents graph heaps ends in idle, or leaves fewer than 256 units of its budget. In idle
/// it spends nothing, and nothing changes.
pub fn turns_end()
    ensures idle { (h after : HeapState) (budget spent : ℕ) → h.phase ≡ phases.Idle → QuantumSpends h budget after spent
        → (after ≡ h) × (spent ≡ 0) }
    ensures ends { (h after : HeapState) (budget spent : ℕ) (present snapshot : Graph) → Represents h present snapshot
        → QuantumSpends h budget after spent → (after.phase ≡ phases.Idle) ⊎ (budget < spent + 256) }
{}

/// The collector changes nothing that a caller can see: a heap that agrees with a graph heap agrees with it after each
/// chain of actions and each beginning of a cycle.
pub fn collecting_shows_nothing()
    ensures chain { (h after : HeapState) (spent : ℕ) (present snapshot g : Graph) → Represents h present snapshot
        → Chain h spent after → Agrees h g → Agrees after g }
    ensures begun { (h : HeapState) (present snapshot g : Graph) → Represents h present snapshot → h.phase ≡ phases.Idle
        → Agrees h g → Agrees (begun h) g }
{}

/// In roots and marking the grey parts are allocated and marked, and none is grey twice. They are no more than a
/// quarter of the arena's words, because a block takes at least four.
pub fn grey_parts_are_few()
    ensures { (h : HeapState) (present snapshot : Graph) → Represents h present snapshot → records h.phase ≡ true
        → AreGrey h }
{}

/// The limit of a cycle stays the same through each chain of actions.
pub fn limits_stay()
    ensures { (h after : HeapState) (spent : ℕ) → Chain h spent after → cycle_limit after ≡ cycle_limit h }
{}
