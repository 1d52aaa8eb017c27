//! The laws on which the space bound stands, of pages, blocks, actions and changes. Each function does
//! nothing: its contract is the law.
ghost use Rattle.std.specs.Prelude.{◌≡◌, ℕ, ◌+◌, ◌<◌, ◌≤◌, true, List, Option, length, drop, sum_by};
ghost use Rattle.graph_heap.specs.declared.command.Change.{Change};
ghost use Rattle.graph_heap.specs.Graph.{Graph, Object, changed, object_of};
ghost use Rattle.size_classes.specs.declared.class.TheConstants.{CLASSES};
ghost use Rattle.size_classes.specs.Need.{blocks_needed, needed};
ghost use Rattle.heap_model.specs.Pages.{Page, ArePages, has_room};
ghost use Rattle.heap_model.specs.Store.{Store};
ghost use Rattle.heap_model.specs.State.{HeapState};
ghost use Rattle.heap_model.specs.Taking.{Takes};
ghost use Rattle.heap_model.specs.Action.{Action};
ghost use Rattle.heap_model.specs.Marks.{AreClosed};
ghost use Rattle.heap_model.specs.Change.{DoesChange};
ghost use Rattle.heap_model.specs.Represents.{Represents};
ghost use Rattle.space.specs.Demand.{asked_by, blocks_of};
ghost use Rattle.heap_model.specs.Phases.{awaits_sweep_end};
ghost use Rattle.space.specs.Space.{pages_for};
ghost use Rattle.space.specs.Counts.{main_blocks, IsBounded};
ghost use Rattle.space.specs.Placement.{HasBoundedPages, IsTidy, KeepsOnly, KeepsShapes};

/// Pages that are within the bound for this many blocks of each class have room for more blocks, if these and the
/// allocated ones are together no more than that.
pub fn bounded_pages_have_room()
    ensures { (pages : List (Option Page)) (blocks need : ℕ → ℕ) (spare : ℕ) → ArePages pages
        → IsBounded pages blocks spare → pages_for blocks spare CLASSES ≤ length pages
        → ((class : ℕ) → class < CLASSES → main_blocks pages class + need class ≤ blocks class)
        → has_room pages need ≡ true }
{}

/// The blocks that an object's parts take leave pages within the bound, if they and the allocated blocks are no more
/// than its blocks of each class. Then as many more blocks are allocated.
pub fn taken_blocks_stay_bounded()
    ensures { (cells : ℕ) (at : ℕ → ℕ) (old : List (Option Page)) (parts : ℕ) (new : List (Option Page))
        (blocks : ℕ → ℕ) (spare : ℕ) → ArePages old → IsBounded old blocks spare
        → ((k : ℕ) → k < CLASSES → main_blocks old k + blocks_needed cells parts k ≤ blocks k)
        → Takes cells at old parts new
        → IsBounded new blocks spare × ((k : ℕ) → main_blocks new k ≡ main_blocks old k + blocks_needed cells parts k) }
{}

/// Each action of the collector keeps the pages within their bound.
pub fn actions_stay_bounded()
    ensures { (h after : HeapState) (cost : ℕ) (blocks : ℕ → ℕ) (spare : ℕ) → ArePages h.store.pages
        → AreClosed h.store.pages h.phase → HasBoundedPages h blocks spare → Action h cost after
        → HasBoundedPages after blocks spare }
{}

/// Each action of the collector keeps blocks at their proper places; and until the sweep's end no identity comes back
/// that was gone.
pub fn actions_stay_tidy()
    ensures tidy { (h after : HeapState) (cost : ℕ) (present snapshot : Graph) (objects : List Object)
        → Represents h present snapshot → Action h cost after → IsTidy h.store objects → IsTidy after.store objects }
    ensures only { (h after : HeapState) (cost base : ℕ) (ids : List ℕ) → Action h cost after
        → awaits_sweep_end after.phase ≡ true → (awaits_sweep_end h.phase ≡ true → KeepsOnly h.store base ids)
        → KeepsOnly after.store base ids }
{}

/// A command's change keeps blocks at their proper places, and no identity comes back that was gone. The pages stay
/// within their bound, if the allocated and the requested blocks are no more than its blocks of each class.
pub fn changes_stay_tidy()
    ensures tidy { (h after : HeapState) (g : Graph) (c : Change) → h.next ≡ length g.objects + 1
        → DoesChange h g c after → IsTidy h.store g.objects → IsTidy after.store (changed g c).objects }
    ensures only { (h after : HeapState) (g : Graph) (c : Change) (base : ℕ) (ids : List ℕ)
        → h.next ≡ length g.objects + 1 → base ≤ length g.objects → DoesChange h g c after → KeepsOnly h.store base ids
        → KeepsOnly after.store base ids }
    ensures bounded { (h after : HeapState) (g : Graph) (c : Change) (blocks : ℕ → ℕ) (spare : ℕ)
        → ArePages h.store.pages → ((k : ℕ) → k < CLASSES → main_blocks h.store.pages k + asked_by c k ≤ blocks k)
        → DoesChange h g c after
        → HasBoundedPages h blocks spare → HasBoundedPages after blocks spare }
{}

/// The allocated blocks of a class, on pages that aren't evacuating, are no more than the blocks of the identities that
/// were kept and of the objects that were allocated since.
pub fn allocated_blocks_are_few()
    ensures { (s : Store) (class : ℕ) (objects first : List Object) (ids : List ℕ) → ArePages s.pages → IsTidy s objects
        → KeepsShapes first objects → KeepsOnly s (length first) ids
        → main_blocks s.pages class ≤ sum_by (λ id. needed (object_of first id).shape class) ids
        + blocks_of (drop (length first) objects) class }
{}
