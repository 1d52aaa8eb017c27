//! The law of an object's cells. The function does nothing: its contract is the law.
ghost use Rattle.std.specs.Prelude.{◌≡◌, ◌<◌, ℕ, length, slice_index};
ghost use Rattle.graph_heap.specs.Graph.{Graph, object_of};
ghost use Rattle.graph_heap.specs.Reach.{Reaches};
ghost use Rattle.heap_model.specs.Agree.{Reads};
ghost use Rattle.heap_model.specs.Agreement.{Agrees, IsWhole};
ghost use Rattle.heap_model.specs.Cut.{name_of};
ghost use Rattle.heap_model.specs.Reading.{IsMainCopy};
ghost use Rattle.heap_model.specs.State.{HeapState, seen};
ghost use Rattle.arraylets.specs.Cells.{refs_of, words_of, IsObject};

/// An object that can be reached is there, by the main copy of its part 0. As many references as the graph heap's are in
/// its list, and each reads as that; and its words are the graph heap's.
pub fn lists_are_the_objects()
    ensures there { (h : HeapState) (g : Graph) (id block : ℕ) → Agrees h g → Reaches g id → IsWhole h.store
        → IsMainCopy h.store block (name_of id) → IsObject h.store block }
    ensures length { (h : HeapState) (g : Graph) (id block : ℕ) → Agrees h g → Reaches g id
        → IsMainCopy h.store block (name_of id)
        → length (refs_of h.store block) ≡ length (object_of g.objects id).refs }
    ensures refs { (h : HeapState) (g : Graph) (id block i : ℕ) → Agrees h g → Reaches g id
        → IsMainCopy h.store block (name_of id) → i < length (object_of g.objects id).refs
        → Reads (seen h) (slice_index (refs_of h.store block) i)
        (name_of (slice_index (object_of g.objects id).refs i)) }
    ensures words { (h : HeapState) (g : Graph) (id block : ℕ) → Agrees h g → Reaches g id
        → IsMainCopy h.store block (name_of id)
        → words_of h.store block ≡ (object_of g.objects id).words }
{}
