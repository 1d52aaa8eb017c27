//! The laws of reading: the view of a heap that agrees with a graph heap. Each function does nothing: its contract is
//! the law.
ghost use Rattle.std.specs.Prelude.{◌≡◌, ◌≢◌, ◌↔◌, ℕ, ◌+◌, ◌<◌, length, slice_index};
ghost use Rattle.graph_heap.specs.Graph.{Graph, object_of};
ghost use Rattle.graph_heap.specs.Reach.{Reaches};
ghost use Rattle.size_classes.specs.Parts.{cells_of, spine_of, spine_cell_of, column_in};
ghost use Rattle.heap_model.specs.Store.{record_of};
ghost use Rattle.heap_model.specs.Core.{Name};
ghost use Rattle.heap_model.specs.Agree.{IsMain, Reads};
ghost use Rattle.heap_model.specs.Cut.{count_of, name_of};
ghost use Rattle.heap_model.specs.State.{HeapState, seen, width_at};
ghost use Rattle.heap_model.specs.Agreement.{Agrees, IsWhole};
ghost use Rattle.heap_model.specs.Reading.{IsMainCopy, HasCell, LeadsTo, Refers, spine_at, block_of};
ghost use Rattle.heap_model.specs.declared.phase.Phase.TheVariants as phases;
ghost use Rattle.heap_model.specs.declared.phase.Moving.{Moving};
ghost use Rattle.heap_model.specs.Action.{Action};
ghost use Rattle.heap_model.specs.Represents.{Represents};

/// Each root reads as the graph heap's root.
pub fn root_reads()
    ensures { (h : HeapState) (g : Graph) (j : ℕ) → Agrees h g → j < length h.roots
        → Reads (seen h) (slice_index h.roots j) (name_of (slice_index g.roots j)) }
{}

/// While blocks are moved, each address that reads as a name goes on to read as that name, even if nothing reaches it any
/// more.
pub fn moves_keep_names()
    ensures { (h after : HeapState) (cost : ℕ) (present snapshot : Graph) (place : Moving) (x : ℕ) (n : Name)
        → Represents h present snapshot → h.phase ≡ phases.Moving place → Action h cost after
        → Reads (seen h) x n → Reads (seen after) x n }
{}

/// 0 reads as null, and nothing else does.
pub fn null_reads()
    ensures { (h : HeapState) (g : Graph) (x id : ℕ) → Agrees h g → Reads (seen h) x (name_of id) → (x ≡ 0) ↔ (id ≡ 0) }
{}

/// A reference that isn't null leads through the forwarding word of its block to a main copy.
pub fn reference_leads()
    ensures there { (h : HeapState) (x : ℕ) (n : Name) → Reads (seen h) x n → x ≢ 0 → LeadsTo h x n }
    ensures back { (h : HeapState) (x : ℕ) (n : Name) → LeadsTo h x n → x ≢ 0 → Reads (seen h) x n }
{}

/// A main copy by its address is one by its reference.
pub fn main_copies()
    ensures there { (h : HeapState) (address : ℕ) (n : Name) → IsMainCopy h.store address n
        → IsMain (seen h) (address + 1) n }
    ensures back { (h : HeapState) (address : ℕ) (n : Name) → IsMain (seen h) (address + 1) n
        → IsMainCopy h.store address n }
{}

/// Each part shows the shape of its object.
pub fn shape_shown()
    ensures { (h : HeapState) (g : Graph) (id part address : ℕ) → Agrees h g → Reaches g id
        → part < count_of (object_of g.objects id) → IsMainCopy h.store address (record { identity = id; part = part })
        → (record_of h.store address).shape ≡ (object_of g.objects id).shape }
{}

/// Reference cell i of an object stands in its part, and reads as the object's.
pub fn ref_shown()
    ensures { (h : HeapState) (g : Graph) (id i address : ℕ) → Agrees h g → Reaches g id
        → i < length (object_of g.objects id).refs
        → HasCell h g id i address
        → Reads (seen h) (slice_index (record_of h.store address).cells (column_in i))
        (name_of (slice_index (object_of g.objects id).refs i)) }
{}

/// The cell of a spine that refers to a part reads as that part of the same object.
pub fn piece_shown()
    ensures { (h : HeapState) (g : Graph) (id part address : ℕ) → Agrees h g → Reaches g id → 0 < part
        → part < count_of (object_of g.objects id)
        → IsMainCopy h.store address (record {
          identity = id;
          part = spine_of (cells_of (object_of g.objects id).shape) part;
        })
        → Reads (seen h) (slice_index (record_of h.store address).cells
        (spine_cell_of (cells_of (object_of g.objects id).shape) part)) (record { identity = id; part = part }) }
{}

/// Word cell k of an object stands in its part after the references, and is the object's.
pub fn word_shown()
    ensures { (h : HeapState) (g : Graph) (id k address : ℕ) → Agrees h g → Reaches g id
        → k < length (object_of g.objects id).words
        → HasCell h g id k address
        → slice_index (record_of h.store address).cells (width_at (record_of h.store address) + column_in k)
        ≡ slice_index (object_of g.objects id).words k }
{}

/// The block of each part is found from the block of part 0, in at most two steps. Each step goes by a cell that refers
/// to an allocated block.
pub fn part_reached()
    ensures main { (h : HeapState) (g : Graph) (id part address : ℕ) → Agrees h g → Reaches g id
        → part < count_of (object_of g.objects id) → IsMainCopy h.store address (name_of id)
        → IsMainCopy h.store (block_of h.store (cells_of (object_of g.objects id).shape) address part)
        (record { identity = id; part = part }) }
    ensures spine { (h : HeapState) (g : Graph) (id part address : ℕ) → Agrees h g → Reaches g id → IsWhole h.store
        → 0 < part → part < count_of (object_of g.objects id) → IsMainCopy h.store address (name_of id)
        → spine_of (cells_of (object_of g.objects id).shape) part ≢ 0
        → Refers h.store address (spine_cell_of (cells_of (object_of g.objects id).shape)
        (spine_of (cells_of (object_of g.objects id).shape) part)) }
    ensures piece { (h : HeapState) (g : Graph) (id part address : ℕ) → Agrees h g → Reaches g id → IsWhole h.store
        → 0 < part → part < count_of (object_of g.objects id) → IsMainCopy h.store address (name_of id)
        → Refers h.store (spine_at h.store (cells_of (object_of g.objects id).shape) address part)
        (spine_cell_of (cells_of (object_of g.objects id).shape) part) }
{}
