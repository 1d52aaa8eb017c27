//! Laws of histories and of the graph heap. Each function does nothing: its contract is the law.
ghost use Rattle.std.specs.Prelude.{◌≡◌, ◌↔◌, ℕ, [], ◌∷◌, ◌++◌, List, Some, slice_get};
ghost use Rattle.graph_heap.specs.declared.command.Entry.{Entry};
ghost use Rattle.graph_heap.specs.declared.command.Change.{Change};
ghost use Rattle.graph_heap.specs.declared.command.TheConstants.{ARRAY_CELLS, PLAIN_CELLS};
ghost use Rattle.graph_heap.specs.Graph.{Graph, Object, changed};
ghost use Rattle.graph_heap.specs.Effect.{IsStep};
ghost use Rattle.graph_heap.specs.History.{after, after_entry, IsLegal, IsEntryOf};

/// A history with one more entry at its end.
pub fn one_more()
    ensures after { (g : Graph) (h : List Entry) (e : Entry) → after g (h ++ e ∷ []) ≡ after_entry (after g h) e }
    ensures legal { (g : Graph) (h : List Entry) (e : Entry) → IsLegal g h → IsEntryOf (after g h) e
        → IsLegal g (h ++ e ∷ []) }
{}

/// An entry is one of the graph heap if and only if some step gives its reply. There is only one such step, so a
/// history is determined by its commands and replies.
pub fn one_step()
    ensures { (g after : Graph) (e : Entry)
        → IsStep g e.mutator e.command e.reply after ↔ (IsEntryOf g e × (after_entry g e ≡ after)) }
{}

/// No change removes an object, or alters its shape.
pub fn shapes_stand()
    ensures { (g : Graph) (c : Change) (k : ℕ) (o : Object) → slice_get g.objects k ≡ Some o
        → (p : Object) × (slice_get (changed g c).objects k ≡ Some p) × (p.shape ≡ o.shape) }
{}

/// How many cells a plain object and an array have at most.
pub fn cells_are_bounded()
    ensures plain { PLAIN_CELLS ≡ 252 }
    ensures array { ARRAY_CELLS ≡ 4000000 }
{}
