//! Shading.
ghost use Rattle.std.specs.Prelude.{◌≡◌, ◌≢◌, ◌-◌, ◌<◌, true};
ghost use Rattle.heap_model.specs.Action.{Shades};
ghost use Rattle.heap_model.specs.Change.{Records};
ghost use Rattle.heap_model.specs.Grey.{AreGrey};
ghost use Rattle.heap_model.specs.State.{seen};
ghost use Rattle.heap_model.specs.Store.{is_allocated};
ghost use Rattle.nodes.specs.Referent.{CanFollow};
ghost use Rattle.nodes.specs.HeapFields.{state_of, AreHeapFields};
ghost use Rattle.nodes.specs.Grey.{AreLinked};
ghost use Rattle.nodes.specs.GreyAllocated.{AreAllocated};
ghost use Rattle.satb_barrier.specs.Recording.{buffers_after};

use crate::list::{make_room, push_grey, push_record};
use nodes::HeapFields;

/// Returns whether a part is marked, by reference: whether its colour is the one that means so. Null always is.
pub fn is_marked(heap: &HeapFields, reference: u64) -> bool
    requires { reference ≢ 0 → is_allocated heap.now.nodes (reference - 1) ≡ true }
    ensures { result ≡ (seen (state_of heap.now)).marked reference }
{
    reference == 0
        || heap
            .nodes
            .has_colour(reference as usize - 1, heap.mark_parity)
}

/// Shades a main copy, or null: if it isn't marked yet, it gets the colour that means marked, and goes
/// into the list of grey parts.
pub fn shade(heap: &mut HeapFields, reference: u64)
    requires grey { AreGrey (state_of heap.old) }
    requires allocated { reference ≢ 0 → is_allocated heap.old.nodes (reference - 1) ≡ true }
    ensures shades { Shades (state_of heap.old) reference (state_of heap.new) }
    ensures linked { AreLinked heap.old.nodes heap.old.grey → AreLinked heap.new.nodes heap.new.grey }
    ensures same { heap.new ≡ record heap.old {
      nodes = heap.new.nodes;
      grey = record heap.old.grey { first = heap.new.grey.first };
    } }
{
    if is_marked(heap, reference) {
        return;
    }
    heap.nodes
        .set_colour(reference as usize - 1, heap.mark_parity);
    push_grey(heap, reference);
}

/// Records a reference that a command of a mutator overwrites, in a phase that records: its main copy is shaded (Yuasa,
/// 1990) and goes into the mutator's buffer. If the buffer was full, its 64 records went into the list first. In other
/// phases nothing is done.
#[inline(always)]
pub fn record(heap: &mut HeapFields, mutator: u32, reference: u64)
    requires heap { AreHeapFields heap.old }
    requires mutator { mutator < heap.old.roots.limits.mutators }
    requires leads { CanFollow heap.old.nodes reference }
    ensures records { Records (state_of heap.old) reference (state_of heap.new) }
    ensures buffers { heap.new.grey.buffers ≡ buffers_after heap.old mutator reference }
    ensures linked { AreLinked heap.new.nodes heap.new.grey }
    ensures allocated { AreAllocated heap.new }
    ensures same { heap.new ≡ record heap.old { nodes = heap.new.nodes; grey = heap.new.grey } }
{
    if !heap.phase.records() {
        return;
    }
    let main = heap.nodes.resolve(reference).reference;
    if is_marked(heap, main) {
        return;
    }
    make_room(heap, mutator);
    heap.nodes.set_colour(main as usize - 1, heap.mark_parity);
    push_record(heap, mutator, main);
}
