//! The list of grey parts, threaded through their headers, and the buffers beside it.
ghost use Rattle.std.specs.Prelude.{◌≡◌, ◌≢◌, ◌<◌, ◌+◌, ◌-◌, ◌*◌, [], ◌∷◌, ◌++◌, List, ℕ, true, false, length, slice_set, IfSome, IsNone};
ghost use Rattle.heap_model.specs.Action.{Relinks};
ghost use Rattle.heap_model.specs.Collector.{contains, Once};
ghost use Rattle.heap_model.specs.Grey.{AreGrey};
ghost use Rattle.heap_model.specs.Store.{is_allocated};
ghost use Rattle.heap_model.specs.Written as written;
ghost use Rattle.nodes.specs.Grey.{grey_in, in_buffers, buffer_of, inserted, with_buffer, AreLinked};
ghost use Rattle.nodes.specs.GreyAllocated.{AreAllocated};
ghost use Rattle.nodes.specs.HeapFields.{state_of, AreHeapFields};
ghost use Rattle.satb_barrier.specs.Recording.{with_room};

use nodes::HeapFields;

/// Puts an allocated part that isn't grey into the list, as its first.
pub fn push_grey(heap: &mut HeapFields, part: u64)
    requires some { part ≢ 0 }
    requires allocated { is_allocated heap.old.nodes (part - 1) ≡ true }
    requires fresh { contains (grey_in heap.old.nodes heap.old.grey) part ≡ false }
    requires few { length (grey_in heap.old.nodes heap.old.grey) < 2048 * length heap.old.nodes.pages }
    ensures grey { grey_in heap.new.nodes heap.new.grey ≡ inserted part (grey_in heap.old.nodes heap.old.grey) }
    ensures threaded { heap.new.nodes ≡ record heap.old.nodes {
      words = slice_set heap.old.nodes.words (part - 1 + 3) heap.old.grey.first;
    } }
    ensures links { Relinks heap.old.nodes heap.new.nodes }
    ensures same { heap.new ≡ record heap.old { nodes = heap.new.nodes; grey = record heap.old.grey { first = part } } }
{
    heap.nodes.set_link(part as usize - 1, heap.grey.first());
    heap.grey.set_first(part);
}

/// Takes a grey part out of the list, the one that came last. Its link is 0 then. The buffers are empty.
pub fn pop_grey(heap: &mut HeapFields) -> Option<u64>
    requires grey { AreGrey (state_of heap.old) }
    requires linked { AreLinked heap.old.nodes heap.old.grey }
    requires buffers { in_buffers heap.old.grey.buffers ≡ [] }
    ensures allocated { IfSome result (λ part. is_allocated heap.old.nodes (part - 1) ≡ true) }
    ensures none { IsNone result → ((state_of heap.old).grey ≡ []) × (heap.new ≡ heap.old) }
    ensures taken { IfSome result (λ part. (front : List ℕ) × (back : List ℕ)
        × ((state_of heap.old).grey ≡ front ++ part ∷ back) × ((state_of heap.new).grey ≡ front ++ back)) }
    ensures unlinked { IfSome result (λ part. heap.new.nodes ≡ record heap.old.nodes {
      words = slice_set heap.old.nodes.words (part - 1 + 3) 0;
    }) }
    ensures links { Relinks heap.old.nodes heap.new.nodes }
    ensures linked { AreLinked heap.new.nodes heap.new.grey }
    ensures same { heap.new ≡ record heap.old {
      nodes = heap.new.nodes;
      grey = record heap.old.grey { first = heap.new.grey.first };
    } }
{
    let part = heap.grey.first();
    if part == 0 {
        return None;
    }
    let next = heap.nodes.link(part as usize - 1);
    heap.nodes.set_link(part as usize - 1, 0);
    heap.grey.set_first(next);
    Some(part)
}

/// Adds an allocated part that isn't grey to a mutator's buffer, and links the record before it to it.
#[inline(always)]
pub fn push_record(heap: &mut HeapFields, mutator: u32, part: u64)
    requires some { part ≢ 0 }
    requires part { is_allocated heap.old.nodes (part - 1) ≡ true }
    requires fresh { contains (grey_in heap.old.nodes heap.old.grey) part ≡ false }
    requires none { contains (grey_in heap.old.nodes heap.old.grey) 0 ≡ false }
    requires once { Once (grey_in heap.old.nodes heap.old.grey) }
    requires allocated { AreAllocated heap.old }
    requires linked { AreLinked heap.old.nodes heap.old.grey }
    requires mutator { mutator < length heap.old.grey.buffers }
    requires room { length (buffer_of heap.old.grey mutator) < 64 }
    ensures grey { grey_in heap.new.nodes heap.new.grey ≡ inserted part (grey_in heap.old.nodes heap.old.grey) }
    ensures links { Relinks heap.old.nodes heap.new.nodes }
    ensures linked { AreLinked heap.new.nodes heap.new.grey }
    ensures same { heap.new ≡ record heap.old {
      nodes = heap.new.nodes;
      grey = with_buffer heap.old.grey mutator (buffer_of heap.old.grey mutator ++ part ∷ []);
    } }
{
    if let Some(last) = heap.grey.last_record(mutator) {
        heap.nodes.set_link(last as usize - 1, part);
    }
    heap.grey.push(mutator, part);
}

/// Hangs the records of a mutator's buffer into the list, as its first: they are linked one to the next already, so one
/// link is written. The same parts are grey.
#[inline(never)]
pub fn flush(heap: &mut HeapFields, mutator: u32)
    requires grey { AreGrey (state_of heap.old) }
    requires linked { AreLinked heap.old.nodes heap.old.grey }
    requires mutator { mutator < length heap.old.grey.buffers }
    ensures grey { grey_in heap.new.nodes heap.new.grey ≡ grey_in heap.old.nodes heap.old.grey }
    ensures links { Relinks heap.old.nodes heap.new.nodes }
    ensures linked { AreLinked heap.new.nodes heap.new.grey }
    ensures same { heap.new ≡ record heap.old {
      nodes = heap.new.nodes;
      grey = record (with_buffer heap.old.grey mutator []) { first = heap.new.grey.first };
    } }
{
    let Some(last) = heap.grey.last_record(mutator) else {
        return;
    };
    let first = heap.grey.first_record(mutator);
    heap.nodes.set_link(last as usize - 1, heap.grey.first());
    heap.grey.set_first(first);
    heap.grey.clear(mutator);
}

/// Makes room for a record in a mutator's buffer: a full one goes into the list. The same parts are grey.
#[inline(always)]
pub fn make_room(heap: &mut HeapFields, mutator: u32)
    requires grey { AreGrey (state_of heap.old) }
    requires linked { AreLinked heap.old.nodes heap.old.grey }
    requires mutator { mutator < length heap.old.grey.buffers }
    ensures grey { grey_in heap.new.nodes heap.new.grey ≡ grey_in heap.old.nodes heap.old.grey }
    ensures links { Relinks heap.old.nodes heap.new.nodes }
    ensures linked { AreLinked heap.new.nodes heap.new.grey }
    ensures room { length (buffer_of heap.new.grey mutator) < 64 }
    ensures same { heap.new ≡ record heap.old {
      nodes = heap.new.nodes;
      grey = record (with_buffer heap.old.grey mutator (with_room (buffer_of heap.old.grey mutator))) {
        first =
            heap.new.grey.first;
      };
    } }
{
    if heap.grey.is_full(mutator) {
        flush(heap, mutator);
    }
}

/// Puts the records of all buffers into the list, as each quantum begins. The same parts are grey. Outside
/// roots and marking the buffers are empty, and nothing changes.
pub fn flush_all(heap: &mut HeapFields)
    requires { AreHeapFields heap.old }
    ensures grey { grey_in heap.new.nodes heap.new.grey ≡ grey_in heap.old.nodes heap.old.grey }
    ensures links { Relinks heap.old.nodes heap.new.nodes }
    ensures buffers { in_buffers heap.new.grey.buffers ≡ [] }
    ensures count { length heap.new.grey.buffers ≡ length heap.old.grey.buffers }
    ensures linked { AreLinked heap.new.nodes heap.new.grey }
    ensures same { heap.new ≡ record heap.old { nodes = heap.new.nodes; grey = heap.new.grey } }
    ensures rests { written.records heap.old.phase ≡ false → heap.new ≡ heap.old }
{
    if !heap.phase.records() {
        return;
    }
    for mutator in 0..heap.roots.limits().mutators {
        if heap.grey.last_record(mutator).is_some() {
            flush(heap, mutator);
        }
    }
}
