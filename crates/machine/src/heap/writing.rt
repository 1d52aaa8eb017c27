//! The writes of the heap. Each does one change of the graph heap. It first records the reference that it overwrites.
ghost use Rattle.std.specs.Prelude.{◌≡◌, ◌+◌, ◌<◌, ◌≤◌, false, length, slice_index};
ghost use Rattle.heap_model.specs.Change.{Clears};
ghost use Rattle.heap_model.specs.Written.{records};
ghost use Rattle.nodes.specs.Grey.{AreLinked};
ghost use Rattle.nodes.specs.HeapFields.{state_of, AreHeapFields};
ghost use Rattle.machine.specs.Plan.{CanPerform, DoesEach};
ghost use Rattle.machine.specs.Buffers.{AreOwn};
ghost use Rattle.machine.specs.Writing.{CanWrite, IsWritten, IsRecorded};

use crate::plan::Write;
use arraylets::{Cell, new_object, put, store};
use graph_heap::Shape;
use nodes::HeapFields;
use satb_barrier::record;

/// Does a write of a mutator.
#[inline(always)]
pub fn do_write(heap: &mut HeapFields, mutator: u32, write: &Write)
    requires { CanWrite heap.old mutator write.now }
    ensures { IsWritten heap.old mutator write.now heap.new }
{
    match *write {
        Write::Nothing => {}
        Write::Root { cell, reference } => write_root(heap, mutator, cell, reference),
        Write::Ref { at, reference } => write_ref(heap, mutator, at, reference),
        Write::Word { at, word } => put(&mut heap.nodes, at, word),
        Write::New { cell, shape } => write_new(heap, mutator, cell, shape),
        Write::Join { mutator: joiner } => heap.roots.set_live(joiner, true),
        Write::Leave { mutator: leaver } => write_leave(heap, leaver),
    }
}

/// Records the reference in a root, before it is overwritten.
#[inline(always)]
fn record_root(heap: &mut HeapFields, mutator: u32, root: usize)
    requires heap { AreHeapFields heap.old }
    requires mutator { mutator < heap.old.roots.limits.mutators }
    requires root { root < length heap.old.roots.cells }
    ensures { IsRecorded heap.old mutator (slice_index heap.old.roots.cells root) heap.new }
{
    let before = heap.roots.get(root);
    record(heap, mutator, before);
}

/// Writes a reference into a root.
#[inline(always)]
fn write_root(heap: &mut HeapFields, mutator: u32, cell: usize, reference: u64)
    requires { CanWrite heap.old mutator (Write.Root cell reference) }
    ensures { IsWritten heap.old mutator (Write.Root cell reference) heap.new }
{
    record_root(heap, mutator, cell);
    heap.roots.set(cell, reference);
}

/// Writes a reference into a reference cell of an object.
#[inline(always)]
fn write_ref(heap: &mut HeapFields, mutator: u32, at: Cell, reference: u64)
    requires { CanWrite heap.old mutator (Write.Ref at reference) }
    ensures { IsWritten heap.old mutator (Write.Ref at reference) heap.new }
{
    store(heap, mutator, at, reference);
}

/// Makes an object, and writes its reference into a root.
#[inline(always)]
fn write_new(heap: &mut HeapFields, mutator: u32, root: usize, shape: Shape)
    requires { CanWrite heap.old mutator (Write.New root shape) }
    ensures { IsWritten heap.old mutator (Write.New root shape) heap.new }
{
    record_root(heap, mutator, root);
    let block = new_object(&mut heap.nodes, shape, heap.mark_parity, heap.next);
    heap.roots.set(root, block as u64 + 1);
    heap.next += 1;
}

/// Sets `count` roots to null, from root `first` on, one after the other, as writes of a mutator.
#[inline(always)]
pub fn null_roots(heap: &mut HeapFields, mutator: u32, first: usize, count: usize)
    requires heap { AreHeapFields heap.old }
    requires mutator { mutator < heap.old.roots.limits.mutators }
    requires within { first + count ≤ length heap.old.roots.cells }
    ensures heap { AreHeapFields heap.new }
    ensures clears { Clears (state_of heap.old) first count (state_of heap.new) }
    ensures buffers { AreOwn mutator heap.old.grey heap.new.grey }
{
    for i in 0..count {
        write_root(heap, mutator, first + i, 0);
    }
}

/// Sets `count` roots to null, from root `first` on, in a phase that records nothing.
#[inline(always)]
pub fn null_unrecorded(heap: &mut HeapFields, first: usize, count: usize)
    requires heap { AreHeapFields heap.old }
    requires unrecorded { records heap.old.phase ≡ false }
    requires within { first + count ≤ length heap.old.roots.cells }
    ensures heap { AreHeapFields heap.new }
    ensures clears { Clears (state_of heap.old) first count (state_of heap.new) }
{
    for i in 0..count {
        heap.roots.set(first + i, 0);
    }
}

/// Sets the slots of a mutator to null; it is then no longer live.
#[inline(never)]
fn write_leave(heap: &mut HeapFields, mutator: u32)
    requires heap { AreHeapFields heap.old }
    requires write { CanPerform (state_of heap.old) (Write.Leave mutator) }
    ensures does { DoesEach (state_of heap.old) (Write.Leave mutator) (state_of heap.new) }
    ensures buffers { AreOwn mutator heap.old.grey heap.new.grey }
    ensures linked { AreLinked heap.new.nodes heap.new.grey }
{
    let slots = heap.roots.limits().slots as usize;
    null_roots(heap, mutator, mutator as usize * slots, slots);
    heap.roots.set_live(mutator, false);
}
