//! How the cells of objects are read and written.
ghost use Rattle.std.specs.Prelude.{◌≡◌, ◌<◌, ℕ, slice_index};
ghost use Rattle.heap_model.specs.Block.{with_cell};
ghost use Rattle.heap_model.specs.Store.{record_of, Writes};
ghost use Rattle.nodes.specs.HeapFields.{AreHeapFields};
ghost use Rattle.nodes.specs.Links.{KeepsLinks};
ghost use Rattle.nodes.specs.Referent.{CanFollow};
ghost use Rattle.arraylets.specs.Cells.{refs_of, words_of, cell_at, IsCell, IsRef, IsWord, SetsRef, SetsWord};
ghost use Rattle.arraylets.specs.Stored.{IsStored};

use nodes::{HeapFields, Nodes};
use satb_barrier::record;

/// The place of a cell of an object: a block, which is a main copy of a part of the object, and the cell's number
/// there.
#[derive(Clone, Copy, Debug, PartialEq, Eq)]
pub struct Cell {
    pub block: usize,
    pub index: usize,
}

/// Returns the value in a reference cell.
#[inline(always)]
pub fn load(nodes: &Nodes, at: Cell) -> u64
    requires { IsCell nodes.now at }
    ensures holds { result ≡ cell_at nodes.now at }
    ensures refs { (object i : ℕ) → IsRef nodes.now object i at → result ≡ slice_index (refs_of nodes.now object) i }
{
    let Cell { block, index } = at;
    nodes.cell(block, index)
}

/// Returns the value in a word cell.
#[inline(always)]
pub fn get(nodes: &Nodes, at: Cell) -> u64
    requires { IsCell nodes.now at }
    ensures holds { result ≡ cell_at nodes.now at }
    ensures words { (object i : ℕ) → IsWord nodes.now object i at
        → result ≡ slice_index (words_of nodes.now object) i }
{
    nodes.cell(at.block, at.index)
}

/// Writes a reference cell, for a mutator: while roots are scanned or parts marked, its old value is recorded first. No
/// other cell of any object changes.
#[inline(always)]
pub fn store(heap: &mut HeapFields, mutator: u32, at: Cell, reference: u64)
    requires heap { AreHeapFields heap.old }
    requires mutator { mutator < heap.old.roots.limits.mutators }
    requires cell { IsCell heap.old.nodes at }
    requires leads { CanFollow heap.old.nodes (cell_at heap.old.nodes at) }
    ensures stored { IsStored heap.old mutator at reference heap.new }
    ensures refs { (object i : ℕ) → IsRef heap.old.nodes object i at
        → SetsRef heap.old.nodes object i reference heap.new.nodes }
{
    let before = load(&heap.nodes, at);
    record(heap, mutator, before);
    heap.nodes.set_cell(at.block, at.index, reference);
}

/// Writes a word cell. No other cell of any object changes.
#[inline(always)]
pub fn put(nodes: &mut Nodes, at: Cell, word: u64)
    requires { IsCell nodes.old at }
    ensures written { Writes nodes.old nodes.new at.block (with_cell (record_of nodes.old at.block) at.index word) }
    ensures links { KeepsLinks nodes.old nodes.new }
    ensures words { (object i : ℕ) → IsWord nodes.old object i at
        → SetsWord nodes.old object i word nodes.new }
{
    nodes.set_cell(at.block, at.index, word);
}
