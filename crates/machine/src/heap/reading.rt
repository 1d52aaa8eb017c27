//! How the heap is read, through references and forwarding words.
ghost use Rattle.std.specs.Prelude.{◌≡◌, ◌<◌, ◌≤◌, ℕ, true, length, slice_index, IfOk};
ghost use Rattle.graph_heap.specs.Graph.{Graph, object_of};
ghost use Rattle.graph_heap.specs.Shape.{fits};
ghost use Rattle.graph_heap.specs.declared.command.TheConstants.{ARRAY_CELLS};
ghost use Rattle.size_classes.specs.Parts.{part_in, column_in};
ghost use Rattle.heap_model.specs.Reading.{block_of};
ghost use Rattle.heap_model.specs.Store.{is_allocated};
ghost use Rattle.heap_model.specs.Agreement.{Agrees};
ghost use Rattle.machine.specs.Reading.{Names, Finds, CanReach, position_in, FindsCell, IsRefPlace, IsWordPlace};

use super::Heap;
use crate::plan::{Found, Kind};
use arraylets::{Cell, CellPosition, get, load, part_block, ref_position, word_position};
use graph_heap::{Refusal, Shape};
use nodes::{Nodes, Referent};
use size_classes::PART_CELLS;

impl Heap {
    /// Returns the referent of a root.
    #[inline(always)]
    pub(super) fn referent(&self, root: usize) -> Referent
        requires { root < length self.now.roots }
        ensures { (g : Graph) → Agrees self.now g → Names self.now g (slice_index g.roots root) result }
    {
        self.fields.nodes.resolve(self.fields.roots.get(root))
    }

    /// Returns the main copy of the object that a root holds.
    #[inline(always)]
    pub(super) fn object(&self, root: usize) -> Result<Found, Refusal>
        requires { root < length self.now.roots }
        ensures finds { (g : Graph) → Agrees self.now g → Finds self.now g (slice_index g.roots root) result }
        ensures allocated { IfOk result (λ f. is_allocated self.now.store f.block ≡ true) }
        ensures fits { IfOk result (λ f. fits f.shape ≡ true) }
    {
        let reference = self.fields.roots.get(root);
        if reference == 0 {
            return Err(Refusal::NullSlot);
        }
        let referent = self.fields.nodes.follow(reference);
        let block = referent.reference as usize - 1;
        let shape = self.fields.nodes.shape(block);
        Ok(Found {
            block,
            id: referent.identity,
            shape,
        })
    }

    /// Returns the place of cell `i` of a kind, of the object that a root holds.
    #[inline(always)]
    pub(super) fn find(&self, root: usize, kind: Kind, i: u32) -> Result<Cell, Refusal>
        requires { root < length self.now.roots }
        ensures { (g : Graph) → Agrees self.now g → FindsCell self.now g kind (slice_index g.roots root) i result }
    {
        let found = self.object(root)?;
        match found.shape {
            // A command on words makes no other call, so it keeps next to nothing in registers; a command on
            // references makes one if it records. This position is asked for only as a test, whether there is such a
            // cell: `far_cell` finds it anew.
            Shape::WordArray(cells) if cells > PART_CELLS as u32 => {
                let _place = position_in(kind, found.shape, i)?;
                Ok(far_cell(&self.fields.nodes, found.block, cells, i))
            }
            _ => {
                let place = position_in(kind, found.shape, i)?;
                let block = part_block(&self.fields.nodes, found.shape, found.block, place.part);
                Ok(Cell {
                    block,
                    index: place.cell,
                })
            }
        }
    }

    /// Returns the referent of a reference cell.
    #[inline(always)]
    pub(super) fn referent_in_cell(&self, at: Cell) -> Referent
        requires { (g : Graph) → Agrees self.now g → (id : ℕ) × (i : ℕ) × IsRefPlace self.now g id i at }
        ensures { (g : Graph) (id i : ℕ) → Agrees self.now g → IsRefPlace self.now g id i at
            → Names self.now g (slice_index (object_of g.objects id).refs i) result }
    {
        self.fields.nodes.resolve(load(&self.fields.nodes, at))
    }

    /// Returns the word in a word cell.
    #[inline(always)]
    pub(super) fn word_in(&self, at: Cell) -> u64
        requires { (g : Graph) → Agrees self.now g → (id : ℕ) × (i : ℕ) × IsWordPlace self.now g id i at }
        ensures { (g : Graph) (id i : ℕ) → Agrees self.now g → IsWordPlace self.now g id i at
            → result ≡ slice_index (object_of g.objects id).words i }
    {
        get(&self.fields.nodes, at)
    }
}

/// Returns the position of cell `i` of a kind in an object of a shape, or the refusal if there is no such cell.
#[inline(always)]
fn position_in(kind: Kind, shape: Shape, i: u32) -> Result<CellPosition, Refusal>
    requires { fits shape ≡ true }
    ensures { result ≡ position_in kind shape i }
{
    match kind {
        Kind::Ref => ref_position(shape, i),
        Kind::Word => word_position(shape, i),
    }
}

/// Returns the place of cell `i` of an array with this many cells, of either kind, from the block of its part 0. It
/// is a call out of line, so that objects of one part don't pay for it.
#[cold]
#[inline(never)]
fn far_cell(nodes: &Nodes, block: usize, cells: u32, i: u32) -> Cell
    requires few { cells ≤ ARRAY_CELLS }
    requires cell { i < cells }
    requires reaches { CanReach nodes.now cells block (part_in cells i) }
    ensures { result ≡ record { block = block_of nodes.now cells block (part_in cells i); index = column_in i } }
{
    let shape = Shape::RefArray(cells);
    let Ok(place) = ref_position(shape, i) else {
        unreachable!()
    };
    Cell {
        block: part_block(nodes, shape, block, place.part),
        index: place.cell,
    }
}
