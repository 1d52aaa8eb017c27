//! A heap's blocks, counted by the shapes of their objects.
ghost use Rattle.std.specs.Prelude.{◌≡◌, ◌+◌, ◌<◌, ◌≤◌, Some, IfOk, IfSome, OnOk, unwrap_or, if◌then◌else◌};
ghost use Rattle.std.specs.BTreeMap.{IsOrdered, get};
ghost use Rattle.std.specs.Ordering.{is_eq};
ghost use Rattle.heap_model.specs.Pages.{page_at};
ghost use Rattle.heap_model.specs.Store.{size_in};
ghost use Rattle.inspector.specs.Shapes.{any_shape, both, cells_of, cells_order, held_by, held_of, nothing, AreRows};
ghost use Rattle.inspector.specs.Counted.{IsCounted, IsOfBlocks};

use crate::shapes::held::{Cells, Held, cells_of, nothing};
use machine::Heap;
use nodes::BlockView;
use std::alloc::{AllocError, Global};
use std::collections::BTreeMap;

/// The figures of the blocks that were looked at.
#[derive(Drop)]
pub struct Counted {
    /// The figures of each shape, by its cells.
    pub each: BTreeMap<Cells, Held>,
    /// The figures of all shapes.
    pub all: Held,
}

impl Counted {
    /// Counts a part in a block of this many words.
    fn add(&mut self, size: u64, block: BlockView) -> Result<(), AllocError>
        requires size { size ≤ 256 }
        requires each { (c : Cells) → IfSome (get cells_order self.old.each c) (λ held. IsOfBlocks held 536870912) }
        requires all { IsOfBlocks self.old.all 536870912 }
        ensures ordered { OnOk result (IsOrdered cells_order self.new.each) }
        ensures each { OnOk result ((c : Cells) → get cells_order self.new.each c
            ≡ (if is_eq (cells_order (cells_of block.shape) c)
            then Some (both (unwrap_or (get cells_order self.old.each c) nothing) (held_by size block))
            else get cells_order self.old.each c)) }
        ensures all { OnOk result (self.new.all ≡ both self.old.all (held_by size block)) }
    {
        let cells = cells_of(block.shape);
        let held = self.each.get(&cells).copied().unwrap_or(nothing());
        self.each.insert(cells, held.with(size, block))?;
        self.all = self.all.with(size, block);
        Ok(())
    }

    /// Counts the block at a place of a page that has blocks of this many words: nothing if it isn't allocated, or
    /// holds an old copy.
    fn look_at(
        &mut self,
        heap: &Heap,
        page: usize,
        index: usize,
        size: u64,
    ) -> Result<(), AllocError>
        requires page { page < 1048576 }
        requires index { index < 512 }
        requires size { size ≡ size_in (page_at heap.now.store.pages page) }
        requires small { size ≤ 256 }
        requires before { IsCounted heap.now.store page index self.old }
        ensures { OnOk result (IsCounted heap.now.store page (index + 1) self.new) }
    {
        match heap.block(page, index) {
            Some(block) if !block.is_old => self.add(size, block),
            _ => Ok(()),
        }
    }

    /// Counts the blocks of a page.
    fn look_through(&mut self, heap: &Heap, page: usize) -> Result<(), AllocError>
        requires page { page < 1048576 }
        requires before { IsCounted heap.now.store page 0 self.old }
        ensures { OnOk result (IsCounted heap.now.store (page + 1) 0 self.new) }
    {
        let Some(view) = heap.page(page) else {
            return Ok(());
        };
        let size = u64::from(view.class.size());
        for index in 0..view.class.blocks_per_page() as usize {
            self.look_at(heap, page, index, size)?;
        }
        Ok(())
    }
}

/// Counts the objects of each shape, and of all shapes, that a heap holds.
pub fn count(alloc: Global, heap: &Heap) -> Result<Counted, AllocError>
    ensures rows { IfOk result (λ counted. AreRows heap.now.store counted.each.entries) }
    ensures all { IfOk result (λ counted. counted.all ≡ held_of any_shape heap.now.store) }
{
    let mut counted = Counted {
        each: BTreeMap::new(alloc),
        all: nothing(),
    };
    for page in 0..heap.pages() {
        counted.look_through(heap, page)?;
    }
    Ok(counted)
}
