//! Pages and words together.
ghost use Rattle.std.specs.Prelude.{IsSome, IsSomeAnd, slice_get, option_map, position, ◌≡◌, ℕ, ◌+◌, ◌-◌, ◌*◌, ◌/◌, ◌<◌, ◌≤◌, ◌↔◌, [], length, replicate, slice_set, true, false, None, Some, IfOk, IfSome, IsNone};
ghost use Rattle.size_classes.specs.Sizes.{size_of};
ghost use Rattle.size_classes.specs.Need.{blocks_needed};
ghost use Rattle.size_classes.specs.Parts.{part_cells, cells_of, parts_in};
ghost use Rattle.heap_model.specs.Header.{ShapeFits};
ghost use Rattle.heap_model.specs.Block.{new_record};
ghost use Rattle.heap_model.specs.Pages.{has_room, page_for, page_at, is_usable, free_on, free_blocks, with_allocated, IsOpen, TakesBlock};
ghost use Rattle.heap_model.specs.Pages as page_list;
ghost use Rattle.heap_model.specs.Action.{Frees, KeepsBlocks, MovesBlock, closed, allocated_on, is_choosable};
ghost use Rattle.heap_model.specs.Store.{size_in, is_allocated, address_of, Adds};
ghost use Rattle.pages.specs.Places.{FindsAllocated};
ghost use Rattle.nodes.specs.Links.{KeepsLinks, LeavesLinks, CopiesLink};
ghost use Rattle.nodes.specs.Moving.{CanMove};
ghost use Rattle.nodes.specs.Pages.{blocks_on};
ghost use Rattle.nodes.specs.Sweeping.{Sweeps, SweepsAndCloses};
ghost use Rattle.nodes.specs.Touching.{touched};

use graph_heap::{NoMemory, Shape};
use headers::Arena;
use pages::{Block, PageTable};
use size_classes::{Class, Parts};
use std::alloc::Global;
use std::marker::Model;

mod block;
pub mod counting;
mod holding;
pub mod seeing;

/// The object that a reference names, by its identity and the reference of its main copy, which is the copy's address
/// plus one. For null both are 0.
#[derive(Clone, Copy, Debug, PartialEq, Eq)]
pub struct Referent {
    pub identity: u64,
    pub reference: u64,
}

/// Returns the address of a block of a page, by its number there and the size of the page's blocks.
#[inline(always)]
fn address(page: usize, index: usize, size: usize) -> usize
    requires page { page < 1048576 }
    requires block { index * size + size ≤ 2048 }
    ensures { result ≡ 2048 * page + index * size }
{
    2048 * page + index * size
}

/// The blocks of a heap. Contracts see the pages and the words. A method that writes says how the record of its one block
/// changes, and that every other allocated block keeps its own. Table and arena always go together. There is memory for
/// each page, and each page in use has its words. The list of each page runs through exactly its free blocks. In an
/// allocated block, word 0 is an address, and word 1 a header with no other bit set.
#[derive(Drop)]
pub struct Nodes {
    table: PageTable,
    arena: Arena,
}

impl Model for Nodes {
    ghost use Rattle.heap_model.specs.Store.{Store};
    ghost use Rattle.nodes.specs.Joined.{AreBlockRecords};
    ghost use Rattle.pages.specs.Together.{joined};
    ghost use Rattle.std.specs.Prelude.{◌≡◌, length};

    ghost Value = { Store };

    ghost view = { λ n. joined n.table n.arena.words };

    ghost invariant = { λ n. AreBlockRecords n.table n.arena.words × (n.arena.pages ≡ length n.table) };
}

impl Nodes {
    /// This many free pages, of 2048 words each, none of which was touched: there is memory for all of them. Refused only
    /// for lack of memory.
    pub fn new(alloc: Global, pages: u32) -> Result<Nodes, NoMemory>
        requires { pages ≤ 1048576 }
        ensures { IfOk result (λ n. n ≡ record { pages = replicate pages None; words = [] }) }
    {
        let table = PageTable::new(alloc, pages)?;
        let arena = Arena::new(alloc, pages)?;
        Ok(Nodes { table, arena })
    }

    /// Touches the first `pages` pages, or all if there are fewer: clears the words of those that weren't touched
    /// before. The same blocks are allocated, with the same records.
    pub fn touch(&mut self, pages: usize)
        ensures touched { self.new ≡ touched self.old pages }
        ensures kept { KeepsBlocks self.old self.new }
        ensures links { KeepsLinks self.old self.new }
    {
        self.arena.touch(pages);
    }

    /// Returns whether there is room for the parts of an object.
    #[inline(always)]
    pub fn room(&self, parts: &Parts) -> bool
        ensures { result ≡ has_room self.now.pages (blocks_needed parts.now (parts_in parts.now)) }
    {
        self.table.room(parts)
    }

    /// Gives an allocated block of a page back: it is free. Every other block is allocated or not, with its record,
    /// as before.
    pub fn give(&mut self, page: usize, index: usize)
        requires { IsSomeAnd (page_at self.old.pages page) (λ p. slice_get p.allocated index ≡ Some true) }
        ensures frees { IfSome (page_at self.old.pages page)
            (λ p. Frees self.old self.new (address_of p.class page index)) }
        ensures pages { IfSome (page_at self.old.pages page)
            (λ p. self.new.pages ≡ slice_set self.old.pages page (Some (with_allocated p index false))) }
        ensures links { LeavesLinks self.old self.new }
    {
        self.table.give(&mut self.arena, Block { page, index });
    }

    /// Looks at `count` blocks of a page in use, from one on, as the sweeper does: each that is allocated and hasn't
    /// the colour is freed.
    pub fn sweep(&mut self, page: usize, index: usize, count: usize, colour: bool)
        requires page { page < length self.old.pages }
        requires blocks { IsSomeAnd (page_at self.old.pages page) (λ p. index + count ≤ length p.allocated) }
        ensures sweeps { Sweeps self.old self.new colour page index count }
        ensures links { LeavesLinks self.old self.new }
    {
        let block = Block { page, index };
        self.table.sweep(&mut self.arena, block, count, colour);
    }

    /// Looks at `count` blocks of a page in use, as `sweep` does, and then closes the page, as `close_page` does.
    pub fn sweep_and_close(&mut self, page: usize, index: usize, count: usize, colour: bool)
        requires page { page < length self.old.pages }
        requires blocks { IsSomeAnd (page_at self.old.pages page) (λ p. index + count ≤ length p.allocated) }
        ensures sweeps { SweepsAndCloses self.old self.new colour page index count }
        ensures links { LeavesLinks self.old self.new }
    {
        let from = Block { page, index };
        self.table
            .sweep_and_close(&mut self.arena, from, count, colour);
    }

    /// Closes a page, as the sweeper does when it has looked at all its blocks: its marks go, and if no block is
    /// allocated it becomes free. The same blocks are allocated, with the same records.
    pub fn close_page(&mut self, page: usize)
        requires { page < length self.old.pages }
        ensures kept { KeepsBlocks self.old self.new }
        ensures pages { self.new.pages ≡ slice_set self.old.pages page (closed (page_at self.old.pages page)) }
        ensures links { LeavesLinks self.old self.new }
    {
        self.table.close_page(page);
    }

    /// Returns how many pages there are.
    pub fn pages(&self) -> usize
        ensures pages { result ≡ length self.now.pages }
        ensures within { result ≤ 1048576 }
    {
        self.table.len()
    }

    /// Returns how many pages are free.
    pub fn free_pages(&self) -> usize
        ensures free { result ≡ page_list.free_pages self.now.pages }
        ensures within { result ≤ 1048576 }
    {
        self.table.free_pages()
    }

    /// Returns how many pages were touched. Each page behind these is free.
    pub fn pages_touched(&self) -> usize
        ensures within { result ≤ 1048576 }
        ensures free { (page : ℕ) → result ≤ page → page_at self.now.pages page ≡ None }
    {
        self.arena.pages_touched()
    }

    /// Returns how many blocks a page has, allocated or not; a free page has none.
    pub fn blocks(&self, page: usize) -> usize
        requires { page < length self.now.pages }
        ensures { result ≡ blocks_on (page_at self.now.pages page) }
    {
        match self.table.class(page) {
            Some(class) => class.blocks_per_page() as usize,
            None => 0,
        }
    }

    /// Returns the class of a page that is in use; None for a free page.
    pub fn class(&self, page: usize) -> Option<Class>
        requires { page < length self.now.pages }
        ensures { result ≡ option_map (λ p. p.class) (page_at self.now.pages page) }
    {
        self.table.class(page)
    }

    /// Returns the size of the blocks of a page, in words; 0 for a free page.
    fn block_size(&self, page: usize) -> usize
        requires { page < length self.now.pages }
        ensures size { result ≡ size_in (page_at self.now.pages page) }
        ensures within { result ≤ 256 }
    {
        match self.table.class(page) {
            Some(class) => class.size() as usize,
            None => 0,
        }
    }

    /// Returns how many blocks of a page are allocated.
    pub fn held(&self, page: usize) -> u32
        requires { page < length self.now.pages }
        ensures allocated { result ≡ allocated_on (page_at self.now.pages page) }
        ensures within { result ≤ 512 }
    {
        self.table.held(page)
    }

    /// Returns whether a page is of the class, and neither evacuating nor a target.
    pub fn is_choosable(&self, class: Class, page: usize) -> bool
        requires { page < length self.now.pages }
        ensures { result ≡ is_choosable class (page_at self.now.pages page) }
    {
        self.table.is_choosable(class, page)
    }

    /// Returns how many free blocks of a class a page has, none if it is evacuating.
    pub fn free_on(&self, class: Class, page: usize) -> usize
        requires { page < length self.now.pages }
        ensures free { result ≡ free_on class (page_at self.now.pages page) }
        ensures within { result ≤ 512 }
    {
        self.table.free_on(class, page)
    }

    /// Returns how many blocks of a class are free, on pages that aren't evacuating.
    pub fn free_blocks(&self, class: Class) -> usize
        ensures free { result ≡ free_blocks self.now.pages class }
        ensures within { result ≤ 536870912 }
    {
        self.table.free_blocks(class)
    }

    /// Returns the first page of the class that isn't evacuating and has a free block.
    pub fn usable(&self, class: Class) -> Option<usize>
        ensures { result ≡ position (is_usable class) self.now.pages }
    {
        self.table.usable(class)
    }

    /// Returns the first allocated block of a page from a place on. On a free page none is.
    pub fn next_allocated(&self, page: usize, from: usize) -> Option<usize>
        requires { page < length self.now.pages }
        ensures finds { FindsAllocated (page_at self.now.pages page) from result }
        ensures within { IfSome result (λ i. i < 512) }
    {
        self.table.next_allocated(&self.arena, page, from)
    }

    /// Marks a page in use as evacuating: it gets no block from then on. The same blocks are allocated, with the same
    /// records.
    pub fn leave(&mut self, page: usize)
        requires page { page < length self.old.pages }
        requires is_target { IsSomeAnd (page_at self.old.pages page) (λ p. p.is_target ≡ false) }
        ensures kept { KeepsBlocks self.old self.new }
        ensures pages { IfSome (page_at self.old.pages page)
            (λ p. self.new.pages ≡ slice_set self.old.pages page (Some (record p { evacuating = true }))) }
        ensures links { LeavesLinks self.old self.new }
    {
        self.table.leave(page);
    }

    /// Moves an allocated block to a free one of a page of the same class that isn't evacuating, and returns which. The
    /// block is copied, both forward to the copy, and the page is a target. Every other block keeps its record, and
    /// stays allocated or free.
    pub fn move_block(&mut self, page: usize, index: usize, to: usize) -> usize
        requires { CanMove self.old.pages page index to }
        ensures free { IsSomeAnd (page_at self.old.pages to) (λ q. IsOpen q result) }
        ensures moved { IfSome (page_at self.old.pages page)
            (λ p. MovesBlock self.old self.new (address_of p.class page index) (address_of p.class to result)) }
        ensures pages { IfSome (page_at self.old.pages to)
            (λ q. self.new.pages ≡ slice_set self.old.pages to
            (Some (record (with_allocated q result true) { is_target = true }))) }
        ensures links { IfSome (page_at self.old.pages page)
            (λ p. CopiesLink self.old self.new (address_of p.class page index) (address_of p.class to result)) }
    {
        let size = self.block_size(page);
        let from = address(page, index, size);
        let place = self.table.take_on_target(&mut self.arena, to);
        let target = address(to, place, size);
        self.arena.set_forward(from, target as u64);
        self.arena.copy_block(from, target, size);
        place
    }

    /// Returns the address of a block of a page, by its number there, if it is allocated.
    pub fn allocated_block(&self, page: usize, index: usize) -> Option<usize>
        requires { page < length self.now.pages }
        ensures allocated { IsSome result ↔ IsSomeAnd (page_at self.now.pages page)
            (λ p. slice_get p.allocated index ≡ Some true) }
        ensures address { IfSome result
            (λ address. IfSome (page_at self.now.pages page) (λ p. address ≡ address_of p.class page index)) }
        ensures block { IfSome result (λ address. is_allocated self.now address ≡ true) }
    {
        let class = self.table.class(page)?;
        if self.table.is_allocated(&self.arena, Block { page, index }) {
            Some(address(page, index, class.size() as usize))
        } else {
            None
        }
    }

    /// Makes a part in a block of a class: the header, and this many null or zero cells. The block is
    /// a free one of the first page of the class that isn't evacuating and has one, else of the first
    /// free page. None if there is no such page, and then nothing changes.
    #[inline(always)]
    pub fn make(
        &mut self,
        class: Class,
        shape: Shape,
        part: u32,
        colour: bool,
        identity: u64,
        cells: usize,
    ) -> Option<usize>
        requires shape { ShapeFits shape }
        requires part { part < 65536 }
        requires cells { cells ≡ part_cells (cells_of shape) part }
        requires room { cells + 4 ≤ size_of class }
        ensures none { IsNone result ↔ IsNone (page_for self.old.pages class) }
        ensures page { IfSome result (λ address. page_for self.old.pages class ≡ Some (address / 2048)) }
        ensures taken { IfSome result (λ address. (index : ℕ)
            × TakesBlock self.old.pages class (address / 2048) index self.new.pages) }
        ensures within { IfSome result (λ address. address ≤ 2147483648) }
        ensures made { IfSome result (λ address. Adds self.old self.new address
            (new_record address (record { shape = shape; part = part; colour = colour }) identity)) }
        ensures kept { IsNone result → self.new ≡ self.old }
        ensures links { KeepsLinks self.old self.new }
    {
        let block = self.table.take(&mut self.arena, class)?;
        let address = address(block.page, block.index, class.size() as usize);
        self.arena
            .begin(address, shape, part, colour, identity, cells);
        Some(address)
    }
}
