//! Questions about the pages: some are answered by the records alone, others also need the words.
ghost use Rattle.std.specs.Prelude.{◌≡◌, ◌-◌, ◌^◌, ◌<◌, ◌≤◌, ◌↔◌, IsTrue, slice_get, slice_index, position, length, IfSome, IsSomeAnd, Some, true, option_map};
ghost use Rattle.size_classes.specs.Need.{blocks_needed};
ghost use Rattle.size_classes.specs.Parts.{parts_in};
ghost use Rattle.heap_model.specs.Pages.{page_at, is_usable, free_on, free_blocks, has_room, whole_pages};
ghost use Rattle.heap_model.specs.Pages as page_list;
ghost use Rattle.heap_model.specs.Action.{allocated_on, is_choosable};
ghost use Rattle.pages.specs.Places.{FindsAllocated};
ghost use Rattle.pages.specs.Together.{pages_in, Together, Tells};
ghost use Rattle.pages.specs.View.{view_of};

use super::{Block, PageTable};
use crate::free_list::{is_taken, next_allocated};
use crate::page;
use crate::view::PageView;
use headers::Arena;
use size_classes::{CLASSES, Class, Need, Parts, class_of};

impl PageTable {
    /// Returns how many pages there are.
    pub fn len(&self) -> usize
        ensures pages { result ≡ length self.now }
        ensures within { result ≤ 1048576 }
    {
        self.rows.len()
    }

    /// Returns how many pages are free.
    pub fn free_pages(&self) -> usize
        ensures free { Tells self.now (λ pages. result ≡ page_list.free_pages pages) }
        ensures within { result ≤ 1048576 }
    {
        self.free_pages
    }

    /// Returns how many blocks of a class are free, on pages that aren't evacuating.
    pub fn free_blocks(&self, class: Class) -> usize
        ensures free { Tells self.now (λ pages. result ≡ free_blocks pages class) }
        ensures within { result ≤ 536870912 }
    {
        self.free_blocks[class.number()]
    }

    /// Returns whether there is room for the parts of an object. If no free block is left for them, needed blocks take
    /// whole pages, and there are as many free pages.
    #[inline(always)]
    pub fn room(&self, parts: &Parts) -> bool
        ensures { Tells self.now (λ pages. result ≡ has_room pages (blocks_needed parts.now (parts_in parts.now))) }
    {
        if parts.count() > 1 {
            return self.room_for(&Need::from_parts(parts));
        }
        // One part needs one block.
        let class = class_of(parts.words(0)).unwrap();
        self.free_blocks(class) > 0 || self.free_pages() > 0
    }

    /// Returns whether there is room for this many blocks of each class.
    #[inline(never)]
    fn room_for(&self, need: &Need) -> bool
        ensures { Tells self.now (λ pages. result ≡ has_room pages (λ class. slice_index need.now class)) }
    {
        let mut pages = 0u64;
        for number in 0..CLASSES as u8 {
            let class = Class::new(number);
            pages += self.pages_for(class, need.blocks(class));
        }
        pages <= self.free_pages() as u64
    }

    /// Returns how many free pages this many blocks of a class need.
    fn pages_for(&self, class: Class, blocks: u32) -> u64
        ensures pages { Tells self.now (λ pages. result ≡ whole_pages class (blocks - free_blocks pages class)) }
        ensures within { result ≤ 2 ^ 32 }
    {
        if blocks == 0 {
            return 0;
        }
        let missing = u64::from(blocks).saturating_sub(self.free_blocks(class) as u64);
        missing.div_ceil(u64::from(class.blocks_per_page()))
    }

    /// Returns the first page of the class that isn't evacuating and has a free block.
    pub fn usable(&self, class: Class) -> Option<usize>
        ensures { Tells self.now (λ pages. result ≡ position (is_usable class) pages) }
    {
        self.first_usable(class)
    }

    /// Returns the class of a page that is in use; None for a free page.
    pub fn class(&self, page: usize) -> Option<Class>
        requires { page < length self.now }
        ensures { Tells self.now (λ pages. result ≡ option_map (λ p. p.class) (page_at pages page)) }
    {
        Some(self.row(page)?.class)
    }

    /// Returns how many blocks of a page are allocated.
    pub fn held(&self, page: usize) -> u32
        requires { page < length self.now }
        ensures allocated { Tells self.now (λ pages. result ≡ allocated_on (page_at pages page)) }
        ensures within { Tells self.now (λ pages. result ≤ 512) }
    {
        match self.row(page) {
            Some(row) => row.allocated,
            None => 0,
        }
    }

    /// Returns the view of a page: None if it is free, or if there is no such page.
    pub fn page(&self, page: usize) -> Option<PageView>
        ensures view { Tells self.now (λ pages. result ≡ view_of (page_at pages page)) }
        ensures within { Tells self.now (λ pages. IfSome result (λ v. v.allocated ≤ 512)) }
    {
        if page >= self.rows.len() {
            return None;
        }
        let row = self.row(page)?;
        Some(PageView {
            class: row.class,
            allocated: row.allocated as usize,
            evacuating: row.evacuating,
            is_target: row.is_target,
        })
    }

    /// Returns whether a page is of the class, and neither evacuating nor a target.
    pub fn is_choosable(&self, class: Class, page: usize) -> bool
        requires { page < length self.now }
        ensures { Tells self.now (λ pages. result ≡ is_choosable class (page_at pages page)) }
    {
        page::is_choosable(class, self.row(page))
    }

    /// Returns how many free blocks of a class a page has, none if it is evacuating.
    pub fn free_on(&self, class: Class, page: usize) -> usize
        requires { page < length self.now }
        ensures free { Tells self.now (λ pages. result ≡ free_on class (page_at pages page)) }
        ensures within { result ≤ 512 }
    {
        page::free_on(class, self.row(page))
    }

    /// Returns whether a block is allocated. On a free page none is.
    pub fn is_allocated(&self, arena: &Arena, block: Block) -> bool
        requires together { Together self.now arena.now.words }
        requires page { block.page < length self.now }
        ensures { IsTrue result ↔ IsSomeAnd (page_at (pages_in self.now arena.now.words) block.page)
            (λ p. slice_get p.allocated block.index ≡ Some true) }
    {
        match self.row(block.page) {
            Some(row) => {
                block.index < row.class.blocks_per_page() as usize
                    && is_taken(arena, block.page, row.class, block.index)
            }
            None => false,
        }
    }

    /// Returns the first allocated block of a page from a place on. On a free page none is.
    pub fn next_allocated(&self, arena: &Arena, page: usize, from: usize) -> Option<usize>
        requires together { Together self.now arena.now.words }
        requires page { page < length self.now }
        ensures finds { FindsAllocated (page_at (pages_in self.now arena.now.words) page) from result }
        ensures within { IfSome result (λ i. i < 512) }
    {
        next_allocated(arena, page, self.row(page)?.class, from)
    }
}
