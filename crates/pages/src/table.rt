//! All pages.
ghost use Rattle.std.specs.Prelude.{◌≡◌, ◌+◌, ◌<◌, ◌≤◌, ◌↔◌, slice_get, slice_set, position, length, replicate, List, ℕ, IsNone, IfSome, IsSomeAnd, Some, None, true, false, IfOk};
ghost use Rattle.heap_model.specs.Pages.{page_for, page_at, page_of_class, fresh_page, with_allocated, IsOpen, TakesBlock};
ghost use Rattle.heap_model.specs.Action.{closed};
ghost use Rattle.pages.specs.Index.{row_at, row_closed, OfClass, row_usable, row_free, row_given, bit, HasFree};
ghost use Rattle.pages.specs.Places.{CanBeTarget};
ghost use Rattle.pages.specs.Sweeping.{Looks, LooksAndCloses};
ghost use Rattle.pages.specs.Together.{joined, pages_in, Together, KeepsAllocated};

use crate::bits::BitRow;
use crate::free_list::{link_blocks, pop, push, sweep};
use crate::page::{PageRow, free_on, is_usable};
use graph_heap::NoMemory;
use headers::Arena;
use size_classes::{CLASSES, Class};
use std::alloc::Global;
use std::marker::Model;

pub mod reading;

/// A block: the number of its page, and its own on that page, both from 0.
#[derive(Clone, Copy, Debug, PartialEq, Eq)]
pub struct Block {
    pub page: usize,
    pub index: usize,
}

/// The pages of a heap. Each page in use has a record. For each class there is a bit for each page that isn't evacuating
/// and has a free block, and the number of free blocks on these pages. There is a bit for each free page, and their
/// number. Contracts see the list of the records. With the words of the arena they are the pages.
#[derive(Drop)]
pub struct PageTable {
    rows: Vec<Option<PageRow>>,
    usable: Vec<BitRow>,
    free: BitRow,
    free_blocks: Vec<usize>,
    free_pages: usize,
}

impl Model for PageTable {
    ghost use Rattle.std.specs.Prelude.{List, Option};
    ghost use Rattle.pages.specs.declared.page.PageRow.{PageRow};
    ghost use Rattle.pages.specs.Table.{rows_in, IsKept};

    ghost Value = { List (Option PageRow) };

    ghost view = { rows_in };

    ghost invariant = { IsKept };
}

/// Returns a number of pages, once a page that was counted or not is counted or not.
fn counted(pages: usize, was: bool, is: bool) -> usize
    requires some { bit was ≤ pages }
    requires room { pages ≤ 1048576 }
    ensures { result + bit was ≡ pages + bit is }
{
    pages - was as usize + is as usize
}

impl PageTable {
    /// This many free pages. Refused only for lack of memory.
    pub fn new(alloc: Global, pages: u32) -> Result<PageTable, NoMemory>
        requires { pages ≤ 1048576 }
        ensures { IfOk result (λ t. t ≡ replicate pages None) }
    {
        let mut rows = Vec::with_capacity(alloc, pages as usize)?;
        'rows: for _ in 0..pages {
            rows.push(None)?;
        }
        let mut usable = Vec::with_capacity(alloc, CLASSES)?;
        'classes: for _ in 0..CLASSES as u8 {
            let one = BitRow::new(alloc, pages)?;
            usable.push(one)?;
        }
        let mut free = BitRow::new(alloc, pages)?;
        for page in 0..pages as usize {
            free.set(page, true);
        }
        let free_blocks = vec![in alloc; 0; CLASSES]?;
        Ok(PageTable {
            rows,
            usable,
            free,
            free_blocks,
            free_pages: pages as usize,
        })
    }

    /// Returns the first page of the class that isn't evacuating and has a free block.
    #[inline(always)]
    fn first_usable(&self, class: Class) -> Option<usize>
        ensures { result ≡ position (row_usable class) self.now }
    {
        self.usable[class.number()].first()
    }

    /// Returns the first free page.
    #[inline(always)]
    fn first_free(&self) -> Option<usize>
        ensures place { result ≡ position row_free self.now }
        ensures within { IfSome result (λ k. k < 1048576) }
    {
        self.free.first()
    }

    /// Returns the record of a page.
    #[inline(always)]
    fn row(&self, page: usize) -> Option<PageRow>
        requires { page < length self.now }
        ensures row { result ≡ row_at self.now page }
        ensures few { page < 1048576 }
    {
        self.rows[page]
    }

    /// Gives a page another record. It was free or of the class, and so it is then.
    #[inline(always)]
    fn put(&mut self, page: usize, class: Class, row: Option<PageRow>)
        requires page { page < length self.old }
        requires was { OfClass class (row_at self.old page) }
        requires is { OfClass class row }
        ensures { self.new ≡ slice_set self.old page row }
    {
        let old = self.rows[page];
        let number = class.number();
        let less = free_on(class, old);
        let more = free_on(class, row);
        let was_free = old.is_none();
        let is_free = row.is_none();
        self.usable[number].change(page, less > 0, is_usable(class, row));
        self.free.set(page, is_free);
        self.free_blocks[number] = self.free_blocks[number] - less + more;
        self.free_pages = counted(self.free_pages, was_free, is_free);
        self.rows[page] = row;
    }

    /// Gives a page in use another record of its class. A bit is written only if the page gets its
    /// first free block or loses its last.
    #[inline(always)]
    fn update(&mut self, page: usize, class: Class, row: Option<PageRow>)
        requires page { page < length self.old }
        requires was { IsSomeAnd (row_at self.old page) (λ r. r.class ≡ class) }
        requires is { IsSomeAnd row (λ r. r.class ≡ class) }
        ensures { self.new ≡ slice_set self.old page row }
    {
        let old = self.rows[page];
        let now = row;
        let number = class.number();
        let less = free_on(class, old);
        let more = free_on(class, now);
        self.usable[number].change(page, less > 0, more > 0);
        let had = self.free_blocks[number];
        self.free_blocks[number] = had - less + more;
        self.rows[page] = row;
    }

    /// Gives a free page a class, and puts all its blocks on its list. A page that was never used gets its words.
    #[inline(never)]
    fn use_page(&mut self, arena: &mut Arena, page: usize, class: Class)
        requires page { page < length self.old }
        requires small { page < 1048576 }
        requires pages { arena.old.pages ≡ length self.old }
        requires together { Together self.old arena.old.words }
        requires free { row_at self.old page ≡ None }
        ensures together { Together self.new arena.new.words }
        ensures page { pages_in self.new arena.new.words
            ≡ slice_set (pages_in self.old arena.old.words) page (Some (fresh_page class)) }
        ensures len { length self.new ≡ length self.old }
        ensures words { KeepsAllocated (pages_in self.old arena.old.words) arena.old.words arena.new.words }
        ensures usable { HasFree class (row_at self.new page) }
        ensures pages { arena.new.pages ≡ arena.old.pages }
    {
        arena.touch(page + 1);
        let row = link_blocks(arena, page, class);
        self.put(page, class, Some(row));
    }

    /// Takes the first free block of a page that isn't evacuating, and returns it. A bit is written only if the page
    /// has no other free block.
    #[inline(always)]
    fn take_on(&mut self, arena: &mut Arena, page: usize, class: Class) -> usize
        requires page { page < length self.old }
        requires together { Together self.old arena.old.words }
        requires usable { HasFree class (row_at self.old page) }
        ensures together { Together self.new arena.new.words }
        ensures free { IsOpen (page_of_class class (page_at (pages_in self.old arena.old.words) page)) result }
        ensures allocated { pages_in self.new arena.new.words
            ≡ slice_set (pages_in self.old arena.old.words) page
            (Some (with_allocated (page_of_class class (page_at (pages_in self.old arena.old.words) page)) result true)) }
        ensures words { KeepsAllocated (pages_in self.old arena.old.words) arena.old.words arena.new.words }
        ensures len { length self.new ≡ length self.old }
        ensures pages { arena.new.pages ≡ arena.old.pages }
    {
        let number = class.number();
        let row = self.rows[page].as_mut().unwrap();
        let index = pop(arena, page, row);
        let is_full = row.allocated == class.blocks_per_page();
        self.free_blocks[number] -= 1;
        if is_full {
            self.usable[number].set(page, false);
        }
        index
    }

    /// Takes a block of a class: a free one of the first page of the class that isn't evacuating and has one. If there is
    /// none, it takes one of the first free page, which gets the class. If there is no free page, it returns None and
    /// nothing changes. The words of allocated blocks stay.
    #[inline(always)]
    pub fn take(&mut self, arena: &mut Arena, class: Class) -> Option<Block>
        requires together { Together self.old arena.old.words }
        requires pages { arena.old.pages ≡ length self.old }
        ensures together { Together self.new arena.new.words }
        ensures none { IsNone result ↔ IsNone (page_for (pages_in self.old arena.old.words) class) }
        ensures taken { IfSome result (λ b. TakesBlock (pages_in self.old arena.old.words) class b.page b.index
            (pages_in self.new arena.new.words)) }
        ensures words { IfSome result (λ _. KeepsAllocated (pages_in self.old arena.old.words) arena.old.words arena.new.words) }
        ensures kept { IsNone result → (self.new ≡ self.old) × (arena.new ≡ arena.old) }
        ensures pages { arena.new.pages ≡ length self.new }
    {
        match self.first_usable(class) {
            Some(page) => {
                let index = self.take_on(arena, page, class);
                Some(Block { page, index })
            }
            None => match self.first_free() {
                Some(page) => {
                    self.use_page(arena, page, class);
                    let index = self.take_on(arena, page, class);
                    Some(Block { page, index })
                }
                None => None,
            },
        }
    }

    /// Gives an allocated block back: it is free, and the next that is taken of its page. Every other block, and
    /// every other page, stays, and so do the words of the blocks that are allocated then.
    pub fn give(&mut self, arena: &mut Arena, block: Block)
        requires together { Together self.old arena.old.words }
        requires page { block.page < length self.old }
        requires allocated { IsSomeAnd (page_at (pages_in self.old arena.old.words) block.page)
            (λ p. slice_get p.allocated block.index ≡ Some true) }
        ensures together { Together self.new arena.new.words }
        ensures row { IfSome (row_at self.old block.page) (λ r. self.new
            ≡ slice_set self.old block.page (Some (row_given block.page block.index r))) }
        ensures given { IfSome (page_at (pages_in self.old arena.old.words) block.page) (λ p. pages_in self.new arena.new.words
            ≡ slice_set (pages_in self.old arena.old.words) block.page (Some (with_allocated p block.index false))) }
        ensures words { KeepsAllocated (pages_in self.new arena.new.words) arena.old.words arena.new.words }
        ensures len { length self.new ≡ length self.old }
        ensures pages { arena.new.pages ≡ arena.old.pages }
    {
        let mut row = self.row(block.page).unwrap();
        push(arena.words_mut(), block.page, &mut row, block.index);
        self.update(block.page, row.class, Some(row));
    }

    /// Looks at `count` blocks of a page in use, from one on: each that is allocated and hasn't the colour is given
    /// back. Every other block, and every other page, stays, and so do the words of the blocks that are allocated
    /// then.
    pub fn sweep(&mut self, arena: &mut Arena, block: Block, count: usize, colour: bool)
        requires together { Together self.old arena.old.words }
        requires page { block.page < length self.old }
        requires blocks { IsSomeAnd (page_at (pages_in self.old arena.old.words) block.page)
            (λ p. block.index + count ≤ length p.allocated) }
        ensures together { Together self.new arena.new.words }
        ensures looks { Looks colour block.page block.index (joined self.old arena.old.words) count
            (joined self.new arena.new.words) }
        ensures len { length self.new ≡ length self.old }
        ensures pages { arena.new.pages ≡ arena.old.pages }
    {
        let mut row = self.row(block.page).unwrap();
        sweep(arena, block.page, &mut row, block.index, count, colour);
        self.update(block.page, row.class, Some(row));
    }

    /// Closes a page in use that has this record: its marks go, and if no block is allocated, the page becomes free.
    #[inline(always)]
    fn close_as(&mut self, page: usize, row: PageRow)
        requires page { page < length self.old }
        requires was { IsSomeAnd (row_at self.old page) (λ r. r.class ≡ row.class) }
        ensures { self.new ≡ slice_set self.old page (row_closed (Some row)) }
    {
        if row.allocated == 0 {
            self.put(page, row.class, None);
        } else {
            let closed = PageRow {
                evacuating: false,
                is_target: false,
                ..row
            };
            self.update(page, row.class, Some(closed));
        }
    }

    /// Looks at `count` blocks of a page in use, as `sweep` does, and then closes the page. It writes one record for both.
    pub fn sweep_and_close(&mut self, arena: &mut Arena, block: Block, count: usize, colour: bool)
        requires together { Together self.old arena.old.words }
        requires page { block.page < length self.old }
        requires blocks { IsSomeAnd (page_at (pages_in self.old arena.old.words) block.page)
            (λ p. block.index + count ≤ length p.allocated) }
        ensures does { LooksAndCloses colour block.page block.index count self.old self.new arena.old.words arena.new.words }
        ensures together { Together self.new arena.new.words }
        ensures len { length self.new ≡ length self.old }
        ensures pages { arena.new.pages ≡ arena.old.pages }
    {
        let mut swept = self.row(block.page).unwrap();
        sweep(arena, block.page, &mut swept, block.index, count, colour);
        self.close_as(block.page, swept);
    }

    /// Takes the first free block of a page that isn't evacuating, for one that is moved there: it is allocated,
    /// and the page a target. The words of allocated blocks stay.
    pub fn take_on_target(&mut self, arena: &mut Arena, page: usize) -> usize
        requires together { Together self.old arena.old.words }
        requires page { page < length self.old }
        requires free { CanBeTarget (page_at (pages_in self.old arena.old.words) page) }
        ensures together { Together self.new arena.new.words }
        ensures open { IsSomeAnd (page_at (pages_in self.old arena.old.words) page) (λ p. IsOpen p result) }
        ensures allocated { IfSome (page_at (pages_in self.old arena.old.words) page)
            (λ p. pages_in self.new arena.new.words
            ≡ slice_set (pages_in self.old arena.old.words) page
            (Some (record (with_allocated p result true) { is_target = true }))) }
        ensures words { KeepsAllocated (pages_in self.old arena.old.words) arena.old.words arena.new.words }
        ensures len { length self.new ≡ length self.old }
        ensures pages { arena.new.pages ≡ arena.old.pages }
    {
        let mut row = self.row(page).unwrap();
        let index = pop(arena, page, &mut row);
        row.is_target = true;
        self.update(page, row.class, Some(row));
        index
    }

    /// Marks a page in use as evacuating: it gets no block from then on. Words that went together with the table still
    /// do.
    pub fn leave(&mut self, page: usize)
        requires page { page < length self.old }
        requires is_target { IsSomeAnd (row_at self.old page) (λ r. r.is_target ≡ false) }
        ensures together { (words : List ℕ) → Together self.old words → Together self.new words }
        ensures mark { (words : List ℕ) → Together self.old words
            → IfSome (page_at (pages_in self.old words) page)
            (λ p. pages_in self.new words ≡ slice_set (pages_in self.old words) page
            (Some (record p { evacuating = true }))) }
        ensures len { length self.new ≡ length self.old }
    {
        let mut row = self.row(page).unwrap();
        row.evacuating = true;
        self.update(page, row.class, Some(row));
    }

    /// Closes a page, as the sweeper does when it has looked at all its blocks: it is no longer evacuating or a target.
    /// If none of its blocks is allocated, it becomes free. Words that went together with the table still do.
    pub fn close_page(&mut self, page: usize)
        requires { page < length self.old }
        ensures together { (words : List ℕ) → Together self.old words → Together self.new words }
        ensures closed { (words : List ℕ) → Together self.old words
            → pages_in self.new words ≡ slice_set (pages_in self.old words) page
            (closed (page_at (pages_in self.old words) page)) }
        ensures len { length self.new ≡ length self.old }
    {
        if let Some(mut row) = self.row(page) {
            if row.allocated == 0 {
                self.put(page, row.class, None);
            } else {
                row.evacuating = false;
                row.is_target = false;
                self.update(page, row.class, Some(row));
            }
        }
    }
}
