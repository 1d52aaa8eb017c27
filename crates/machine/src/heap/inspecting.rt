//! Figures of the whole heap, for reports.
ghost use Rattle.std.specs.Prelude.{◌≡◌, ◌≤◌, ◌↔◌, length, IfSome, IsTrue};
ghost use Rattle.heap_model.specs.Pages.{page_at};
ghost use Rattle.heap_model.specs.Pages as page_list;
ghost use Rattle.pages.specs.View.{view_of};
ghost use Rattle.roots.specs.Used.{used_in};
ghost use Rattle.nodes.specs.Copies.{copies_in, HasBlock};
ghost use Rattle.nodes.specs.Seen.{block_view};
ghost use Rattle.nodes.specs.Wasted.{wasted_on};

use super::Heap;
use nodes::{BlockView, Copies};
use pages::PageView;

impl Heap {
    /// Returns the number of pages.
    pub fn pages(&self) -> usize
        ensures pages { result ≡ length self.now.store.pages }
        ensures within { result ≤ 1048576 }
    {
        self.fields.nodes.pages()
    }

    /// Returns the number of free pages.
    pub fn free_pages(&self) -> usize
        ensures free { result ≡ page_list.free_pages self.now.store.pages }
        ensures within { result ≤ 1048576 }
    {
        self.fields.nodes.free_pages()
    }

    /// Returns the view of a page: None if the page is free, or doesn't exist.
    pub fn page(&self, page: usize) -> Option<PageView>
        ensures view { result ≡ view_of (page_at self.now.store.pages page) }
        ensures within { IfSome result (λ v. v.allocated ≤ 512) }
    {
        self.fields.nodes.page(page)
    }

    /// Returns how many words are wasted inside the allocated blocks of a page: the words of each block after the
    /// last cell of its part. The number is 0 if the page is free, or doesn't exist.
    pub fn wasted_inside(&self, page: usize) -> usize
        ensures wasted { result ≡ wasted_on self.now.store page }
        ensures within { result ≤ 131072 }
    {
        self.fields.nodes.wasted_inside(page)
    }

    /// Returns the number of root cells.
    pub fn root_cells(&self) -> usize
        ensures { result ≡ length self.now.roots }
    {
        self.fields.roots.cells().len()
    }

    /// Returns how many root cells aren't null.
    pub fn roots_used(&self) -> usize
        ensures used { result ≡ used_in self.now.roots }
        ensures within { result ≤ length self.now.roots }
    {
        self.fields.roots.used()
    }

    /// Returns whether some block of an object is allocated.
    pub fn holds(&self, id: u64) -> bool
        ensures { IsTrue result ↔ HasBlock self.now.store id }
    {
        self.fields.nodes.holds(id)
    }

    /// Returns the numbers of main copies and of old copies.
    pub fn copies(&self) -> Copies
        ensures { result ≡ copies_in self.now.store }
    {
        self.fields.nodes.copies()
    }

    /// Returns the view of block `index` of a page, from 0 on: None if the block isn't allocated, or the page or the
    /// block doesn't exist.
    pub fn block(&self, page: usize, index: usize) -> Option<BlockView>
        ensures { result ≡ block_view self.now.store page index }
    {
        self.fields.nodes.block(page, index)
    }
}
