//! The view of a page, and counts over the blocks of all pages.
ghost use Rattle.std.specs.Prelude.{◌≡◌, ◌+◌, ◌-◌, ◌*◌, ◌^◌, ◌<◌, ◌≤◌, length, true, IfSome};
ghost use Rattle.size_classes.specs.Parts.{cells_of};
ghost use Rattle.heap_model.specs.Pages.{page_at};
ghost use Rattle.heap_model.specs.Store.{is_allocated, record_of};
ghost use Rattle.pages.specs.View.{view_of};
ghost use Rattle.nodes.specs.Copies.{copies_below, copies_in};
ghost use Rattle.nodes.specs.Wasted.{words_in, wasted_on};

use super::Nodes;
use graph_heap::Shape;
use pages::PageView;
use size_classes::PartContents;

/// How many blocks hold a part: main copies forward to themselves, and old copies to the block to which
/// they were moved.
#[derive(Clone, Copy, Debug, PartialEq, Eq)]
pub struct Copies {
    /// Main copies with part number 0: there is one for each object.
    pub objects: usize,
    /// All main copies.
    pub parts: usize,
    /// Old copies.
    pub old: usize,
}

/// Returns how many cells an object of a shape has.
fn cells_in(shape: Shape) -> usize
    ensures cells { result ≡ cells_of shape }
    ensures few { result < 2 ^ 34 }
{
    match shape {
        Shape::Plain { refs, words } => refs as usize + words as usize,
        Shape::RefArray(n) | Shape::WordArray(n) => n as usize,
    }
}

impl Nodes {
    /// Returns the view of a page: None if it is free, or if there is no such page.
    pub fn page(&self, page: usize) -> Option<PageView>
        ensures view { result ≡ view_of (page_at self.now.pages page) }
        ensures within { IfSome result (λ v. v.allocated ≤ 512) }
    {
        self.table.page(page)
    }

    /// Returns how many words are wasted inside the allocated blocks of a page: those behind the last cell of each
    /// block's part. None are on a free page, or on a page that doesn't exist.
    pub fn wasted_inside(&self, page: usize) -> usize
        ensures wasted { result ≡ wasted_on self.now page }
        ensures within { result ≤ 131072 }
    {
        let Some(view) = self.page(page) else {
            return 0;
        };
        let size = view.class.size() as usize;
        let mut wasted = 0;
        for index in 0..view.class.blocks_per_page() as usize {
            if let Some(block) = self.allocated_block(page, index) {
                wasted += self.wasted_in(block, size);
            }
        }
        wasted
    }

    /// Returns how many words of an allocated block of this size its part doesn't use.
    fn wasted_in(&self, block: usize, size: usize) -> usize
        requires { is_allocated self.now block ≡ true }
        ensures wasted { result ≡ size - words_in (record_of self.now block) }
        ensures within { result ≤ size }
    {
        let cells = cells_in(self.shape(block));
        let run = PartContents::of_part(cells, self.arena.part(block));
        size.saturating_sub(run.count).saturating_sub(4)
    }

    /// Returns how many main copies and old copies there are.
    pub fn copies(&self) -> Copies
        ensures { result ≡ copies_in self.now }
    {
        let mut copies = Copies {
            objects: 0,
            parts: 0,
            old: 0,
        };
        for page in 0..self.pages() {
            copies = self.with_page(copies, page);
        }
        copies
    }

    /// Adds the copies of a page to those of the pages before it.
    fn with_page(&self, before: Copies, page: usize) -> Copies
        requires page { page < length self.now.pages }
        requires before { before ≡ copies_below self.now (2048 * page) }
        ensures { result ≡ copies_below self.now (2048 * (page + 1)) }
    {
        let Some(class) = self.table.class(page) else {
            return before;
        };
        let mut copies = before;
        for index in 0..class.blocks_per_page() as usize {
            if let Some(block) = self.allocated_block(page, index) {
                copies = self.with_block(copies, block);
            }
        }
        copies
    }

    /// Adds the copy in an allocated block to those of the blocks before it.
    fn with_block(&self, before: Copies, block: usize) -> Copies
        requires allocated { is_allocated self.now block ≡ true }
        requires before { before ≡ copies_below self.now block }
        ensures { result ≡ copies_below self.now (block + 1) }
    {
        let is_main = self.forward_of(block) == block as u64;
        let is_first = self.arena.part(block) == 0;
        Copies {
            objects: before.objects + usize::from(is_main && is_first),
            parts: before.parts + usize::from(is_main),
            old: before.old + usize::from(!is_main),
        }
    }
}
