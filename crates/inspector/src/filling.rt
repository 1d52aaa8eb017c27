//! How full the pages of a size class are.
ghost use Rattle.std.specs.Prelude.{◌≡◌, ◌≤◌};
ghost use Rattle.inspector.specs.Filling.{IsWithin, nothing, page_filling, filling_on, both, filling_of};

use machine::Heap;
use size_classes::{Class, PAGE_WORDS};

/// How full some pages are.
#[derive(Clone, Copy)]
pub(crate) struct Filling {
    /// How many pages they are.
    pub pages: u64,
    /// Their allocated blocks, old copies too.
    pub allocated: u64,
    /// Their free blocks.
    pub free: u64,
    /// The words of allocated blocks behind the last cell of their part.
    pub inside: u64,
    /// The words of pages behind their last block.
    pub behind: u64,
    /// The words of free blocks.
    pub spare: u64,
}

/// Returns the figures of no page.
pub(crate) fn nothing() -> Filling
    ensures { result ≡ nothing }
{
    Filling {
        pages: 0,
        allocated: 0,
        free: 0,
        inside: 0,
        behind: 0,
        spare: 0,
    }
}

/// Returns the filling of a page of a class with this many allocated blocks, and this many words wasted inside them.
fn page_filling(class: Class, allocated: u64, inside: u64) -> Filling
    requires allocated { allocated ≤ 512 }
    requires inside { inside ≤ 131072 }
    ensures filling { result ≡ page_filling class allocated inside }
    ensures within { IsWithin result 131072 }
{
    let size = u64::from(class.size());
    let blocks = u64::from(class.blocks_per_page());
    let free = blocks.saturating_sub(allocated);
    let (cut, spare) = (blocks * size, free * size);
    Filling {
        pages: 1,
        allocated,
        free,
        inside,
        behind: u64::from(PAGE_WORDS).saturating_sub(cut),
        spare,
    }
}

/// Returns the filling of a page, if it has the class; else an empty one.
fn filling_on(heap: &Heap, class: Class, number: usize) -> Filling
    ensures filling { result ≡ filling_on heap.now.store class number }
    ensures within { IsWithin result 131072 }
{
    let Some(page) = heap.page(number) else {
        return nothing();
    };
    if page.class.number() != class.number() {
        return nothing();
    }
    page_filling(
        class,
        page.allocated as u64,
        heap.wasted_inside(number) as u64,
    )
}

/// Returns the filling of some pages and of some others.
pub(crate) fn both(some: Filling, others: Filling) -> Filling
    requires some { IsWithin some 8796093022208 }
    requires others { IsWithin others 8796093022208 }
    ensures { result ≡ both some others }
{
    Filling {
        pages: some.pages + others.pages,
        allocated: some.allocated + others.allocated,
        free: some.free + others.free,
        inside: some.inside + others.inside,
        behind: some.behind + others.behind,
        spare: some.spare + others.spare,
    }
}

/// Returns the filling of all pages of a class.
pub(crate) fn filling_of(heap: &Heap, class: Class) -> Filling
    ensures filling { result ≡ filling_of heap.now.store class }
    ensures within { IsWithin result 137438953472 }
{
    let mut all = nothing();
    for number in 0..heap.pages() {
        all = both(all, filling_on(heap, class, number));
    }
    all
}
