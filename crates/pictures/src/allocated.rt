//! How many blocks of a heap are allocated.
ghost use Rattle.std.specs.Prelude.{◌≡◌, ◌≤◌};
ghost use Rattle.pictures.specs.Allocated.{allocated_on, allocated_in};

use machine::Heap;

/// Blocks that are allocated, old copies too, and their words.
#[derive(Clone, Copy, Debug, PartialEq, Eq)]
pub struct Allocated {
    pub blocks: u64,
    pub words: u64,
}

/// Returns the allocated blocks of a page, and their words.
fn allocated_on(heap: &Heap, number: usize) -> Allocated
    ensures allocated { result ≡ allocated_on heap.now.store.pages number }
    ensures within { (result.blocks ≤ 131072) × (result.words ≤ 131072) }
{
    match heap.page(number) {
        None => Allocated {
            blocks: 0,
            words: 0,
        },
        Some(page) => Allocated {
            blocks: page.allocated as u64,
            words: page.allocated as u64 * u64::from(page.class.size()),
        },
    }
}

/// Returns the allocated blocks of all pages, in time linear in the pages.
pub(crate) fn blocks_of(heap: &Heap) -> Allocated
    ensures { result ≡ allocated_in heap.now.store.pages }
{
    let mut all = Allocated {
        blocks: 0,
        words: 0,
    };
    for number in 0..heap.pages() {
        let more = allocated_on(heap, number);
        all = Allocated {
            blocks: all.blocks + more.blocks,
            words: all.words + more.words,
        };
    }
    all
}
