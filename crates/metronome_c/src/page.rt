//! Pages as C sees them.
ghost use Rattle.std.specs.Prelude.{◌≡◌};
ghost use Rattle.metronome_c.specs.Opened.{held_in};
ghost use Rattle.metronome_c.specs.Figures.{Tells, page_of};

use crate::figures::tell;
use crate::metronome::Metronome;
use machine::Heap;

/// A page: the words of each of its blocks, how many of these are held, and whether it is leaving or receiving, as 1 or 0. If
/// the page is free, each number is 0.
#[repr(C)]
#[derive(Clone, Copy, Debug, PartialEq, Eq)]
pub struct MetronomePage {
    pub size: u32,
    pub held: u32,
    pub leaving: u32,
    pub receiving: u32,
}

impl MetronomePage {
    /// Returns the page of a number, or a free one if there is none.
    pub(crate) fn from_heap(heap: &Heap, number: usize) -> MetronomePage
        ensures { result ≡ page_of number heap.now }
    {
        match heap.page(number) {
            Some(view) => MetronomePage {
                size: view.class.size(),
                held: view.allocated as u32,
                leaving: u32::from(view.evacuating),
                receiving: u32::from(view.is_target),
            },
            None => MetronomePage {
                size: 0,
                held: 0,
                leaving: 0,
                receiving: 0,
            },
        }
    }
}

/// Stores the page of a number, from 0.
#[unsafe(no_mangle)]
pub extern "C" fn metronome_page(
    heap: &mut Metronome,
    number: usize,
    page: &mut MetronomePage,
) -> u32
    ensures { Tells (page_of number) (held_in heap.old) (held_in heap.new) (page.old, page.new) result }
{
    tell(
        page,
        heap.inspect(|inner| MetronomePage::from_heap(inner, number)),
    )
}
