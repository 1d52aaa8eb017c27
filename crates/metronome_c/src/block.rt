//! Blocks as C sees them.
ghost use Rattle.std.specs.Prelude.{◌≡◌};
ghost use Rattle.metronome_c.specs.Opened.{held_in};
ghost use Rattle.metronome_c.specs.Figures.{Tells, block_of};

use crate::answer::MetronomeShape;
use crate::figures::tell;
use crate::metronome::Metronome;
use machine::Heap;

/// A block: the part of an object that it holds, and the object's identity and shape. As 1 or 0 it also says whether it holds a
/// part, and whether the part was moved to another block. If it holds none, each number is 0.
#[repr(C)]
#[derive(Clone, Copy, Debug, PartialEq, Eq)]
pub struct MetronomeBlock {
    pub identity: u64,
    pub shape: MetronomeShape,
    pub part: u32,
    pub held: u32,
    pub old: u32,
}

impl MetronomeBlock {
    /// Returns the block of a number on a page, or one that holds nothing if there is none.
    fn from_heap(heap: &Heap, page: usize, number: usize) -> MetronomeBlock
        ensures { result ≡ block_of page number heap.now }
    {
        match heap.block(page, number) {
            Some(view) => MetronomeBlock {
                identity: view.identity,
                shape: MetronomeShape::from_shape(view.shape),
                part: view.part,
                held: 1,
                old: u32::from(view.is_old),
            },
            None => MetronomeBlock {
                identity: 0,
                shape: MetronomeShape {
                    kind: 0,
                    refs: 0,
                    words: 0,
                },
                part: 0,
                held: 0,
                old: 0,
            },
        }
    }
}

/// Stores the block of a number, from 0, on a page of a number, from 0.
#[unsafe(no_mangle)]
pub extern "C" fn metronome_block(
    heap: &mut Metronome,
    page: usize,
    number: usize,
    block: &mut MetronomeBlock,
) -> u32
    ensures { Tells (block_of page number) (held_in heap.old) (held_in heap.new) (block.entry.now, block.exit.now) result }
{
    tell(
        block,
        heap.inspect(|inner| MetronomeBlock::from_heap(inner, page, number)),
    )
}
