//! The objects, parts and words of some shapes that a heap holds.
ghost use Rattle.std.specs.Prelude.{◌≡◌, ◌≤◌};
ghost use Rattle.inspector.specs.Shapes.{nothing, both, held_by, cells_of};
ghost use Rattle.inspector.specs.Counted.{IsOfBlocks};

use graph_heap::Shape;
use nodes::BlockView;

/// How many cells of each kind the objects of a shape have.
#[derive(Clone, Copy, Debug, PartialEq, Eq, PartialOrd, Ord)]
pub struct Cells {
    /// References.
    pub refs: u32,
    /// Words.
    pub words: u32,
}

/// The objects, parts and words of some shapes that a heap holds. Old copies count nowhere.
#[derive(Clone, Copy, Debug, PartialEq, Eq)]
pub struct Held {
    /// How many objects they are.
    pub objects: u64,
    /// How many parts they have.
    pub parts: u64,
    /// The words of the blocks of these parts.
    pub words: u64,
}

/// Returns the cells of a shape.
pub(crate) fn cells_of(shape: Shape) -> Cells
    ensures { result ≡ cells_of shape }
{
    let (refs, words) = match shape {
        Shape::Plain { refs, words } => (refs, words),
        Shape::RefArray(refs) => (refs, 0),
        Shape::WordArray(words) => (0, words),
    };
    Cells { refs, words }
}

/// Returns the figures of no object.
pub(crate) fn nothing() -> Held
    ensures { result ≡ nothing }
{
    Held {
        objects: 0,
        parts: 0,
        words: 0,
    }
}

impl Held {
    /// Adds a part in a block of this many words: an object counts with its part 0.
    pub(crate) fn with(self, size: u64, block: BlockView) -> Held
        requires before { IsOfBlocks self 536870912 }
        requires size { size ≤ 256 }
        ensures { result ≡ both self (held_by size block) }
    {
        Held {
            objects: self.objects + u64::from(block.part == 0),
            parts: self.parts + 1,
            words: self.words + size,
        }
    }
}
