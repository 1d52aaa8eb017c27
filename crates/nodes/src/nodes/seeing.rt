//! The view of one block.
ghost use Rattle.std.specs.Prelude.{◌≡◌, true};
ghost use Rattle.heap_model.specs.Store.{is_allocated, record_of};
ghost use Rattle.nodes.specs.Seen.{seen_in, block_view};

use super::Nodes;
use graph_heap::Shape;

/// The view of an allocated block: the part that it holds, and of which object.
#[derive(Clone, Copy, Debug, PartialEq, Eq)]
pub struct BlockView {
    /// The identity of the object.
    pub identity: u64,
    /// The number of the part, from 0.
    pub part: u32,
    /// The shape of the whole object.
    pub shape: Shape,
    /// Whether the part was moved to another block.
    pub is_old: bool,
}

impl Nodes {
    /// Returns the view of an allocated block.
    fn seen(&self, block: usize) -> BlockView
        requires { is_allocated self.now block ≡ true }
        ensures { result ≡ seen_in block (record_of self.now block) }
    {
        BlockView {
            identity: self.identity(block),
            part: self.arena.part(block),
            shape: self.shape(block),
            is_old: self.forward_of(block) != block as u64,
        }
    }

    /// Returns the view of a block of a page, by its number there, from 0. None if it isn't allocated, or if there is
    /// no such page or block.
    pub fn block(&self, page: usize, index: usize) -> Option<BlockView>
        ensures { result ≡ block_view self.now page index }
    {
        if page >= self.pages() {
            return None;
        }
        match self.allocated_block(page, index) {
            Some(block) => Some(self.seen(block)),
            None => None,
        }
    }
}
