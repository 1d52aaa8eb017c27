//! The records of allocated blocks, read and written.
ghost use Rattle.std.specs.Prelude.{◌≡◌, ◌≢◌, ◌+◌, ◌-◌, ◌<◌, ◌≤◌, length, slice_index, slice_set, true};
ghost use Rattle.heap_model.specs.Action.{KeepsBlocks};
ghost use Rattle.heap_model.specs.Block.{with_colour, with_cell};
ghost use Rattle.heap_model.specs.Cut.{width_in};
ghost use Rattle.heap_model.specs.State.{same_colour, width_at};
ghost use Rattle.heap_model.specs.Store.{is_allocated, record_of, Writes};
ghost use Rattle.nodes.specs.Links.{link_of, KeepsLinks};
ghost use Rattle.nodes.specs.Referent.{referent_of};

use super::{Nodes, Referent};
use graph_heap::Shape;
use size_classes::{PART_CELLS, PartContents};

/// Returns how many reference cells a part has, for an object with this many reference and word cells. A spine has
/// nothing else; a piece has its share.
#[inline(always)]
#[tactic(auto, unfolding(heap_model::specs::Cut::width_in))]
fn width_of(refs: u32, words: u32, part: u32) -> usize
    ensures { result ≡ width_in refs words part }
{
    let refs = refs as usize;
    let cells = refs + words as usize;
    if part == 0 && cells <= PART_CELLS {
        return refs;
    }
    let run = PartContents::of_part(cells, part);
    if run.spine {
        run.count
    } else {
        run.count.min(refs.saturating_sub(run.first))
    }
}

impl Nodes {
    /// Returns the address to which an allocated block forwards.
    #[inline(always)]
    pub fn forward_of(&self, block: usize) -> u64
        requires { is_allocated self.now block ≡ true }
        ensures { result ≡ (record_of self.now block).forward }
    {
        self.arena.forward_of(block)
    }

    /// Returns the reference of an allocated block: its address plus one.
    #[inline(always)]
    pub fn reference_of(&self, block: usize) -> u64
        requires { is_allocated self.now block ≡ true }
        ensures reference { result ≡ block + 1 }
        ensures within { result ≤ 2147483648 }
    {
        // The words are read here only to know that the block is on a page.
        let _words = &self.arena;
        block as u64 + 1
    }

    /// Returns the object that a reference names, by way of the forwarding word of its block (Brooks, 1984).
    #[inline(always)]
    pub fn resolve(&self, reference: u64) -> Referent
        requires block { reference ≢ 0 → is_allocated self.now (reference - 1) ≡ true }
        requires main { reference ≢ 0 → is_allocated self.now (record_of self.now (reference - 1)).forward ≡ true }
        ensures { result ≡ referent_of self.now reference }
    {
        if reference == 0 {
            return Referent {
                identity: 0,
                reference: 0,
            };
        }
        self.follow(reference)
    }

    /// Follows a reference that isn't null.
    #[inline(always)]
    pub fn follow(&self, reference: u64) -> Referent
        requires some { reference ≢ 0 }
        requires block { is_allocated self.now (reference - 1) ≡ true }
        requires main { is_allocated self.now (record_of self.now (reference - 1)).forward ≡ true }
        ensures { result ≡ referent_of self.now reference }
    {
        let block = self.forward_of(reference as usize - 1) as usize;
        Referent {
            identity: self.identity(block),
            reference: self.reference_of(block),
        }
    }

    /// Returns the shape of the object of which an allocated block holds a part.
    #[inline(always)]
    pub fn shape(&self, block: usize) -> Shape
        requires { is_allocated self.now block ≡ true }
        ensures { result ≡ (record_of self.now block).shape }
    {
        self.arena.shape(block)
    }

    /// Returns how many cells of an allocated block are references: they stand first.
    #[inline(always)]
    pub fn width(&self, block: usize) -> usize
        requires { is_allocated self.now block ≡ true }
        ensures { result ≡ width_at (record_of self.now block) }
    {
        let part = self.arena.part(block);
        match self.arena.shape(block) {
            Shape::Plain { refs, words } => width_of(refs, words, part),
            Shape::RefArray(n) => width_of(n, 0, part),
            Shape::WordArray(n) => width_of(0, n, part),
        }
    }

    /// Returns the identity of a block's object.
    #[inline(always)]
    pub fn identity(&self, block: usize) -> u64
        requires { is_allocated self.now block ≡ true }
        ensures { result ≡ (record_of self.now block).identity }
    {
        self.arena.identity(block)
    }

    /// Returns the colour of an allocated block.
    pub fn colour(&self, block: usize) -> bool
        requires { is_allocated self.now block ≡ true }
        ensures { result ≡ (record_of self.now block).colour }
    {
        self.arena.colour(block)
    }

    /// Returns whether an allocated block has a colour.
    pub fn has_colour(&self, block: usize, colour: bool) -> bool
        requires { is_allocated self.now block ≡ true }
        ensures { result ≡ same_colour colour (record_of self.now block).colour }
    {
        self.arena.has_colour(block, colour)
    }

    /// Gives an allocated block a colour.
    pub fn set_colour(&mut self, block: usize, colour: bool)
        requires { is_allocated self.old block ≡ true }
        ensures written { Writes self.old self.new block (with_colour (record_of self.old block) colour) }
        ensures links { KeepsLinks self.old self.new }
    {
        self.arena.set_colour(block, colour);
    }

    /// Returns cell i of an allocated block.
    #[inline(always)]
    pub fn cell(&self, block: usize, i: usize) -> u64
        requires allocated { is_allocated self.now block ≡ true }
        requires within { i < length (record_of self.now block).cells }
        ensures { result ≡ slice_index (record_of self.now block).cells i }
    {
        self.arena.cell(block, i)
    }

    /// Writes cell i of an allocated block.
    #[inline(always)]
    pub fn set_cell(&mut self, block: usize, i: usize, value: u64)
        requires allocated { is_allocated self.old block ≡ true }
        requires within { i < length (record_of self.old block).cells }
        ensures written { Writes self.old self.new block (with_cell (record_of self.old block) i value) }
        ensures links { KeepsLinks self.old self.new }
    {
        self.arena.set_cell(block, i, value);
    }

    /// Returns the link in the header of an allocated block, by which lists of blocks are threaded.
    pub fn link(&self, block: usize) -> u64
        requires { is_allocated self.now block ≡ true }
        ensures { result ≡ link_of self.now block }
    {
        self.arena.link(block)
    }

    /// Gives an allocated block another link. The same blocks are allocated, with the same records.
    pub fn set_link(&mut self, block: usize, link: u64)
        requires { is_allocated self.old block ≡ true }
        ensures linked { self.new ≡ record self.old { words = slice_set self.old.words (block + 3) link } }
        ensures there { link_of self.new block ≡ link }
        ensures kept { KeepsBlocks self.old self.new }
    {
        self.arena.set_link(block, link);
    }
}
