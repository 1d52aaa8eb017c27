//! The arena of words, block by block.
ghost use Rattle.std.specs.Prelude.{◌≡◌, ◌+◌, ◌-◌, ◌<◌, ◌≤◌, ◌*◌, ◌/◌, ◌∷◌, ◌++◌, [], IfOk, length, min, replicate, slice_index, slice_set, vec_capacity};
ghost use Rattle.heap_model.specs.Header.{header_in, header_word, recoloured, ShapeFits};
ghost use Rattle.heap_model.specs.Block.{spliced, words_at};
ghost use Rattle.heap_model.specs.State.{same_colour};

use crate::header::{colour_of, has_colour, pack, part_of, recolour, shape_of};
use graph_heap::{NoMemory, Shape};
use std::alloc::Global;
use std::marker::Model;

/// The words of a heap. A block has four words of header, and then its cells. The header has the address to which the
/// block forwards (Brooks, 1984), the shape with the part's number and the colour, the identity, and a link. Addresses
/// count words. Memory for all pages is reserved at the start; a page's words are cleared when it is first touched.
/// Contracts see the list of the words of the touched pages, and for how many pages there is memory. Each write is one
/// change of that list.
#[derive(Drop)]
pub struct Arena {
    words: Vec<u64>,
    pages: usize,
    ghost room: { 2048 * pages ≤ vec_capacity words },
}

impl Model for Arena {
    ghost use Rattle.headers.specs.Memory.{Memory};

    ghost Value = { Memory };

    ghost view = { λ a. record { words = a.words.items; pages = a.pages } };
}

impl Arena {
    ghost use Rattle.std.specs.Borrow.{sem};
    ghost use Rattle.headers.specs.Lending.{LendsWords};

    /// Returns memory for this many pages of 2048 words, none of which was touched. Refuses only for lack of memory.
    pub fn new(alloc: Global, pages: u32) -> Result<Arena, NoMemory>
        ensures { IfOk result (λ a. a ≡ record { words = []; pages = pages }) }
    {
        let pages = pages as usize;
        let words = Vec::with_capacity(alloc, 2048 * pages)?;
        Ok(Arena { words, pages })
    }

    /// Touches the first pages, this many or all: those that weren't touched before get their words, which are 0. The
    /// memory is there, so it isn't refused.
    pub fn touch(&mut self, pages: usize)
        ensures words { self.new.words ≡ self.old.words
            ++ replicate (2048 * min pages self.old.pages - length self.old.words) 0 }
        ensures pages { self.new.pages ≡ self.old.pages }
    {
        let end = 2048 * pages.min(self.pages);
        if self.words.len() < end {
            self.words.resize(end, 0).unwrap();
        }
    }

    /// Returns how many pages were touched. They are the first ones.
    pub fn pages_touched(&self) -> usize
        ensures { result ≡ length self.now.words / 2048 }
    {
        self.words.len() / 2048
    }

    /// Returns the words of the pages that were touched, for code that reads many blocks.
    #[inline(always)]
    pub fn words(&self) -> &[u64]
        ensures { result.now ≡ self.now.words }
    {
        self.words.as_slice()
    }

    /// Lends the words to loops that write many blocks; words that are left there are in the arena when the loan ends.
    #[inline(always)]
    pub fn words_mut(&mut self) -> &mut [u64]
        ensures* writes_back { sem 𝓛 (LendsWords self.entry result) }
        ensures value { result.now ≡ self.old.words }
    {
        self.words.as_mut_slice()
    }

    /// Returns the address to which a block forwards: its own, or that of the copy that was moved.
    pub fn forward_of(&self, block: usize) -> u64
        requires { block < length self.now.words }
        ensures { result ≡ slice_index self.now.words block }
    {
        self.words[block]
    }

    /// Lets a block forward to an address.
    pub fn set_forward(&mut self, block: usize, to: u64)
        requires { block < length self.old.words }
        ensures words { self.new.words ≡ slice_set self.old.words block to }
        ensures pages { self.new.pages ≡ self.old.pages }
    {
        self.words[block] = to;
    }

    /// Returns the shape of the whole object of which a block holds a part.
    pub fn shape(&self, block: usize) -> Shape
        requires { block + 1 < length self.now.words }
        ensures says { result ≡ (header_in (slice_index self.now.words (block + 1))).shape }
        ensures fits { ShapeFits result }
    {
        shape_of(self.words[block + 1])
    }

    /// Returns the number of the part that a block holds, from 0.
    pub fn part(&self, block: usize) -> u32
        requires { block + 1 < length self.now.words }
        ensures says { result ≡ (header_in (slice_index self.now.words (block + 1))).part }
        ensures within { result < 65536 }
    {
        part_of(self.words[block + 1])
    }

    /// Returns the colour of a block.
    pub fn colour(&self, block: usize) -> bool
        requires { block + 1 < length self.now.words }
        ensures { result ≡ (header_in (slice_index self.now.words (block + 1))).colour }
    {
        colour_of(self.words[block + 1])
    }

    /// Returns whether a block has a colour.
    pub fn has_colour(&self, block: usize, colour: bool) -> bool
        requires { block + 1 < length self.now.words }
        ensures { result ≡ same_colour colour (header_in (slice_index self.now.words (block + 1))).colour }
    {
        has_colour(self.words[block + 1], colour)
    }

    /// Gives a block a colour. The other bits of its header stay.
    pub fn set_colour(&mut self, block: usize, colour: bool)
        requires { block + 1 < length self.old.words }
        ensures words { self.new.words ≡ slice_set self.old.words (block + 1) (recoloured (slice_index self.old.words (block + 1)) colour) }
        ensures pages { self.new.pages ≡ self.old.pages }
    {
        let word = self.words[block + 1];
        self.words[block + 1] = recolour(word, colour);
    }

    /// Returns the identity of the object of which a block holds a part.
    pub fn identity(&self, block: usize) -> u64
        requires { block + 2 < length self.now.words }
        ensures { result ≡ slice_index self.now.words (block + 2) }
    {
        self.words[block + 2]
    }

    /// Returns the link of a block in a list of blocks.
    pub fn link(&self, block: usize) -> u64
        requires { block + 3 < length self.now.words }
        ensures { result ≡ slice_index self.now.words (block + 3) }
    {
        self.words[block + 3]
    }

    /// Links a block.
    pub fn set_link(&mut self, block: usize, link: u64)
        requires { block + 3 < length self.old.words }
        ensures words { self.new.words ≡ slice_set self.old.words (block + 3) link }
        ensures pages { self.new.pages ≡ self.old.pages }
    {
        self.words[block + 3] = link;
    }

    /// Returns cell i of a block: a word, or a reference (address plus one, 0 for null).
    pub fn cell(&self, block: usize, i: usize) -> u64
        requires { block + (4 + i) < length self.now.words }
        ensures { result ≡ slice_index self.now.words (block + (4 + i)) }
    {
        self.words[block + (4 + i)]
    }

    /// Writes cell i of a block.
    pub fn set_cell(&mut self, block: usize, i: usize, value: u64)
        requires { block + (4 + i) < length self.old.words }
        ensures words { self.new.words ≡ slice_set self.old.words (block + (4 + i)) value }
        ensures pages { self.new.pages ≡ self.old.pages }
    {
        self.words[block + (4 + i)] = value;
    }

    /// Copies `size` words of a block to another place.
    pub fn copy_block(&mut self, from: usize, to: usize, size: usize)
        requires from { from + size ≤ length self.old.words }
        requires to { to + size ≤ length self.old.words }
        ensures words { self.new.words ≡ spliced self.old.words to (words_at self.old.words from size) }
        ensures pages { self.new.pages ≡ self.old.pages }
    {
        self.words.copy_within(from..from + size, to);
    }

    /// Makes a part in a block: its header, forwarding to itself, and this many cells of 0.
    #[inline(always)]
    pub fn begin(
        &mut self,
        block: usize,
        shape: Shape,
        part: u32,
        colour: bool,
        identity: u64,
        cells: usize,
    )
        requires room { block + (4 + cells) ≤ length self.old.words }
        requires shape { ShapeFits shape }
        requires part { part < 65536 }
        ensures words { self.new.words ≡ spliced self.old.words block
            (block ∷ header_word (record { shape = shape; part = part; colour = colour }) ∷ identity ∷ 0
            ∷ replicate cells 0) }
        ensures pages { self.new.pages ≡ self.old.pages }
    {
        let header = pack(shape, part, colour);
        begin_block(self.words.as_mut_slice(), block, header, identity, cells);
    }
}

#[inline(always)]
fn begin_block(words: &mut [u64], at: usize, header: u64, identity: u64, cells: usize)
    requires { at + (4 + cells) ≤ length words.old }
    ensures { words.new ≡ spliced words.old at (at ∷ header ∷ identity ∷ 0 ∷ replicate cells 0) }
{
    begin_words(
        &mut words[at..at + (4 + cells)],
        at as u64,
        header,
        identity,
    );
}

/// Clears a block. Up to eight words are two runs of four, which may overlap: a run whose length is constant takes no call.
#[inline(always)]
fn clear(block: &mut [u64])
    requires { 4 ≤ length block.old }
    ensures { block.new ≡ replicate (length block.old) 0 }
{
    let last = block.len() - 4;
    if last <= 4 {
        block[..4].fill(0);
        block[last..].fill(0);
    } else {
        block.fill(0);
    }
}

#[inline(always)]
fn begin_words(block: &mut [u64], at: u64, header: u64, identity: u64)
    requires { 4 ≤ length block.old }
    ensures { block.new ≡ at ∷ header ∷ identity ∷ 0 ∷ replicate (length block.old - 4) 0 }
{
    clear(block);
    block[0] = at;
    block[1] = header;
    block[2] = identity;
}
