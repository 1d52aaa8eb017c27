//! A block in a row of words, for loops over many blocks, which borrow the row once.
ghost use Rattle.std.specs.Prelude.{◌≡◌, ◌+◌, ◌<◌, length, slice_index, slice_set};
ghost use Rattle.heap_model.specs.Header.{header_in};
ghost use Rattle.heap_model.specs.State.{same_colour};

use crate::header;

/// Returns the address to which a block forwards: its own, or that of the copy that was moved.
#[inline(always)]
pub fn forward_of(words: &[u64], block: usize) -> u64
    requires { block < length words.now }
    ensures { result ≡ slice_index words.now block }
{
    words[block]
}

/// Lets a block forward to an address.
#[inline(always)]
pub fn set_forward(words: &mut [u64], block: usize, to: u64)
    requires { block < length words.old }
    ensures { words.new ≡ slice_set words.old block to }
{
    words[block] = to;
}

/// Returns whether a block has a colour.
#[inline(always)]
pub fn has_colour(words: &[u64], block: usize, colour: bool) -> bool
    requires { block + 1 < length words.now }
    ensures { result ≡ same_colour colour (header_in (slice_index words.now (block + 1))).colour }
{
    header::has_colour(words[block + 1], colour)
}

/// Links a block.
#[inline(always)]
pub fn set_link(words: &mut [u64], block: usize, link: u64)
    requires { block + 3 < length words.old }
    ensures { words.new ≡ slice_set words.old (block + 3) link }
{
    words[block + 3] = link;
}
