//! The words that an object takes.
ghost use Rattle.std.specs.Prelude.{◌≡◌};
ghost use Rattle.metronome_c.specs.Words.{words_by};

use graph_heap::Shape;
use paced::words_of_shape;

/// Returns the words of the blocks that an object of a shape takes, headers included, as a plan counts them. The kind and the cells are
/// those of a `MetronomeShape`. Returns 0 if the shape is too large, or if there is no such kind.
#[unsafe(no_mangle)]
pub extern "C" fn metronome_block_words(kind: u32, refs: u32, words: u32) -> u64
    ensures { result ≡ words_by kind refs words }
{
    match kind {
        0 => words_of_shape(&Shape::Plain { refs, words }),
        1 => words_of_shape(&Shape::RefArray(refs)),
        2 => words_of_shape(&Shape::WordArray(words)),
        _ => 0,
    }
}
