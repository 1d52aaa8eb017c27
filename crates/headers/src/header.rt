//! Word 1 of a block.
ghost use Rattle.std.specs.Prelude.{◌≡◌, ◌+◌, ◌*◌, ◌/◌, ◌%◌, ◌^◌, ◌<◌, ◌≤◌};
ghost use Rattle.heap_model.specs.Header.{header_word, header_in, shape_in, recoloured, bit_of, ShapeFits};
ghost use Rattle.heap_model.specs.State.{same_colour};

use graph_heap::Shape;

/// A field of the word: its lowest bit, and how many bits it has.
#[derive(Clone, Copy)]
struct Field {
    low: u32,
    bits: u32,
}

/// The kind of the object: `PLAIN`, `REF_ARRAY` or `WORD_ARRAY`.
const KIND: Field = Field { low: 0, bits: 2 };

/// The colour, 1 for true.
const COLOUR: Field = Field { low: 2, bits: 1 };

/// The reference cells of a plain object.
const REFS: Field = Field { low: 8, bits: 8 };

/// The word cells of a plain object.
const WORDS: Field = Field { low: 16, bits: 8 };

/// The cells of an array.
const CELLS: Field = Field { low: 8, bits: 24 };

/// The number of the part.
const PART: Field = Field { low: 32, bits: 16 };

const PLAIN: u64 = 0;

const REF_ARRAY: u64 = 1;

const WORD_ARRAY: u64 = 2;

impl Field {
    /// Returns the bits of the field in a word.
    #[inline(always)]
    fn of(self, word: u64) -> u64
        requires low { self.low < 64 }
        requires bits { self.bits < 64 }
        ensures { result ≡ word / 2 ^ self.low % 2 ^ self.bits }
    {
        word >> self.low & ((1 << self.bits) - 1)
    }

    /// Returns the word that has a value in the field, and 0 elsewhere.
    #[inline(always)]
    fn put(self, value: u64) -> u64
        requires low { self.low < 64 }
        requires within { self.low + self.bits ≤ 64 }
        requires value { value < 2 ^ self.bits }
        ensures { result ≡ value * 2 ^ self.low }
    {
        value << self.low
    }
}

/// Returns the word of a shape, a part's number and a colour.
pub fn pack(shape: Shape, part: u32, colour: bool) -> u64
    requires shape { ShapeFits shape }
    requires part { part < 65536 }
    ensures { result ≡ header_word (record { shape = shape; part = part; colour = colour }) }
{
    let shape = match shape {
        Shape::Plain { refs, words } => {
            KIND.put(PLAIN) + REFS.put(refs as u64) + WORDS.put(words as u64)
        }
        Shape::RefArray(n) => KIND.put(REF_ARRAY) + CELLS.put(n as u64),
        Shape::WordArray(n) => KIND.put(WORD_ARRAY) + CELLS.put(n as u64),
    };
    shape + bit(colour) + PART.put(part as u64)
}

/// Returns the bit of a colour, in its place.
fn bit(colour: bool) -> u64
    ensures { result ≡ 4 * bit_of colour }
{
    COLOUR.put(colour as u64)
}

/// Returns the bit of the colour that a word says, in its place.
fn bit_in(word: u64) -> u64
    ensures { result ≡ 4 * (word / 4 % 2) }
{
    COLOUR.put(COLOUR.of(word))
}

/// Returns the shape that a word says.
#[inline(always)]
pub fn shape_of(word: u64) -> Shape
    ensures says { result ≡ shape_in word }
    ensures fits { ShapeFits result }
{
    match KIND.of(word) {
        PLAIN => Shape::Plain {
            refs: REFS.of(word) as u32,
            words: WORDS.of(word) as u32,
        },
        REF_ARRAY => Shape::RefArray(CELLS.of(word) as u32),
        _ => Shape::WordArray(CELLS.of(word) as u32),
    }
}

/// Returns the part's number that a word says.
pub fn part_of(word: u64) -> u32
    ensures says { result ≡ (header_in word).part }
    ensures within { result < 65536 }
{
    PART.of(word) as u32
}

/// Returns the colour that a word says.
pub fn colour_of(word: u64) -> bool
    ensures { result ≡ (header_in word).colour }
{
    COLOUR.of(word) == 1
}

/// Returns whether a word says a colour.
pub fn has_colour(word: u64, colour: bool) -> bool
    ensures { result ≡ same_colour colour (header_in word).colour }
{
    bit_in(word) == bit(colour)
}

/// Returns the word with another colour.
pub fn recolour(word: u64, colour: bool) -> u64
    ensures { result ≡ recoloured word colour }
{
    word - bit_in(word) + bit(colour)
}
