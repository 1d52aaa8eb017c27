//! Laws of the words of blocks. Each function does nothing: its contract is the law.
ghost use Rattle.std.specs.Prelude.{◌≡◌, ℕ, ◌+◌, ◌<◌, ◌≤◌, ◌⊎◌, Bool, List, length, slice_index, slice_set};
ghost use Rattle.heap_model.specs.Header.{Header, header_in, header_word, recoloured, HeaderFits};
ghost use Rattle.heap_model.specs.Block.{record_at, cell_count, with_forward, with_colour, with_cell, new_record, new_words, spliced, words_at};

/// A header that was packed into word 1 is read from it again.
pub fn header_packed()
    ensures { (h : Header) → HeaderFits h → header_in (header_word h) ≡ h }
{}

/// A write outside a block leaves the block's record unchanged.
pub fn other_blocks()
    ensures { (words : List ℕ) (at v address size : ℕ) → (at < address) ⊎ (address + size ≤ at)
        → record_at (slice_set words at v) address size ≡ record_at words address size }
{}

/// A write of word 0 changes the forwarding address of the block's record, and nothing else of it.
pub fn forward_written()
    ensures { (words : List ℕ) (v address size : ℕ) → 4 ≤ size → address + size ≤ length words
        → record_at (slice_set words address v) address size ≡ with_forward (record_at words address size) v }
{}

/// A write of word 1 with another colour changes the colour of the block's record, and nothing else of it.
pub fn colour_written()
    ensures { (words : List ℕ) (colour : Bool) (address size : ℕ) → 4 ≤ size → address + size ≤ length words
        → record_at (slice_set words (address + 1) (recoloured (slice_index words (address + 1)) colour)) address size
        ≡ with_colour (record_at words address size) colour }
{}

/// A write of word 3, the link, changes nothing of the block's record.
pub fn link_written()
    ensures { (words : List ℕ) (v address size : ℕ) → 4 ≤ size → address + size ≤ length words
        → record_at (slice_set words (address + 3) v) address size ≡ record_at words address size }
{}

/// A write of a cell of the part changes that cell of the block's record, and nothing else of it.
pub fn cell_written()
    ensures { (words : List ℕ) (i v address size : ℕ) → i < length (record_at words address size).cells
        → address + size ≤ length words
        → record_at (slice_set words (address + (4 + i)) v) address size
        ≡ with_cell (record_at words address size) i v }
{}

/// A new block has the record of a new part, and each other block keeps its own.
pub fn new_block()
    ensures here { (words : List ℕ) (address size identity : ℕ) (h : Header) → HeaderFits h → cell_count h + 4 ≤ size
        → address + size ≤ length words
        → record_at (spliced words address (new_words address h identity)) address size
        ≡ new_record address h identity }
    ensures others { (words : List ℕ) (address size identity b t : ℕ) (h : Header) → cell_count h + 4 ≤ size
        → address + size ≤ length words
        → (b + t ≤ address) ⊎ (address + size ≤ b)
        → record_at (spliced words address (new_words address h identity)) b t ≡ record_at words b t }
{}

/// A copied block has the record of the one that it was copied from, and each other block keeps its own.
pub fn copied_block()
    ensures here { (words : List ℕ) (from to size : ℕ) → from + size ≤ length words → to + size ≤ length words
        → record_at (spliced words to (words_at words from size)) to size ≡ record_at words from size }
    ensures others { (words : List ℕ) (from to size b t : ℕ) → from + size ≤ length words → to + size ≤ length words
        → (b + t ≤ to) ⊎ (to + size ≤ b)
        → record_at (spliced words to (words_at words from size)) b t ≡ record_at words b t }
{}
