//! The constants in the number of pages for a flow.

/// The least words that the blocks of a page have, whatever its size class (`pages_have_words`).
pub const LEAST_PAGE_FILL: u64 = 1832;

/// The most pages of a class that may be filled in part at once. One has blocks that were live or made before the last
/// sweep's end, one has blocks made since, and one is left after blocks were moved.
pub const PARTLY_FILLED_PAGES: u64 = 3;
