//! How many pages the blocks of a class take.
ghost use Rattle.std.specs.Prelude.{◌≡◌, ◌≤◌};
ghost use Rattle.space.specs.Space.{class_pages};

use size_classes::Class;

/// More blocks of a class than any pace can state.
pub const MOST_BLOCKS: u128 = 20_000_000_000_000_000_000_000_000_000_000_000;

/// More pages than those blocks take, with all that may be left sparse.
pub const MOST_CLASS_PAGES: u128 = 20_000_000_000_000_000_000_000_010_000_000_000;

/// Returns the pages that a class takes for this many blocks, with those that may be left sparse.
pub fn pages_of_class(class: Class, blocks: u128, spare: u32) -> u128
    requires { blocks ≤ MOST_BLOCKS }
    ensures pages { result ≡ class_pages spare class blocks }
    ensures within { result ≤ MOST_CLASS_PAGES }
{
    if blocks == 0 {
        return 0;
    }
    let each = u128::from(class.blocks_per_page());
    (blocks + (each - 1)) / each + u128::from(spare)
}
