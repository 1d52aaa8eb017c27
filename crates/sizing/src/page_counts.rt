//! The pages that blocks take.
ghost use Rattle.std.specs.Prelude.{◌≡◌, ◌<◌, ◌≤◌, ℕ};
ghost use Rattle.size_classes.specs.declared.class.TheConstants.{CLASSES};
ghost use Rattle.space.specs.declared.pages.TheConstants.{MOST_BLOCKS, MOST_CLASS_PAGES};
ghost use Rattle.heap_model.specs.Pages.{whole_pages};
ghost use Rattle.fragmentation.specs.Suffice.{gathered_pages, pages_of};
ghost use Rattle.sizing.specs.Counts.{AreBlocks, IsPages};
ghost use Rattle.sizing.specs.Season.{pages_gathered};

use crate::blocks::Blocks;
use size_classes::{CLASSES, Class};
use space::pages::MOST_BLOCKS;
use space::pages_of_class;

/// Returns the whole pages that this many blocks take, of the class with this number.
pub fn whole_of(number: usize, blocks: u128) -> u128
    requires class { number < CLASSES }
    requires blocks { blocks ≤ MOST_BLOCKS }
    ensures pages { result ≡ whole_pages number blocks }
    ensures within { result ≤ MOST_CLASS_PAGES }
{
    pages_of_class(Class::new(number as u8), blocks, 0)
}

/// Returns the pages that this many gathered blocks of a class take: one more than whole pages if they fill a page,
/// because one may be left.
pub fn gathered_of(number: usize, blocks: u128) -> u128
    requires class { number < CLASSES }
    requires blocks { blocks ≤ MOST_BLOCKS }
    ensures pages { result ≡ gathered_pages number blocks }
    ensures within { result ≤ MOST_CLASS_PAGES }
{
    let class = Class::new(number as u8);
    let left = blocks >= u128::from(class.blocks_per_page());
    pages_of_class(class, blocks, u32::from(left))
}

/// Returns the whole pages that this many blocks of each class take.
pub fn pages_of(blocks: &Blocks) -> u128
    ensures { (n : ℕ → ℕ) → AreBlocks blocks.now n → IsPages result (pages_of n) }
{
    let mut pages = 0u128;
    for number in 0..CLASSES {
        pages += whole_of(number, blocks[number].min(MOST_BLOCKS));
    }
    pages
}

/// Returns the pages of the gathered blocks of each class, and of those made since.
pub fn season_pages(before: &Blocks, made: &Blocks) -> u128
    ensures { (b m : ℕ → ℕ) → AreBlocks before.now b → AreBlocks made.now m → IsPages result (pages_gathered b m) }
{
    let mut pages = 0u128;
    for number in 0..CLASSES {
        pages += gathered_of(number, before[number].min(MOST_BLOCKS));
        pages += whole_of(number, made[number].min(MOST_BLOCKS));
    }
    pages
}
