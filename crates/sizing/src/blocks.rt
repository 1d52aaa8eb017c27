//! Counts of blocks, by size class.
ghost use Rattle.std.specs.Prelude.{◌≡◌, ℕ, ◌+◌, ◌<◌, ◌^◌, true, max, min, slice_index, IfSome, IsNone};
ghost use Rattle.graph_heap.specs.Shape.{fits};
ghost use Rattle.size_classes.specs.Need.{needed};
ghost use Rattle.sizing.specs.Counts.{MOST, AreBlocks, IsTable, HasOver};

use graph_heap::Shape;
use size_classes::{CLASSES, Class, Need, parts_of};

/// How many blocks of each class. A count stops at the greatest that can be represented.
pub type Blocks = [u128; CLASSES];

/// Returns no block of any class.
pub fn none() -> Blocks
    ensures { AreBlocks result (λ class. 0) }
{
    [0; CLASSES]
}

/// Returns the blocks that an object of a shape needs; none if the shape is too large.
pub fn needed_by(shape: &Shape) -> Blocks
    ensures { fits shape.now ≡ true → AreBlocks result (needed shape.now) }
{
    let mut blocks = none();
    if let Some(parts) = parts_of(shape) {
        let need = Need::from_parts(&parts);
        for number in 0..CLASSES {
            blocks[number] = u128::from(need.blocks(Class::new(number as u8)));
        }
    }
    blocks
}

/// Adds this many blocks.
pub fn add(blocks: &mut Blocks, more: &Blocks)
    ensures { (class : ℕ) → class < CLASSES
        → slice_index blocks.new class ≡ min (slice_index blocks.old class + slice_index more.now class) MOST }
{
    for number in 0..CLASSES {
        blocks[number] = blocks[number].saturating_add(more[number]);
    }
}

/// Raises blocks to at least these.
pub fn raise(blocks: &mut Blocks, least: &Blocks)
    ensures { (class : ℕ) → class < CLASSES
        → slice_index blocks.new class ≡ max (slice_index blocks.old class) (slice_index least.now class) }
{
    for number in 0..CLASSES {
        blocks[number] = blocks[number].max(least[number]);
    }
}

/// Returns the blocks as a table, or None if a count is more than a table can hold.
pub fn table(blocks: &Blocks) -> Option<[u64; CLASSES]>
    ensures some { IfSome result (λ t. IsTable (2 ^ 64) t blocks.now) }
    ensures none { IsNone result → HasOver (2 ^ 64) blocks.now }
{
    blocks.try_map(u64::try_from).ok()
}

/// Returns the blocks as a table of smaller numbers, or None if a count is more than it can hold.
pub fn small_table(blocks: &Blocks) -> Option<[u32; CLASSES]>
    ensures some { IfSome result (λ t. IsTable (2 ^ 32) t blocks.now) }
    ensures none { IsNone result → HasOver (2 ^ 32) blocks.now }
{
    blocks.try_map(u32::try_from).ok()
}
