//! The positions of an object's cells.
ghost use Rattle.std.specs.Prelude.{◌≡◌, ◌≢◌, ◌<◌, ◌≤◌, true};
ghost use Rattle.graph_heap.specs.declared.command.TheConstants.{ARRAY_CELLS};
ghost use Rattle.graph_heap.specs.Shape.{fits};
ghost use Rattle.size_classes.specs.Parts.{cells_of, parts_in, part_in, column_in, spine_of, spine_cell_of};
ghost use Rattle.heap_model.specs.Reading.{Refers, step_to, spine_at, block_of};
ghost use Rattle.arraylets.specs.CellPosition as places;

use graph_heap::{Refusal, Shape};
use nodes::Nodes;
use size_classes::{PART_CELLS, Position, spines_in};

/// The position of a cell of an object: its part, and its place among that part's cells.
#[derive(Clone, Copy, Debug, PartialEq, Eq)]
pub struct CellPosition {
    pub part: u32,
    pub cell: usize,
}

/// Returns the part in which cell i of a kind is, for an object with this many cells, and its place among the part's
/// cells of that kind.
#[inline(always)]
#[tactic(auto, unfolding(size_classes::specs::Parts::part_in, size_classes::specs::Parts::column_in))]
fn position_of(cells: u32, i: u32) -> CellPosition
    requires { i < cells }
    ensures { result ≡ record { part = part_in cells i; cell = column_in i } }
{
    if cells <= PART_CELLS as u32 {
        return CellPosition {
            part: 0,
            cell: i as usize,
        };
    }
    far_cut(cells, i)
}

/// Returns the position of cell i in an array of more cells than a part has.
#[inline(never)]
#[tactic(auto, unfolding(size_classes::specs::Parts::part_in, size_classes::specs::Parts::column_in))]
fn far_cut(cells: u32, i: u32) -> CellPosition
    requires far { 252 < cells }
    requires cell { i < cells }
    ensures { result ≡ record { part = part_in cells i; cell = column_in i } }
{
    CellPosition {
        part: spines_in(cells as usize) as u32 + i / PART_CELLS as u32,
        cell: i as usize % PART_CELLS,
    }
}

/// Returns the position of reference cell i of an object, or why there is none.
#[inline(always)]
#[tactic(auto, unfolding(size_classes::specs::Parts::part_in, size_classes::specs::Parts::column_in))]
pub fn ref_position(shape: Shape, i: u32) -> Result<CellPosition, Refusal>
    requires { fits shape ≡ true }
    ensures { result ≡ places.ref_position shape i }
{
    match shape {
        Shape::Plain { refs, words: _ } if i < refs => Ok(CellPosition {
            part: 0,
            cell: i as usize,
        }),
        Shape::RefArray(n) if i < n => Ok(position_of(n, i)),
        Shape::WordArray(_) => Err(Refusal::WrongKind),
        _ => Err(Refusal::BadIndex),
    }
}

/// Returns the position of word cell i of an object, or why there is none.
#[inline(always)]
#[tactic(auto, unfolding(size_classes::specs::Parts::part_in, size_classes::specs::Parts::column_in, heap_model::specs::Cut::width_in))]
pub fn word_position(shape: Shape, i: u32) -> Result<CellPosition, Refusal>
    requires { fits shape ≡ true }
    ensures { result ≡ places.word_position shape i }
{
    match shape {
        Shape::Plain { refs, words } if i < words => Ok(CellPosition {
            part: 0,
            cell: refs as usize + i as usize,
        }),
        Shape::WordArray(n) if i < n => Ok(position_of(n, i)),
        Shape::RefArray(_) => Err(Refusal::WrongKind),
        _ => Err(Refusal::BadIndex),
    }
}

/// Returns how many cells an object of a shape has.
fn cells_in(shape: Shape) -> u32
    requires { fits shape ≡ true }
    ensures { result ≡ cells_of shape }
{
    match shape {
        Shape::Plain { refs, words } => refs + words,
        Shape::RefArray(n) | Shape::WordArray(n) => n,
    }
}

/// Returns the block to which a cell of a spine refers, by way of the forwarding word.
fn follow_cell(nodes: &Nodes, block: usize, cell: usize) -> usize
    requires { Refers nodes.now block cell }
    ensures { result ≡ step_to nodes.now block cell }
{
    let reference = nodes.cell(block, cell);
    nodes.forward_of(reference as usize - 1) as usize
}

/// Returns the block of a part of an object, from the block of its part 0. For part 0 it is that block. The spine of
/// each other part refers to it, and is part 0 or a part to which part 0 refers.
#[inline(always)]
pub fn part_block(nodes: &Nodes, shape: Shape, block: usize, part: u32) -> usize
    requires fits { fits shape ≡ true }
    requires part { part < parts_in (cells_of shape) }
    requires spine { part ≢ 0 → spine_of (cells_of shape) part ≢ 0
        → Refers nodes.now block (spine_cell_of (cells_of shape) (spine_of (cells_of shape) part)) }
    requires piece { part ≢ 0 → Refers nodes.now (spine_at nodes.now (cells_of shape) block part)
        (spine_cell_of (cells_of shape) part) }
    ensures { result ≡ block_of nodes.now (cells_of shape) block part }
{
    if part == 0 {
        return block;
    }
    far_block(nodes, cells_in(shape), block, part)
}

/// Returns the block of a part other than part 0, for an object with this many cells.
#[inline(never)]
fn far_block(nodes: &Nodes, cells: u32, block: usize, part: u32) -> usize
    requires few { cells ≤ ARRAY_CELLS }
    requires other { part ≢ 0 }
    requires part { part < parts_in cells }
    requires spine { spine_of cells part ≢ 0 → Refers nodes.now block (spine_cell_of cells (spine_of cells part)) }
    requires piece { Refers nodes.now (spine_at nodes.now cells block part) (spine_cell_of cells part) }
    ensures { result ≡ block_of nodes.now cells block part }
{
    let position = Position::of_part(cells as usize, part);
    let spine = if position.spine == 0 {
        block
    } else {
        follow_cell(nodes, block, position.spine as usize - 1)
    };
    follow_cell(nodes, spine, position.cell)
}
