//! The parts that an object is cut into.
ghost use Rattle.std.specs.Prelude.{◌≡◌, ◌+◌, ◌-◌, ◌*◌, ◌/◌, ◌^◌, ◌<◌, ◌≤◌, ◌↔◌, IsNone, IfSome, false};
ghost use Rattle.graph_heap.specs.Shape.{fits};
ghost use Rattle.size_classes.specs.Parts.{cells_of, pieces_of, spines_of, parts_in, run_of, part_words, spine_of, spine_cell_of};

use graph_heap::{ARRAY_CELLS, PLAIN_CELLS, Shape};
use std::marker::Model;

/// How many cells a part has at most.
pub const PART_CELLS: usize = 252;

/// Returns how many pieces an object with this many cells has: one for each 252 cells, and at least one.
fn pieces_in(cells: usize) -> usize
    ensures { result ≡ pieces_of cells }
{
    cells.div_ceil(PART_CELLS).max(1)
}

/// Returns how many spines an object with this many cells has: none, one, or a root spine and middle spines.
pub fn spines_in(cells: usize) -> usize
    ensures { result ≡ spines_of cells }
{
    if cells <= PART_CELLS {
        0
    } else if cells <= PART_CELLS * PART_CELLS {
        1
    } else {
        pieces_in(cells).div_ceil(PART_CELLS) + 1
    }
}

/// The run of a part: references to `count` parts from part `first` on, or as many cells of the object from cell
/// `first` on.
#[derive(Clone, Copy, Debug, PartialEq, Eq)]
pub struct PartContents {
    pub spine: bool,
    pub first: usize,
    pub count: usize,
}

impl PartContents {
    /// Returns the run of a part of an object with this many cells.
    pub fn of_part(cells: usize, part: u32) -> PartContents
        requires few { cells < 2 ^ 34 }
        ensures spine { result.spine ≡ (run_of cells part).spine }
        ensures first { result.first ≡ (run_of cells part).first }
        ensures count { result.count ≡ (run_of cells part).count }
        ensures within { part < parts_in cells → cells ≤ ARRAY_CELLS → result.count ≤ PART_CELLS }
    {
        let part = part as usize;
        let spines = spines_in(cells);
        if part >= spines {
            let first = PART_CELLS * (part - spines);
            return PartContents {
                spine: false,
                first,
                count: cells.saturating_sub(first).min(PART_CELLS),
            };
        }
        let pieces = pieces_in(cells);
        if part > 0 {
            let before = PART_CELLS * (part - 1);
            return PartContents {
                spine: true,
                first: spines + before,
                count: pieces.saturating_sub(before).min(PART_CELLS),
            };
        }
        PartContents {
            spine: true,
            first: 1,
            count: if spines <= 1 { pieces } else { spines - 1 },
        }
    }
}

/// The cell that refers to a part: in which spine, and which of its cells.
#[derive(Clone, Copy, Debug, PartialEq, Eq)]
pub struct Position {
    pub spine: u32,
    pub cell: usize,
}

impl Position {
    /// Returns the cell that refers to a part other than part 0, of an object with this many cells. The root spine
    /// refers to the middle spines, in order.
    pub fn of_part(cells: usize, part: u32) -> Position
        requires few { cells ≤ ARRAY_CELLS }
        requires some { 0 < part }
        requires part { part < parts_in cells }
        ensures spine { result.spine ≡ spine_of cells part }
        ensures cell { result.cell ≡ spine_cell_of cells part }
        ensures root { 0 < result.spine → spine_cell_of cells result.spine ≡ result.spine - 1 }
    {
        let spines = spines_in(cells) as u32;
        if spines <= 1 || part < spines {
            Position {
                spine: 0,
                cell: part as usize - 1,
            }
        } else {
            let piece = (part - spines) as usize;
            Position {
                spine: (piece / PART_CELLS) as u32 + 1,
                cell: piece % PART_CELLS,
            }
        }
    }
}

/// The parts into which an object is cut: pieces of 252 cells, the last with the rest, and before them the spines,
/// which refer to parts (arraylets, as in Bacon, Cheng and Rajan's collector of 2003). Contracts see them as the number
/// of the object's cells.
#[derive(Clone, Copy, Debug, PartialEq, Eq)]
pub struct Parts {
    cells: u32,
}

impl Model for Parts {
    ghost use Rattle.std.specs.Prelude.{ℕ, ◌≤◌};
    ghost use Rattle.graph_heap.specs.declared.command.TheConstants.{ARRAY_CELLS};

    ghost Value = { ℕ };

    ghost view = { λ p. p.cells };

    ghost invariant = { λ p. p.cells ≤ ARRAY_CELLS };

    ghost inverse = { λ n. record { cells = n } };
}

impl Parts {
    /// Returns how many pieces the object has.
    pub fn pieces(&self) -> u32
        ensures pieces { result ≡ pieces_of self.now }
        ensures within { (1 ≤ result) × (result ≤ 15874) }
    {
        pieces_in(self.cells as usize) as u32
    }

    /// Returns how many spines come before the pieces.
    pub fn spines(&self) -> u32
        ensures spines { result ≡ spines_of self.now }
        ensures within { result ≤ 64 }
    {
        spines_in(self.cells as usize) as u32
    }

    /// Returns how many parts the object has.
    #[inline(always)]
    pub fn count(&self) -> u32
        ensures count { result ≡ parts_in self.now }
        ensures within { (1 ≤ result) × (result ≤ 15938) }
    {
        if self.cells <= PART_CELLS as u32 {
            return 1;
        }
        self.spines() + self.pieces()
    }

    /// Returns the cell that refers to a part other than part 0.
    pub fn position(&self, part: u32) -> Position
        requires some { 0 < part }
        requires part { part < parts_in self.now }
        ensures spine { result.spine ≡ spine_of self.now part }
        ensures cell { result.cell ≡ spine_cell_of self.now part }
    {
        Position::of_part(self.cells as usize, part)
    }

    /// Returns how many words a part has, its header of four words included.
    #[inline(always)]
    pub fn words(&self, part: u32) -> u32
        requires { part < parts_in self.now }
        ensures words { result ≡ part_words self.now part }
        ensures within { (4 ≤ result) × (result ≤ 256) }
    {
        if self.cells <= PART_CELLS as u32 {
            return self.cells + 4;
        }
        PartContents::of_part(self.cells as usize, part).count as u32 + 4
    }
}

/// Returns the parts of an object of a shape, or None if the shape is too large.
#[inline(always)]
pub fn parts_of(shape: &Shape) -> Option<Parts>
    ensures none { IsNone result ↔ (fits shape.now ≡ false) }
    ensures some { IfSome result (λ p. p ≡ cells_of shape.now) }
{
    let cells = match *shape {
        Shape::Plain { refs, words } => refs
            .checked_add(words)
            .filter(|cells| *cells <= PLAIN_CELLS)?,
        Shape::RefArray(n) | Shape::WordArray(n) if n <= ARRAY_CELLS => n,
        _ => return None,
    };
    Some(Parts { cells })
}
