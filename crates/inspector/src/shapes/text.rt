//! The text of the report by shape.
ghost use Rattle.std.specs.Prelude.{◌≡◌, ◌++◌, IfOk, string_bytes};
ghost use Rattle.std.specs.List.{flat_map};
ghost use Rattle.inspector.specs.Shapes.{figures, shape_line, all_line, ShapesTold};

use crate::shapes::counting::{Counted, count};
use crate::shapes::held::{Cells, Held};
use machine::Heap;
use std::alloc::{AllocError, Global};

/// Returns the figures of the held parts, at the end of a line.
fn figures(alloc: Global, held: &Held) -> Result<String, AllocError>
    ensures { IfOk result (λ text. string_bytes text ≡ figures held.now) }
{
    let (objects, parts, words) = (held.objects, held.parts, held.words);
    format!(in alloc; " objects {objects} parts {parts} words {words}\n")
}

/// Returns the line of a shape.
fn shape_line(alloc: Global, cells: &Cells, held: &Held) -> Result<String, AllocError>
    ensures { IfOk result (λ line. string_bytes line ≡ shape_line (cells.now, held.now)) }
{
    let (refs, words) = (cells.refs, cells.words);
    let figures = figures(alloc, held)?;
    format!(in alloc; "shape {refs} {words}{figures}")
}

/// Returns the line of all shapes together.
fn all_line(alloc: Global, held: &Held) -> Result<String, AllocError>
    ensures { IfOk result (λ line. string_bytes line ≡ all_line held.now) }
{
    let figures = figures(alloc, held)?;
    format!(in alloc; "all{figures}")
}

/// Returns the lines of the counts.
fn lines_of(alloc: Global, counted: &Counted) -> Result<String, AllocError>
    ensures { IfOk result (λ text. string_bytes text
        ≡ flat_map shape_line counted.now.each.entries ++ all_line counted.now.all) }
{
    let mut text = String::new(alloc);
    for (cells, held) in &counted.each {
        text.push_str(shape_line(alloc, cells, held)?.as_str())?;
    }
    text.push_str(all_line(alloc, &counted.all)?.as_str())?;
    Ok(text)
}

/// Returns the text of the report by shape, in lines that end with LF. Each shape of which a part is held has a line:
/// its references and words, how many objects it has, how many parts these have, and how many words their blocks take.
/// The lines are in rising order of references and then of words; last come the sums. Old copies count nowhere.
pub fn shapes_text(alloc: Global, heap: &Heap) -> Result<String, AllocError>
    ensures { IfOk result (λ text. ShapesTold heap.now (string_bytes text)) }
{
    let counted = count(alloc, heap)?;
    lines_of(alloc, &counted)
}
