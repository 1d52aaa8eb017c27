//! The text of a log of cycles.
ghost use Rattle.std.specs.Prelude.{◌≡◌, Some, IfOk, string_bytes, decimal};
ghost use Rattle.inspector.specs.CyclesText.{header, in_column, figure, figures, separator, cycle_line, cycles_told};

use crate::cycles::cycle::Cycle;
use std::alloc::{AllocError, Global};

/// How figures stand in a line.
#[derive(Clone, Copy, Debug, PartialEq, Eq)]
pub enum Layout {
    /// In columns of 8 bytes, with a blank between two figures.
    Columns,
    /// With a comma between two figures.
    Commas,
}

/// Returns the line above all others, which names the figures.
fn header(layout: Layout) -> &'static str
    ensures { result.now ≡ header layout }
{
    match layout {
        Layout::Columns => {
            "    line   quanta    units  longest    freed   blocks     kept    moved   before    after     made\n"
        }
        Layout::Commas => "line,quanta,units,longest,freed,blocks,kept,moved,before,after,made\n",
    }
}

/// Returns the separator of two figures.
fn separator(layout: Layout) -> &'static str
    ensures { result.now ≡ separator layout }
{
    match layout {
        Layout::Columns => " ",
        Layout::Commas => ",",
    }
}

/// Returns the text of a figure in a column.
#[tactic(auto, using(crate::proofs::cycles::Columns::column_is))]
fn column(alloc: Global, number: u128) -> Result<String, AllocError>
    ensures { IfOk result (λ text. string_bytes text ≡ in_column (decimal number)) }
{
    format!(in alloc; "{number:>8}")
}

/// Returns the text of a figure, which may not be known yet.
fn figure(alloc: Global, layout: Layout, number: Option<u128>) -> Result<String, AllocError>
    ensures { IfOk result (λ text. string_bytes text ≡ figure layout number) }
{
    match (layout, number) {
        (Layout::Columns, Some(n)) => column(alloc, n),
        (Layout::Columns, None) => format!(in alloc; "       -"),
        (Layout::Commas, Some(n)) => format!(in alloc; "{n}"),
        (Layout::Commas, None) => Ok(String::new(alloc)),
    }
}

/// Returns the figures of a cycle, except its line, in their order.
pub fn figures(cycle: &Cycle) -> [Option<u128>; 10]
    ensures { result ≡ figures cycle.now }
{
    let sweep = cycle.sweep;
    [
        Some(u128::from(cycle.quanta)),
        Some(u128::from(cycle.units)),
        Some(u128::from(cycle.longest)),
        sweep.map(|sweep| sweep.freed),
        sweep.map(|sweep| sweep.blocks),
        sweep.map(|sweep| u128::from(sweep.kept)),
        cycle.moved.map(|moved| u128::from(moved)),
        sweep.map(|sweep| u128::from(sweep.free_before)),
        sweep.map(|sweep| u128::from(sweep.free_after)),
        sweep.map(|sweep| u128::from(sweep.made)),
    ]
}

/// Returns the line of a cycle.
fn line(alloc: Global, layout: Layout, cycle: &Cycle) -> Result<String, AllocError>
    ensures { IfOk result (λ text. string_bytes text ≡ cycle_line layout cycle.now) }
{
    let mut text = figure(alloc, layout, Some(u128::from(cycle.line)))?;
    for cell in figures(cycle) {
        text.push_str(separator(layout))?;
        text.push_str(figure(alloc, layout, cell)?.as_str())?;
    }
    text.push('\n')?;
    Ok(text)
}

/// Returns the text of cycles: a line that names the figures, and a line for each cycle. A figure that isn't known yet is
/// `-` in columns, and nothing between commas.
pub fn cycles_text(alloc: Global, cycles: &[Cycle], layout: Layout) -> Result<String, AllocError>
    ensures { IfOk result (λ text. string_bytes text ≡ cycles_told layout cycles.now) }
{
    let mut text = String::from_str(alloc, header(layout))?;
    for cycle in cycles {
        text.push_str(line(alloc, layout, cycle)?.as_str())?;
    }
    Ok(text)
}
