//! The tables of a run's data.
ghost use Rattle.std.specs.Prelude.{◌≡◌, ◌+◌, IfOk, string_bytes};
ghost use Rattle.pictures.specs.Tables as tables;
ghost use Rattle.pictures.specs.Tables.{sample_row, quantum_row, cycle_row, share_row, refused_row, page_row, shape_row, root_row, pages_table, ShapesTable, RootsTable};

use crate::json::{JsonRow, row};
use crate::quantum_log::Quantum;
use crate::refusals::Refused;
use crate::sample::Sample;
use crate::share::Share;
use graph_heap::{Limits, NoMemory, Reference};
use inspector::{
    Cells, Counted, Cycle, Held, Holding, Root, RootRow, count, count_by_root, figures, root_at,
};
use machine::Heap;
use std::alloc::{AllocError, Global};

impl JsonRow for Sample {
    ghost told = { sample_row };

    fn row(&self, alloc: Global) -> Result<String, AllocError> {
        row(
            alloc,
            self.line,
            &[
                Some(u128::from(self.least_pages)),
                Some(u128::from(self.most_pages)),
                Some(u128::from(self.phases.number())),
                Some(u128::from(self.blocks)),
                Some(u128::from(self.words)),
            ],
        )
    }
}

impl JsonRow for Quantum {
    ghost told = { quantum_row };

    fn row(&self, alloc: Global) -> Result<String, AllocError> {
        row(
            alloc,
            self.commands,
            &[
                Some(u128::from(self.units)),
                Some(u128::from(self.budget)),
                Some(u128::from(self.phase.number())),
            ],
        )
    }
}

impl JsonRow for Cycle {
    ghost told = { cycle_row };

    fn row(&self, alloc: Global) -> Result<String, AllocError> {
        row(alloc, self.line, &figures(self))
    }
}

impl JsonRow for Share {
    ghost told = { share_row };

    fn row(&self, alloc: Global) -> Result<String, AllocError> {
        row(
            alloc,
            self.window,
            &[
                Some(u128::from(self.measured)),
                Some(u128::from(self.promised)),
            ],
        )
    }
}

impl JsonRow for Refused {
    ghost told = { refused_row };

    fn row(&self, alloc: Global) -> Result<String, AllocError> {
        row(
            alloc,
            u64::from(self.number),
            &[Some(u128::from(self.count))],
        )
    }
}

/// Returns the row of a page: the words of its blocks, how many of them are allocated, and its marks, added up: 1 if it
/// is evacuating, 2 if it is a target. A free page has zeros.
fn page_row(alloc: Global, heap: &Heap, number: usize) -> Result<String, AllocError>
    ensures { IfOk result (λ text. string_bytes text ≡ page_row heap.now.store.pages number) }
{
    match heap.page(number) {
        None => row(alloc, 0, &[Some(0), Some(0)]),
        Some(page) => row(
            alloc,
            u64::from(page.class.size()),
            &[
                Some(page.allocated as u128),
                Some(u128::from(page.evacuating) + 2 * u128::from(page.is_target)),
            ],
        ),
    }
}

/// Returns the table of a heap's pages, in their order.
pub(crate) fn pages_table(alloc: Global, heap: &Heap) -> Result<String, AllocError>
    ensures { IfOk result (λ text. string_bytes text ≡ pages_table heap.now.store.pages) }
{
    let mut text = String::from_str(alloc, "\"pages\":[[\"size\",\"allocated\",\"marks\"]")?;
    for number in 0..heap.pages() {
        text.push_str(page_row(alloc, heap, number)?.as_str())?;
    }
    text.push_str("],\n")?;
    Ok(text)
}

/// Returns the row of a shape.
fn shape_row(alloc: Global, cells: &Cells, held: &Held) -> Result<String, AllocError>
    ensures { IfOk result (λ text. string_bytes text ≡ shape_row (cells.now, held.now)) }
{
    row(
        alloc,
        u64::from(cells.refs),
        &[
            Some(u128::from(cells.words)),
            Some(u128::from(held.objects)),
            Some(u128::from(held.parts)),
            Some(u128::from(held.words)),
        ],
    )
}

/// Returns the rows of the held parts.
fn shape_rows(alloc: Global, counted: &Counted) -> Result<String, AllocError>
    ensures { IfOk result (λ text. string_bytes text ≡ tables.shapes_table counted.now.each.entries) }
{
    let head = "\"shapes\":[[\"refs\",\"words\",\"objects\",\"parts\",\"block_words\"]";
    let mut text = String::from_str(alloc, head)?;
    for (cells, held) in &counted.each {
        text.push_str(shape_row(alloc, cells, held)?.as_str())?;
    }
    text.push_str("],\n")?;
    Ok(text)
}

/// Returns the table of the shapes of which a heap holds a part, in rising order of references and then of words.
pub(crate) fn shapes_table(alloc: Global, heap: &Heap) -> Result<String, AllocError>
    ensures { IfOk result (λ text. ShapesTable heap.now (string_bytes text)) }
{
    let counted = count(alloc, heap)?;
    shape_rows(alloc, &counted)
}

/// Returns the row of a root: how many objects it owns, the words of their blocks, and its mutator and slot, or the
/// number of a static.
fn root_row(alloc: Global, limits: &Limits, one: &RootRow) -> Result<String, AllocError>
    ensures { IfOk result (λ text. string_bytes text ≡ root_row limits.now one.now) }
{
    let Holding { objects, words } = one.holding;
    match root_at(limits, one.root) {
        Root::Slot(mutator, slot) => row(
            alloc,
            objects,
            &[
                Some(words),
                Some(u128::from(mutator)),
                Some(u128::from(slot)),
                None,
            ],
        ),
        Root::Static(number) => row(
            alloc,
            objects,
            &[Some(words), None, None, Some(u128::from(number))],
        ),
    }
}

/// Returns the table of rows of roots.
fn root_rows(alloc: Global, limits: &Limits, rows: &[RootRow]) -> Result<String, AllocError>
    ensures { IfOk result (λ text. string_bytes text ≡ tables.roots_table limits.now rows.now) }
{
    let head = "\"roots\":[[\"objects\",\"words\",\"mutator\",\"slot\",\"static\"]";
    let mut text = String::from_str(alloc, head)?;
    for one in rows {
        text.push_str(root_row(alloc, limits, one)?.as_str())?;
    }
    text.push_str("],\n")?;
    Ok(text)
}

/// Returns the table of the roots that own the objects of a graph heap, as the report by root has them.
pub(crate) fn roots_table(alloc: Global, graph: &Reference) -> Result<String, NoMemory>
    ensures { IfOk result (λ text. RootsTable graph.now (string_bytes text)) }
{
    let counted = count_by_root(alloc, graph)?;
    Ok(root_rows(alloc, graph.limits(), counted.rows.as_slice())?)
}
