//! The report of the plans for some live objects.
ghost use Rattle.std.specs.Prelude.{◌≡◌, true, IfOk, map, option_map, string_bytes};
ghost use Rattle.std.specs.List.{concat};
ghost use Rattle.graph_heap.specs.declared.command.Shape.{Shape};
ghost use Rattle.graph_heap.specs.Shape.{fits};
ghost use Rattle.size_classes.specs.Parts.{cells_of};
ghost use Rattle.paced.specs.Cycles.{saturated};
ghost use Rattle.paced.specs.Pacing.{shape_words};
ghost use Rattle.plans.specs.Objects.{object_words, group_words, all_words, group_line, megabytes_line, IsObjectsReport};

use crate::needs::Needs;
use crate::report::plans_report;
use command_line::{Asked, Objects};
use graph_heap::Shape;
use paced::{least_pages_for, words_of_shape};
use size_classes::{Class, Config, PAGE_WORDS};
use std::alloc::{AllocError, Global};

/// The bytes of a megabyte.
const MEGABYTE: u64 = 1048576;

/// Returns the words of the blocks of an object with this many cells, headers included; 0 if no object has as many.
fn object_words(cells: u32) -> u64
    ensures { result ≡ object_words cells }
{
    words_of_shape(&Shape::WordArray(cells))
}

/// Returns the words of the blocks of some objects, or the greatest number of 64 bits if they are more.
fn group_words(group: &Objects) -> u64
    ensures { result ≡ saturated (group_words group.now) }
{
    group.count.saturating_mul(object_words(group.cells))
}

/// Returns the words of the blocks of all objects, headers included, or the greatest number of 64 bits if they are more.
pub fn words_of_objects(groups: &[Objects]) -> u64
    ensures { result ≡ saturated (all_words groups.now) }
{
    let mut words = 0u64;
    for group in groups {
        words = words.saturating_add(group_words(group));
    }
    words
}

/// An object takes the blocks of its cells, of whichever kind they are.
pub fn kinds_take_the_same()
    ensures { (shape : Shape) → fits shape ≡ true → shape_words shape ≡ object_words (cells_of shape) }
{}

/// Returns the line of some objects: their number, the cells of each, and the words of the blocks of each and of all.
fn group_line(alloc: Global, group: &Objects) -> Result<String, AllocError>
    ensures { IfOk result (λ line. string_bytes line ≡ group_line group.now) }
{
    let (count, cells) = (group.count, group.cells);
    let (each, words) = (object_words(cells), group_words(group));
    format!(in alloc; "objects {count} cells {cells} each {each} words {words}\n")
}

/// Returns a line for each of the groups of objects.
fn group_lines(alloc: Global, groups: &[Objects]) -> Result<String, AllocError>
    ensures { IfOk result (λ text. string_bytes text ≡ concat (map group_line groups.now)) }
{
    let mut text = String::new(alloc);
    for group in groups {
        let line = group_line(alloc, group)?;
        text.push_str(line.as_str())?;
    }
    Ok(text)
}

/// Returns the line with the megabytes of this many pages, to a tenth and rounded up; no line if no number is given.
fn megabytes_line(alloc: Global, pages: Option<u32>) -> Result<String, AllocError>
    ensures { IfOk result (λ line. string_bytes line ≡ megabytes_line pages) }
{
    let Some(pages) = pages else {
        return Ok(String::new(alloc));
    };
    let bytes = 8 * u64::from(PAGE_WORDS) * u64::from(pages);
    let tenths = (10 * bytes).div_ceil(MEGABYTE);
    let (whole, tenth) = (tenths / 10, tenths % 10);
    format!(in alloc; "megabytes {whole}.{tenth}\n")
}

/// Returns the report of the plans for some live objects, each group of which has equally many cells. It has a line for
/// each group, then the report of `plans_report` for the words of all their blocks. Then it has the megabytes of the
/// fewest pages with a plan, if there is one.
pub fn objects_report(
    alloc: Global,
    config: &Config,
    groups: &[Objects],
    largest: u64,
    classes: Option<&[Class]>,
    asks: &[Asked],
) -> Result<String, AllocError>
    ensures { IfOk result (λ text. IsObjectsReport (option_map (λ used. used.now) classes.entry) config.now groups.now
        largest asks.now (string_bytes text)) }
{
    let live = words_of_objects(groups);
    let needs = Needs { live, largest };
    [
        group_lines(alloc, groups)?,
        plans_report(alloc, config, needs, classes, asks)?,
        megabytes_line(alloc, least_pages_for(config, live, largest, classes))?,
    ]
    .concat(alloc)
}
