//! A line for each of some numbers of pages.
ghost use Rattle.std.specs.Prelude.{IfOk, option_map, string_bytes};
ghost use Rattle.paced.specs.Rooms.{made_of};
ghost use Rattle.plans.specs.Report.{IsRow, IsTable};

use crate::needs::Needs;
use crate::order::next_of;
use crate::row::row;
use command_line::Asked;
use size_classes::{Class, Config};
use std::alloc::{AllocError, Global};

/// Returns the lines of each of some numbers of pages that a heap may have, in rising order, each once.
pub(crate) fn table(
    alloc: Global,
    config: &Config,
    needs: Needs,
    classes: Option<&[Class]>,
    asks: &[Asked],
    numbers: &[u32],
) -> Result<String, AllocError>
    ensures { IfOk result (λ text. IsTable (IsRow (made_of (option_map (λ used. used.now) classes.entry)) config.now needs
        asks.now) numbers.now (string_bytes text)) }
{
    let mut text = String::new(alloc);
    let mut above = 0;
    while let Some(pages) = next_of(numbers, above) {
        let lines = row(alloc, config, needs, classes, asks, pages)?;
        text.push_str(lines.as_str())?;
        above = pages;
    }
    Ok(text)
}
