//! The drawings that words ask for.
ghost use Rattle.std.specs.Prelude.{◌≡◌, None, IfOk, OnOk, option_map};
ghost use Rattle.clap.specs.Words.{found_of, rows_of};
ghost use Rattle.command_line.specs.Job.{IsDrawable, IsDrawing, form_name};
ghost use Rattle.command_line.specs.Words.{IsDrawn};

use crate::fault::Refusal;
use crate::job::{Drawing, Form};
use crate::words::{chosen, long_number, number, refused, within, word};
use clap::ArgMatches;
use std::alloc::Global;

/// Returns the drawing that the words of `draw` ask for.
pub(crate) fn drawing(alloc: Global, found: &ArgMatches) -> Result<Drawing, Refusal>
    ensures range { IfOk result IsDrawable }
    ensures asked { IfOk result (IsDrawn (rows_of (found_of found.now))) }
{
    // (clap gives `as` its default if it isn't named)
    let name = word(found, "as").unwrap_or("");
    let (most, live) = (number(found, "most"), long_number(found, "live"));
    let compare = word(found, "compare");
    drawing_of(alloc, name, number(found, "after"), most, live, compare)
}

/// Returns the drawing that has this name. A run is drawn whole; only a run has plans, or is compared; and only a graph
/// has a number of objects.
fn drawing_of(
    alloc: Global,
    name: &str,
    after: Option<u32>,
    most: Option<u32>,
    live: Option<u64>,
    compare: Option<&str>,
) -> Result<Drawing, Refusal>
    ensures range { IfOk result IsDrawable }
    ensures named { IfOk result (IsDrawing name.now after most live (option_map (λ other. other.now) compare.entry)) }
{
    if name == "graph" {
        without(alloc, compare, "--compare <CONFIG>", name)?;
        without(alloc, live, "--live <N>", name)?;
        let most = most.unwrap_or(500);
        within(alloc, "--most <N>", u64::from(most), 1, 4294967295)?;
        return Ok(Drawing::Graph { after, most });
    }
    if name == "events" {
        without(alloc, compare, "--compare <CONFIG>", name)?;
        without(alloc, live, "--live <N>", name)?;
        without(alloc, most, "--most <N>", name)?;
        return Ok(Drawing::Events { after });
    }
    let form = form(alloc, name)?;
    without(alloc, most, "--most <N>", name)?;
    without(alloc, after, "--after <N>", name)?;
    Ok(Drawing::Run { form, live })
}

/// Refuses the value of an argument that a drawing doesn't take, as `clap` does.
fn without<T: Copy>(
    alloc: Global,
    value: Option<T>,
    argument: &str,
    name: &str,
) -> Result<(), Refusal>
    ensures { OnOk result (value ≡ None) }
{
    if value.is_none() {
        return Ok(());
    }
    let why = format_args!("the argument '{argument}' cannot be used with '--as {name}'");
    Err(refused(alloc, why))
}

/// Returns the form of a run's data that has this name.
fn form(alloc: Global, name: &str) -> Result<Form, Refusal>
    ensures { IfOk result (λ form. name.now ≡ form_name form) }
{
    let forms = [("page", Form::Page), ("data", Form::Data)];
    let expected = "none of data, events, graph and page";
    chosen(alloc, name, &forms, "--as <PICTURE>", expected)
}
