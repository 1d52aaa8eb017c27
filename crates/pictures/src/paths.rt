//! The report of why an object is alive.
ghost use Rattle.std.specs.Prelude.{◌≡◌, ◌<◌, IfOk, string_bytes};
ghost use Rattle.std.specs.List.{flat_map};
ghost use Rattle.graph_heap.specs.Graph.{root_cells};
ghost use Rattle.pictures.specs.PathText.{IsRootLine, step_line, IsPathText, IsRooted, TellsStanding, PathTold};

use graph_heap::{Limits, NoMemory, Reference, Route, Standing, Step, shortest_path};
use std::alloc::{AllocError, Global};

/// Returns the line of a root, by its place in the row of roots.
fn root_line(alloc: Global, limits: &Limits, place: usize) -> Result<String, AllocError>
    ensures { IfOk result (λ line. place < root_cells limits.now → IsRootLine limits.now place (string_bytes line)) }
{
    let slots = limits.slots as usize;
    let first_static = limits.mutators as usize * slots;
    if place < first_static {
        let (mutator, slot) = (place / slots, place % slots);
        return format!(in alloc; "slot {mutator} {slot}\n");
    }
    let number = place - first_static;
    format!(in alloc; "static {number}\n")
}

/// Returns the line of a reference cell.
fn step_line(alloc: Global, step: &Step) -> Result<String, AllocError>
    ensures { IfOk result (λ line. string_bytes line ≡ step_line step.now) }
{
    let Step { object, cell } = *step;
    format!(in alloc; "object {object} cell {cell}\n")
}

/// Returns the lines of reference cells.
fn step_lines(alloc: Global, steps: &[Step]) -> Result<String, AllocError>
    ensures { IfOk result (λ text. string_bytes text ≡ flat_map step_line steps.now) }
{
    let mut text = String::new(alloc);
    for step in steps {
        text.push_str(step_line(alloc, step)?.as_str())?;
    }
    Ok(text)
}

/// Returns the lines of a path.
fn route_lines(alloc: Global, limits: &Limits, route: &Route) -> Result<String, AllocError>
    ensures { IfOk result (λ text. route.now.root < root_cells limits.now
        → IsPathText limits.now route.now (string_bytes text)) }
{
    let mut text = root_line(alloc, limits, route.root)?;
    text.push_str(step_lines(alloc, route.steps.as_slice())?.as_str())?;
    Ok(text)
}

/// Returns the report of an object. `allocated` says whether some of its blocks are still allocated.
fn standing_text(
    alloc: Global,
    limits: &Limits,
    standing: &Standing,
    allocated: bool,
) -> Result<String, AllocError>
    ensures { IfOk result (λ text. IsRooted limits.now standing.now
        → TellsStanding limits.now allocated standing.now (string_bytes text)) }
{
    match standing {
        Standing::Reached(route) => route_lines(alloc, limits, route),
        Standing::Unreachable if allocated => format!(in alloc; "unreachable held\n"),
        Standing::Unreachable => format!(in alloc; "unreachable freed\n"),
        Standing::NeverMade => format!(in alloc; "never made\n"),
    }
}

/// Returns the report of why an object of a graph heap is alive: a shortest path to it, with a line for the root and
/// one for each reference cell. Or it says that no path leads to it, and whether some of its blocks are still
/// allocated, as the caller says; or that it was never made.
pub fn path_text(
    alloc: Global,
    graph: &Reference,
    id: u64,
    allocated: bool,
) -> Result<String, NoMemory>
    ensures { IfOk result (λ text. PathTold graph.now id allocated (string_bytes text)) }
{
    let standing = shortest_path(alloc, graph, id)?;
    Ok(standing_text(alloc, graph.limits(), &standing, allocated)?)
}
