//! Lines that all reports of pages share.
ghost use Rattle.std.specs.Prelude.{◌≡◌, IfOk, string_bytes};
ghost use Rattle.inspector.specs.NeededReport.{verdict, pages_line, too_many};

use std::alloc::{AllocError, Global};

/// The runs for which pages are said to suffice or not.
#[derive(Clone, Copy, Debug, PartialEq, Eq)]
pub(crate) enum Scope {
    /// A run that was measured, and each that needs no more.
    Demand,
    /// A run that was measured, and each at its pace.
    Pace,
}

/// Returns the end of a line that says for which runs the pages suffice, or that they may not.
fn verdict(scope: Scope, suffice: bool) -> &'static str
    ensures { result.now ≡ verdict scope suffice }
{
    match scope {
        _ if !suffice => ": may not suffice\n",
        Scope::Demand => ": suffice for this run, and for each that needs no more\n",
        Scope::Pace => ": suffice for this run, and for each at this pace\n",
    }
}

/// Returns the line with the pages that are needed, and those that there are.
pub(crate) fn pages_line(
    alloc: Global,
    scope: Scope,
    needed: u128,
    pages: u32,
) -> Result<String, AllocError>
    ensures { IfOk result (λ line. string_bytes line ≡ pages_line scope needed pages) }
{
    let verdict = verdict(scope, needed <= u128::from(pages));
    format!(in alloc; "pages {needed} of {pages}{verdict}")
}

/// Returns the line that is printed if no table has room for the blocks.
pub(crate) fn too_many(alloc: Global) -> Result<String, AllocError>
    ensures { IfOk result (λ line. string_bytes line ≡ too_many) }
{
    format!(in alloc; "more blocks than can be counted: no number of pages is known to suffice\n")
}
