//! Which mutators are live, and the test of the mutator that stands in front of each command.
ghost use Rattle.std.specs.Prelude.{◌≡◌, ◌<◌, ◌≤◌, length, slice_set, Err, IfOk, OnOk};
ghost use Rattle.graph_heap.specs.Graph.{live_first};
ghost use Rattle.graph_heap.specs.Effect.{admits, admitted_to};

use crate::command::{Limits, Refusal};
use crate::no_memory::NoMemory;
use std::alloc::Global;

/// Returns the row of a heap that opens: true for each mutator below `live`, false for the others.
pub fn live_row(alloc: Global, limits: &Limits) -> Result<Vec<bool>, NoMemory>
    ensures { IfOk result (λ row. row.items ≡ live_first limits.now) }
{
    let mut live = vec![in alloc; true; limits.live as usize]?;
    let mut idle = vec![in alloc; false; limits.mutators.saturating_sub(limits.live) as usize]?;
    live.append(&mut idle)?;
    Ok(live)
}

/// Tests whether a mutator may give a command: Join (`joins`) is for a mutator that isn't live, all others are for one
/// that is. Refusals: BadSlot if there is no such mutator, then NotLive, AlreadyLive.
pub fn admit(limits: &Limits, live: &[bool], mutator: u32, joins: bool) -> Result<(), Refusal>
    requires { limits.now.mutators ≤ length live.now }
    ensures admitted { result ≡ admitted_to limits.now live.now mutator joins }
    ensures below { OnOk result (mutator < limits.now.mutators) }
{
    if mutator < limits.mutators {
        admission_of(live[mutator as usize], joins)
    } else {
        Err(Refusal::BadSlot)
    }
}

/// Tests whether a mutator that is live or not may give Join, or a command other than Join.
fn admission_of(live: bool, joins: bool) -> Result<(), Refusal>
    ensures { result ≡ admits live joins }
{
    if live != joins {
        Ok(())
    } else {
        Err(refusal_of(joins))
    }
}

/// Returns why a mutator may not give the command: it is live already, or it isn't live.
#[cold]
#[inline(never)]
fn refusal_of(joins: bool) -> Refusal
    ensures { Err result ≡ admits joins joins }
{
    if joins {
        Refusal::AlreadyLive
    } else {
        Refusal::NotLive
    }
}

/// Sets whether a mutator is live, if there is such a mutator. The flags of the others stay.
pub fn set_live(live: &mut [bool], mutator: u32, to: bool)
    ensures { live.new ≡ slice_set live.old mutator to }
{
    if (mutator as usize) < live.len() {
        live[mutator as usize] = to;
    }
}
