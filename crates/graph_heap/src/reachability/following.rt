//! The graph heap to which a history leads.
ghost use Rattle.std.specs.Prelude.{◌≡◌, IfOk};
ghost use Rattle.graph_heap.specs.Graph.{opening};
ghost use Rattle.graph_heap.specs.History.{after, IsLegal};

use crate::command::{Entry, Limits};
use crate::no_memory::NoMemory;
use crate::reference::Reference;
use std::alloc::Global;

/// Returns the graph heap to which a legal history leads, from the one with no object.
pub fn present(alloc: Global, limits: &Limits, history: &[Entry]) -> Result<Reference, NoMemory>
    ensures { IfOk result (λ graph. IsLegal (opening limits.now) history.now
        → graph ≡ after (opening limits.now) history.now) }
{
    let mut graph = Reference::new(alloc, limits)?;
    for entry in history {
        graph.accepts(entry)?;
    }
    Ok(graph)
}
