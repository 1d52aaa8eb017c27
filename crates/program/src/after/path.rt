//! Writes why an object is alive.
ghost use Rattle.std.specs.Prelude.{◌≡◌, ◌+◌, IfOk, string_bytes};
ghost use Rattle.trace.specs.Streams.{taken_by};
ghost use Rattle.program.specs.Faults.{failed_reads, failed_writes};
ghost use Rattle.program.specs.Telling.{TellsWhy};
ghost use Rattle.program.specs.Told.{ReportTold};

use crate::fault::{Ending, RunFault};
use crate::told::tell_text;
use graph_heap::{NoMemory, Reference};
use machine::Heap;
use pictures::path_text;
use std::alloc::Global;
use trace::Sink;

/// Returns the text that says why an object is alive in a graph heap, or that it isn't, and whether a heap holds a block
/// of it.
fn path_report(alloc: Global, heap: &Heap, graph: &Reference, id: u64) -> Result<String, NoMemory>
    ensures { IfOk result (λ text. TellsWhy id heap.now graph.now (string_bytes text)) }
{
    path_text(alloc, graph, id, heap.holds(id))
}

/// Writes the shortest path from a root to an object. If there is none, writes whether a heap still holds blocks of the
/// object, or that it was never made.
pub(crate) fn tell_path<K: Sink>(
    alloc: Global,
    heap: &Heap,
    graph: &Reference,
    id: u64,
    sink: &mut K,
) -> Result<Ending, RunFault>
    ensures told { ReportTold (TellsWhy id heap.now graph.now) (taken_by K.taken K.sent sink.old sink.new) result }
    ensures reads { failed_reads result ≡ 0 }
    ensures writes { K.failures sink.new ≡ K.failures sink.old + failed_writes result }
{
    tell_text(path_report(alloc, heap, graph, id), sink)
}
