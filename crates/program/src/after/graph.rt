//! Draws the reachable objects.
ghost use Rattle.std.specs.Prelude.{◌≡◌, ◌+◌};
ghost use Rattle.trace.specs.Streams.{taken_by};
ghost use Rattle.program.specs.Faults.{failed_reads, failed_writes};
ghost use Rattle.program.specs.Telling.{GraphTold};

use crate::fault::{Ending, RunFault};
use graph_heap::Reference;
use pictures::graph::draw_graph;
use std::alloc::Global;
use trace::Sink;

/// Draws the reachable objects of a graph heap, at most `most`, nearest to the roots first.
pub(crate) fn tell_graph<K: Sink>(
    alloc: Global,
    graph: &Reference,
    most: u32,
    sink: &mut K,
) -> Result<Ending, RunFault>
    ensures told { GraphTold most graph.now (taken_by K.taken K.sent sink.old sink.new) result }
    ensures reads { failed_reads result ≡ 0 }
    ensures writes { K.failures sink.new ≡ K.failures sink.old + failed_writes result }
{
    draw_graph(alloc, graph, most, sink)?;
    Ok(Ending::Done)
}
