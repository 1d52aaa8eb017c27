//! Writes a report of the heap.
ghost use Rattle.std.specs.Prelude.{◌≡◌, ◌+◌, IfOk, string_bytes};
ghost use Rattle.heap_model.specs.Event.{present_of};
ghost use Rattle.heap_model.specs.Settings.{settings_of, settings_by};
ghost use Rattle.trace.specs.Streams.{taken_by};
ghost use Rattle.inspector.specs.ByRoot.{RootsTold};
ghost use Rattle.inspector.specs.Filling.{sizes_told};
ghost use Rattle.inspector.specs.Report.{report_of};
ghost use Rattle.inspector.specs.Shapes.{ShapesTold};
ghost use Rattle.program.specs.declared.fault.Ending.TheVariants.{Done};
ghost use Rattle.program.specs.Faults.{failed_reads, failed_writes};
ghost use Rattle.program.specs.Telling.{HeapReported};
ghost use Rattle.program.specs.Told.{ReportTold, TextWritten};

use crate::fault::{Ending, RunFault};
use crate::told::{ended, tell_text};
use command_line::Report;
use graph_heap::NoMemory;
use inspector::{graph_after, report, report_sizes, roots_text, shapes_text};
use machine::Heap;
use size_classes::Config;
use std::alloc::Global;
use trace::{Player, Sink};

/// Writes a report page by page.
fn tell_pages<K: Sink>(heap: &Heap, sink: &mut K) -> Result<Ending, RunFault>
    ensures told { TextWritten Done (report_of heap.now) (taken_by K.taken K.sent sink.old sink.new) result }
    ensures reads { failed_reads result ≡ 0 }
    ensures writes { K.failures sink.new ≡ K.failures sink.old + failed_writes result }
{
    ended(report(heap, sink))
}

/// Writes a report by size class.
fn tell_sizes<K: Sink>(heap: &Heap, sink: &mut K) -> Result<Ending, RunFault>
    ensures told { TextWritten Done (sizes_told heap.now) (taken_by K.taken K.sent sink.old sink.new) result }
    ensures reads { failed_reads result ≡ 0 }
    ensures writes { K.failures sink.new ≡ K.failures sink.old + failed_writes result }
{
    ended(report_sizes(heap, sink))
}

/// Returns the text of a report by shape.
fn shapes_report(alloc: Global, heap: &Heap) -> Result<String, NoMemory>
    ensures { IfOk result (λ text. ShapesTold heap.now (string_bytes text)) }
{
    Ok(shapes_text(alloc, heap)?)
}

/// Writes a report by shape.
fn tell_shapes<K: Sink>(alloc: Global, heap: &Heap, sink: &mut K) -> Result<Ending, RunFault>
    ensures told { ReportTold (ShapesTold heap.now) (taken_by K.taken K.sent sink.old sink.new) result }
    ensures reads { failed_reads result ≡ 0 }
    ensures writes { K.failures sink.new ≡ K.failures sink.old + failed_writes result }
{
    tell_text(shapes_report(alloc, heap), sink)
}

/// Returns the text of a report by root.
fn roots_report(alloc: Global, config: &Config, player: &Player) -> Result<String, NoMemory>
    requires { settings_of player.now.course.heap ≡ settings_by config.now }
    ensures { IfOk result (λ text. RootsTold (present_of player.now.course) (string_bytes text)) }
{
    let graph = graph_after(alloc, config, player)?;
    roots_text(alloc, &graph)
}

/// Writes a report by root.
fn tell_roots<K: Sink>(
    alloc: Global,
    config: &Config,
    player: &Player,
    sink: &mut K,
) -> Result<Ending, RunFault>
    requires { settings_of player.now.course.heap ≡ settings_by config.now }
    ensures told { ReportTold (RootsTold (present_of player.now.course)) (taken_by K.taken K.sent sink.old sink.new) result }
    ensures reads { failed_reads result ≡ 0 }
    ensures writes { K.failures sink.new ≡ K.failures sink.old + failed_writes result }
{
    tell_text(roots_report(alloc, config, player), sink)
}

/// Writes a report of the heap of a player.
pub(crate) fn tell_report<K: Sink>(
    alloc: Global,
    config: &Config,
    player: &Player,
    by: Report,
    sink: &mut K,
) -> Result<Ending, RunFault>
    requires { settings_of player.now.course.heap ≡ settings_by config.now }
    ensures told { HeapReported by player.now.course (taken_by K.taken K.sent sink.old sink.new) result }
    ensures reads { failed_reads result ≡ 0 }
    ensures writes { K.failures sink.new ≡ K.failures sink.old + failed_writes result }
{
    let heap = player.recorded().heap();
    match by {
        Report::Pages => tell_pages(heap, sink),
        Report::Sizes => tell_sizes(heap, sink),
        Report::Shapes => tell_shapes(alloc, heap, sink),
        Report::Roots => tell_roots(alloc, config, player, sink),
    }
}
