//! The whole report.
ghost use Rattle.std.specs.Prelude.{◌≡◌, ◌+◌, ◌++◌, OnOk, OnErr};
ghost use Rattle.trace.specs.Streams.{GrowsByPart, failed};
ghost use Rattle.trace.specs.Lines.{text_of};
ghost use Rattle.inspector.specs.Report.{page_lines, report_of};

use crate::fault::WriteFault;
use crate::lines::{write_head, write_page, write_tail};
use machine::Heap;
use trace::{Sink, WriteFailed};

/// Writes a line for each page in use, in rising number.
fn write_page_lines<K: Sink>(heap: &Heap, sink: &mut K) -> Result<(), WriteFailed>
    ensures ok { OnOk result (K.taken sink.new ≡ K.taken sink.old ++ text_of (page_lines 0 heap.now.store.pages)) }
    ensures err { OnErr result (GrowsByPart (K.taken sink.old) (K.taken sink.new)
        (text_of (page_lines 0 heap.now.store.pages))) }
    ensures cause { K.failures sink.new ≡ K.failures sink.old + failed result }
{
    for page in 0..heap.pages() {
        write_page(heap, page, sink)?;
    }
    Ok(())
}

/// Writes a report of the heap and its collector to a sink, in lines that end with LF. It has the phase, the units of
/// work since the last cycle began, the pages, and how many are free. Each page in use has a line with the size of its
/// blocks in words and how many are allocated. Then come the root cells and how many aren't null, and the numbers of
/// objects, parts and old copies. It takes no memory. It fails only if the sink does; then the sink has taken a beginning
/// of the report.
pub fn report<K: Sink>(heap: &Heap, sink: &mut K) -> Result<(), WriteFault>
    ensures ok { OnOk result (K.taken sink.new ≡ K.taken sink.old ++ report_of heap.now) }
    ensures err { OnErr result (GrowsByPart (K.taken sink.old) (K.taken sink.new) (report_of heap.now)) }
    ensures cause { K.failures sink.new ≡ K.failures sink.old + failed result }
{
    write_head(heap, sink)?;
    write_page_lines(heap, sink)?;
    Ok(write_tail(heap, sink)?)
}
