//! How many pages are in use and how many are free, as a counter of events.
ghost use Rattle.std.specs.Prelude.{◌≡◌, ◌+◌, ◌++◌, map, OnOk, OnErr};
ghost use Rattle.std.specs.List.{zip};
ghost use Rattle.trace.specs.Streams.{GrowsByPart, failed};
ghost use Rattle.pictures.specs.Events.{json_text, pages_event};

use crate::events::TraceEvent;
use crate::writing::write_line;
use quanta::Interval;
use trace::{QuantumStart, Sink, WriteFailed};

/// Returns the pages of a heap that were in use, and the free ones, when a quantum started.
fn pages_event(pages: usize, quantum: &Interval, start: &QuantumStart) -> TraceEvent
    ensures { result ≡ pages_event pages (quantum.now, start.now) }
{
    let used = pages.saturating_sub(start.free_pages) as u64;
    TraceEvent::Pages(quantum.start, used, start.free_pages as u64)
}

/// Writes for each quantum how many pages were in use and how many were free when it started, one after the other.
pub(crate) fn write_pages<K: Sink>(
    pages: usize,
    quanta: &[Interval],
    starts: &[QuantumStart],
    sink: &mut K,
) -> Result<(), WriteFailed>
    ensures ok { OnOk result (K.taken sink.new ≡ K.taken sink.old
        ++ json_text (map (pages_event pages) (zip quanta.now starts.now))) }
    ensures err { OnErr result (GrowsByPart (K.taken sink.old) (K.taken sink.new)
        (json_text (map (pages_event pages) (zip quanta.now starts.now)))) }
    ensures cause { K.failures sink.new ≡ K.failures sink.old + failed result }
{
    for (quantum, start) in quanta.iter().zip(starts) {
        write_line(sink, pages_event(pages, quantum, start))?;
    }
    Ok(())
}
