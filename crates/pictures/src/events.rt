//! The quanta of a run, its cycles with their phases, and its pages, as events that viewers of traces read.
ghost use Rattle.std.specs.Prelude.{◌≡◌, ◌≤◌, ◌<◌, ◌+◌, ◌-◌, ◌*◌, ◌/◌, ◌++◌, length, take, OnOk, OnErr};
ghost use Rattle.trace.specs.Streams.{GrowsByPart, failed};
ghost use Rattle.quanta.specs.Intervals.{IsRising};
ghost use Rattle.quanta.specs.Timetable.{last_end};
ghost use Rattle.pictures.specs.Events.{row_number, row_text, row_line, length_text, ticks_text, ticks_line, span_line, share_line, pages_line, event_line, quantum_events, quanta_events, events_head, events_tail, json_text, events_picture};

use crate::cycle_spans::write_cycles;
use crate::page_counts::write_pages;
use crate::sample::pages_used;
use crate::writing::{DocumentLine, write_lines};
use quanta::Interval;
use trace::{Player, Sink, WriteFailed, put, put_named};

/// A row of events, with a name.
#[derive(Clone, Copy, Debug, PartialEq, Eq)]
pub enum Row {
    /// Quanta.
    Collector,
    /// The mutators' ticks.
    Mutators,
    Cycles,
    Phases,
}

/// A cycle, or a phase of one.
#[derive(Clone, Copy, Debug, PartialEq, Eq)]
pub enum Span {
    Cycle,
    Roots,
    Marking,
    Sweeping,
    Moving,
}

/// An event, in the Trace Event Format. Each is a line of text. Times are ticks.
#[derive(Clone, Copy, Debug, PartialEq, Eq)]
pub enum TraceEvent {
    /// The beginning of the document.
    Open,
    /// The name of the process.
    Process,
    /// The name of a row.
    Row(Row),
    /// When a quantum begins, and how many ticks it takes.
    Quantum(u64, u64),
    /// When ticks of the mutators begin, and how many there are.
    Between(u64, u64),
    /// From when on the mutators have this share, in thousandths.
    Share(u64, u64),
    /// When a cycle or a phase begins, and how many ticks it takes.
    Span(Span, u64, u64),
    /// From when on as many pages are in use, and as many free.
    Pages(u64, u64, u64),
    /// As `Between`, behind the last quantum: the last event.
    Rest(u64, u64),
    /// The end of the document.
    Close,
}

impl Row {
    /// Its number.
    fn number(self) -> u64
        ensures { result ≡ row_number self }
    {
        match self {
            Row::Collector => 1,
            Row::Mutators => 2,
            Row::Cycles => 3,
            Row::Phases => 4,
        }
    }
}

/// Puts a row, with a name.
fn put_row_text(out: &mut [u8], row: Row, name: &[u8]) -> usize
    requires out { 256 ≤ length out.old }
    requires name { length name.now ≤ 16 }
    ensures text { take result out.new ≡ row_text row name.now }
    ensures place { result < 256 }
{
    let head = b"{\"name\":\"thread_name\",\"ph\":\"M\",\"pid\":1,\"tid\":";
    let end = put_named(out, 0, head, row.number());
    let end = put(out, end, b",\"args\":{\"name\":\"");
    let end = put(out, end, name);
    put(out, end, b"\"}},")
}

/// Puts a row, with its name.
fn put_row(out: &mut [u8], row: Row) -> usize
    requires { 256 ≤ length out.old }
    ensures text { take result out.new ≡ row_line row }
    ensures place { result < 256 }
{
    match row {
        Row::Collector => put_row_text(out, row, b"collector"),
        Row::Mutators => put_row_text(out, row, b"mutators"),
        Row::Cycles => put_row_text(out, row, b"cycles"),
        Row::Phases => put_row_text(out, row, b"phases"),
    }
}

/// Puts how many ticks an event takes, and its row, at a place.
fn put_length(out: &mut [u8], at: usize, ticks: u64, row: Row) -> usize
    requires { at + 64 ≤ length out.old }
    ensures text { take result out.new ≡ take at out.old ++ length_text ticks row }
    ensures place { result ≤ at + 64 }
{
    let end = put_named(out, at, b",\"dur\":", ticks);
    let end = put_named(out, end, b",\"pid\":1,\"tid\":", row.number());
    put(out, end, b"}")
}

/// Puts an event that takes ticks.
fn put_ticks(out: &mut [u8], name: &[u8], row: Row, start: u64, ticks: u64) -> usize
    requires out { 256 ≤ length out.old }
    requires name { length name.now ≤ 16 }
    ensures text { take result out.new ≡ ticks_text name.now row start ticks }
    ensures place { result ≤ 160 }
{
    let end = put(out, 0, b"{\"name\":\"");
    let end = put(out, end, name);
    let end = put_named(out, end, b"\",\"ph\":\"X\",\"ts\":", start);
    put_length(out, end, ticks, row)
}

/// Puts an event that takes ticks, and behind which others stand.
fn put_ticks_line(out: &mut [u8], name: &[u8], row: Row, start: u64, ticks: u64) -> usize
    requires out { 256 ≤ length out.old }
    requires name { length name.now ≤ 16 }
    ensures text { take result out.new ≡ ticks_line name.now row start ticks }
    ensures place { result < 256 }
{
    let end = put_ticks(out, name, row, start, ticks);
    put(out, end, b",")
}

/// Puts a cycle, or a phase of one.
fn put_span(out: &mut [u8], span: Span, start: u64, ticks: u64) -> usize
    requires { 256 ≤ length out.old }
    ensures text { take result out.new ≡ span_line span start ticks }
    ensures place { result < 256 }
{
    match span {
        Span::Cycle => put_ticks_line(out, b"cycle", Row::Cycles, start, ticks),
        Span::Roots => put_ticks_line(out, b"roots", Row::Phases, start, ticks),
        Span::Marking => put_ticks_line(out, b"marking", Row::Phases, start, ticks),
        Span::Sweeping => put_ticks_line(out, b"sweeping", Row::Phases, start, ticks),
        Span::Moving => put_ticks_line(out, b"moving", Row::Phases, start, ticks),
    }
}

/// Puts a share of the mutators.
fn put_share(out: &mut [u8], tick: u64, permille: u64) -> usize
    requires { 256 ≤ length out.old }
    ensures text { take result out.new ≡ share_line tick permille }
    ensures place { result < 256 }
{
    let head = b"{\"name\":\"utilisation\",\"ph\":\"C\",\"ts\":";
    let end = put_named(out, 0, head, tick);
    let end = put_named(out, end, b",\"pid\":1,\"args\":{\"permille\":", permille);
    put(out, end, b"}},")
}

/// Puts how many pages are in use and how many are free, from a tick on.
fn put_pages(out: &mut [u8], tick: u64, used: u64, free: u64) -> usize
    requires { 256 ≤ length out.old }
    ensures text { take result out.new ≡ pages_line tick used free }
    ensures place { result < 256 }
{
    let end = put_named(out, 0, b"{\"name\":\"pages\",\"ph\":\"C\",\"ts\":", tick);
    let end = put_named(out, end, b",\"pid\":1,\"args\":{\"used\":", used);
    let end = put_named(out, end, b",\"free\":", free);
    put(out, end, b"}},")
}

impl DocumentLine for TraceEvent {
    ghost line = { event_line };

    fn put(self, out: &mut [u8]) -> usize {
        match self {
            TraceEvent::Open => put(out, 0, b"{\"traceEvents\":["),
            TraceEvent::Process => {
                let line =
                    b"{\"name\":\"process_name\",\"ph\":\"M\",\"pid\":1,\"args\":{\"name\":\"metronome\"}},";
                put(out, 0, line)
            }
            TraceEvent::Row(row) => put_row(out, row),
            TraceEvent::Quantum(start, ticks) => {
                put_ticks_line(out, b"quantum", Row::Collector, start, ticks)
            }
            TraceEvent::Between(start, ticks) => {
                put_ticks_line(out, b"mutators", Row::Mutators, start, ticks)
            }
            TraceEvent::Share(tick, permille) => put_share(out, tick, permille),
            TraceEvent::Span(span, start, ticks) => put_span(out, span, start, ticks),
            TraceEvent::Pages(tick, used, free) => put_pages(out, tick, used, free),
            TraceEvent::Rest(start, ticks) => {
                put_ticks(out, b"mutators", Row::Mutators, start, ticks)
            }
            TraceEvent::Close => put(out, 0, b"]}"),
        }
    }
}

/// Returns a number of ticks as a share of others, in thousandths, rounded down; 0 of none.
fn share(part: u64, ticks: u64) -> u64
    requires { part ≤ ticks }
    ensures { result ≡ 1000 * part / ticks }
{
    if ticks == 0 {
        return 0;
    }
    (1000 * u128::from(part) / u128::from(ticks)) as u64
}

/// Returns the events of a quantum, by the end of the one before it.
fn events_of(from: u64, quantum: &Interval) -> [TraceEvent; 3]
    requires { (from ≤ quantum.now.start) × (quantum.now.start ≤ quantum.now.end) }
    ensures { result ≡ quantum_events from quantum.now }
{
    let (had, all) = (quantum.start - from, quantum.end - from);
    [
        TraceEvent::Between(from, had),
        TraceEvent::Share(from, share(had, all)),
        TraceEvent::Quantum(quantum.start, quantum.end - quantum.start),
    ]
}

/// Writes the events of quanta, one after the other.
fn write_quanta<K: Sink>(quanta: &[Interval], sink: &mut K) -> Result<(), WriteFailed>
    requires { IsRising quanta.now }
    ensures ok { OnOk result (K.taken sink.new ≡ K.taken sink.old ++ json_text (quanta_events 0 quanta.now)) }
    ensures err { OnErr result (GrowsByPart (K.taken sink.old) (K.taken sink.new)
        (json_text (quanta_events 0 quanta.now))) }
    ensures cause { K.failures sink.new ≡ K.failures sink.old + failed result }
{
    let mut from = 0;
    for quantum in quanta {
        write_lines(sink, &events_of(from, quantum))?;
        from = quantum.end;
    }
    Ok(())
}

/// Returns the end of the last of the intervals, or 0.
fn last_end(intervals: &[Interval]) -> u64
    ensures { result ≡ last_end intervals.now }
{
    match intervals.last() {
        None => 0,
        Some(last) => last.end,
    }
}

/// Returns the lines before the events of quanta.
fn head() -> [TraceEvent; 6]
    ensures { result ≡ events_head }
{
    [
        TraceEvent::Open,
        TraceEvent::Process,
        TraceEvent::Row(Row::Collector),
        TraceEvent::Row(Row::Mutators),
        TraceEvent::Row(Row::Cycles),
        TraceEvent::Row(Row::Phases),
    ]
}

/// Returns the lines behind the events of quanta.
fn tail(player: &Player) -> [TraceEvent; 3]
    ensures { result ≡ events_tail player.now }
{
    let (heap, span) = (player.recorded().heap(), player.schedule().span());
    let end = last_end(player.schedule().intervals());
    let rest = span.saturating_sub(end);
    [
        TraceEvent::Pages(span, pages_used(heap), heap.free_pages() as u64),
        TraceEvent::Rest(end, rest),
        TraceEvent::Close,
    ]
}

/// Writes the quanta of a player that took ticks to a sink, as a JSON document in the Trace Event Format, for viewers
/// of traces, in lines that end with LF. The row of the collector has an event for each quantum. The row of the
/// mutators has one for the ticks before each quantum, and one for those behind the last. A counter has the mutators'
/// share from the end of a quantum to that of the next, in thousandths, rounded down. The row of cycles has one for
/// each cycle, from the beginning of its first quantum to the end of its last. The row of phases has one for each phase
/// of a cycle, in the same way, by the quanta that found the collector in it. Another counter has the pages in use and
/// the free pages: when each quantum started, and at the end of the run. A tick stands for a microsecond. A quantum that
/// a line of a trace asks for takes no tick, and isn't drawn. It takes no memory. It fails only if the sink does; then the
/// sink has taken a beginning of the document.
pub fn draw_events<K: Sink>(player: &Player, sink: &mut K) -> Result<(), WriteFailed>
    ensures ok { OnOk result (K.taken sink.new ≡ K.taken sink.old ++ events_picture player.now) }
    ensures err { OnErr result (GrowsByPart (K.taken sink.old) (K.taken sink.new) (events_picture player.now)) }
    ensures cause { K.failures sink.new ≡ K.failures sink.old + failed result }
{
    let schedule = player.schedule();
    write_lines(sink, &head())?;
    write_quanta(schedule.intervals(), sink)?;
    write_cycles(schedule.intervals(), player.starts(), sink)?;
    let pages = player.recorded().heap().pages();
    write_pages(pages, schedule.intervals(), player.starts(), sink)?;
    write_lines(sink, &tail(player))
}
