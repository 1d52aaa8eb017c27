//! How long cycles of the collector and their phases take, as events of a row.
ghost use Rattle.std.specs.Prelude.{◌≡◌, ◌∷◌, [], ◌+◌, ◌++◌, List, OnOk, OnErr, Some};
ghost use Rattle.std.specs.List.{flat_map, zip};
ghost use Rattle.trace.specs.Streams.{GrowsByPart, failed};
ghost use Rattle.pictures.specs.CycleSpans.{Turn, is_name, found_in, stretch, spans_of, span_event, span_events, cycle_events, cycles_on};
ghost use Rattle.pictures.specs.Events.{json_text};

use crate::events::{Span, TraceEvent};
use crate::writing::write_present;
use quanta::Interval;
use trace::{PhaseName, QuantumStart, Sink, WriteFailed};

/// The ticks from the beginning of the first quantum of a cycle to the end of the last so far: of all its quanta, and
/// of those that found the collector in each of its phases.
#[derive(Clone, Copy, Debug, PartialEq, Eq)]
pub struct CycleSpans {
    pub whole: Option<Interval>,
    pub roots: Option<Interval>,
    pub marking: Option<Interval>,
    pub sweeping: Option<Interval>,
    pub moving: Option<Interval>,
}

/// Returns the ticks from the beginning of the first quantum so far to the end of one more.
fn longer(so_far: Option<Interval>, quantum: &Interval, start: &QuantumStart) -> Interval
    ensures { (these : List Turn) → so_far ≡ stretch these
        → Some result ≡ stretch (these ++ (quantum.now, start.now) ∷ []) }
{
    match so_far {
        None => *quantum,
        Some(span) => Interval {
            start: span.start,
            end: quantum.end,
        },
    }
}

/// Returns whether two names of phases are the same.
fn is_name(one: PhaseName, other: PhaseName) -> bool
    ensures { result ≡ is_name one other }
{
    match one {
        PhaseName::Idle => matches!(other, PhaseName::Idle),
        PhaseName::Roots => matches!(other, PhaseName::Roots),
        PhaseName::Marking => matches!(other, PhaseName::Marking),
        PhaseName::Sweeping => matches!(other, PhaseName::Sweeping),
        PhaseName::Moving => matches!(other, PhaseName::Moving),
    }
}

/// Returns the span of the quanta that found the collector in a phase, with one quantum more, if it did.
fn longer_in(
    phase: PhaseName,
    so_far: Option<Interval>,
    quantum: &Interval,
    start: &QuantumStart,
) -> Option<Interval>
    ensures { (these : List Turn) → so_far ≡ stretch (found_in phase these)
        → result ≡ stretch (found_in phase (these ++ (quantum.now, start.now) ∷ [])) }
{
    if is_name(phase, start.phase) {
        Some(longer(so_far, quantum, start))
    } else {
        so_far
    }
}

/// Returns the event of a span, if there is one.
fn span_event(span: Span, ticks: Option<Interval>) -> Option<TraceEvent>
    ensures { result ≡ span_event span ticks }
{
    match ticks {
        None => None,
        Some(ticks) => {
            let long = ticks.end.saturating_sub(ticks.start);
            Some(TraceEvent::Span(span, ticks.start, long))
        }
    }
}

impl CycleSpans {
    /// Returns the spans before the first quantum.
    fn new() -> CycleSpans
        ensures { result ≡ spans_of [] }
    {
        CycleSpans {
            whole: None,
            roots: None,
            marking: None,
            sweeping: None,
            moving: None,
        }
    }

    /// Returns the spans after one more quantum.
    fn with(self, quantum: &Interval, start: &QuantumStart) -> CycleSpans
        ensures { (these : List Turn) → self ≡ spans_of these
            → result ≡ spans_of (these ++ (quantum.now, start.now) ∷ []) }
    {
        CycleSpans {
            whole: Some(longer(self.whole, quantum, start)),
            roots: longer_in(PhaseName::Roots, self.roots, quantum, start),
            marking: longer_in(PhaseName::Marking, self.marking, quantum, start),
            sweeping: longer_in(PhaseName::Sweeping, self.sweeping, quantum, start),
            moving: longer_in(PhaseName::Moving, self.moving, quantum, start),
        }
    }

    /// Returns the events of the spans, if they are there.
    fn events(self) -> [Option<TraceEvent>; 5]
        ensures { result ≡ span_events self }
    {
        [
            span_event(Span::Cycle, self.whole),
            span_event(Span::Roots, self.roots),
            span_event(Span::Marking, self.marking),
            span_event(Span::Sweeping, self.sweeping),
            span_event(Span::Moving, self.moving),
        ]
    }
}

/// Writes the events of cycles and their phases, one after the other.
pub(crate) fn write_cycles<K: Sink>(
    quanta: &[Interval],
    starts: &[QuantumStart],
    sink: &mut K,
) -> Result<(), WriteFailed>
    ensures ok { OnOk result (K.taken sink.new ≡ K.taken sink.old
        ++ json_text (flat_map cycle_events (cycles_on [] (zip quanta.now starts.now)))) }
    ensures err { OnErr result (GrowsByPart (K.taken sink.old) (K.taken sink.new)
        (json_text (flat_map cycle_events (cycles_on [] (zip quanta.now starts.now))))) }
    ensures cause { K.failures sink.new ≡ K.failures sink.old + failed result }
{
    let mut cycle = CycleSpans::new();
    for (quantum, start) in quanta.iter().zip(starts) {
        if start.opens_cycle {
            write_present(sink, &cycle.events())?;
            cycle = CycleSpans::new();
        }
        cycle = cycle.with(quantum, start);
    }
    write_present(sink, &cycle.events())
}
