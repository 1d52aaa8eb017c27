//! The schedule.
ghost use Rattle.std.specs.Prelude.{◌≡◌, ◌↔◌, ◌+◌, ◌<◌, ◌≤◌, max, IfSome, IsErr, IsOk, IsSomeAnd, OnErr, OnOk};
ghost use Rattle.size_classes.specs.declared.config.Config.{Config};
ghost use Rattle.quanta.specs.Intervals.{IsRising, IsSpaced};
ghost use Rattle.quanta.specs.Timetable.{due_below, first_due, last_end, opening, with_reserved, IsPlacedAt, IsTimetable};

use crate::clock_spent::ClockSpent;
use crate::interval::{Interval, last_of};
use graph_heap::NoMemory;
use size_classes::Config;
use std::alloc::Global;
use std::marker::Model;

/// The greatest time that the clock shows, in ticks.
pub const CLOCK_LIMIT: u64 = 1099511627776;

/// The schedule of quanta: the clock, when a quantum is due while a cycle runs, and the intervals of the quanta that
/// were placed. Contracts see these as one timetable, whose intervals are always spaced: in rising order, each as long
/// as a quantum, and each at least the mutators' ticks after the end of the one before.
#[derive(Debug, Drop)]
pub struct Schedule {
    collector_ticks: u64,
    mutator_ticks: u64,
    clock: u64,
    due: Option<u64>,
    intervals: Vec<Interval>,
}

impl Model for Schedule {
    ghost use Rattle.quanta.specs.Timetable.{Timetable, IsTimetable};

    ghost Value = { Timetable };

    ghost use Rattle.quanta.specs.Schedule.{timetable_of};

    ghost view = { timetable_of };

    ghost invariant = { λ a. IsTimetable (timetable_of a) };
}

impl Schedule {
    /// Returns a schedule at time 0, without intervals and with no cycle running. It takes no memory.
    pub fn new(alloc: Global, config: &Config) -> Schedule
        ensures { result ≡ opening config.now.collector_ticks config.now.mutator_ticks }
    {
        Schedule {
            collector_ticks: u64::from(config.collector_ticks),
            mutator_ticks: u64::from(config.mutator_ticks),
            clock: 0,
            due: None,
            intervals: Vec::new(alloc),
        }
    }

    /// Begins a cycle. Its first quantum is due at the clock; or the mutators' ticks after the end of the last
    /// interval, if there is one and that is later. If a cycle is running, the new one takes its place.
    pub fn start_cycle(&mut self)
        ensures { self.new ≡ record self.old { due = Some (first_due self.old) } }
    {
        let first = match last_of(self.intervals.as_slice()) {
            None => self.clock,
            Some(last) => self.clock.max(last.end + self.mutator_ticks),
        };
        self.due = Some(first);
    }

    /// Ends the cycle: no quantum is due.
    pub fn end_cycle(&mut self)
        ensures { self.new ≡ record self.old { due = None } }
    {
        self.due = None;
    }

    /// Returns the time at which a quantum is due, in ticks, or None if no cycle is running or that time isn't below
    /// `until`.
    pub fn next_quantum(&self, until: u64) -> Option<u64>
        ensures due { result ≡ due_below until self.now.due }
        ensures found { IfSome result (λ due. (self.now.due ≡ Some due) × (due < until)) }
        ensures timetable { IsTimetable self.now }
    {
        match self.due {
            Some(due) if due < until => Some(due),
            _ => None,
        }
    }

    /// Makes room for one more interval. Refused only for lack of memory, and then nothing has changed;
    /// no other call takes memory.
    pub fn reserve(&mut self) -> Result<(), NoMemory>
        ensures ok { OnOk result (0 < self.new.reserved) }
        ensures needless { 0 < self.old.reserved → IsOk result }
        ensures kept { self.new ≡ with_reserved self.old self.new.reserved }
        ensures err { OnErr result (self.new ≡ self.old) }
    {
        self.intervals.reserve(1)?;
        Ok(())
    }

    /// Places the quantum that is due: its interval begins at that time, and the next is due the
    /// mutators' ticks after its end.
    pub fn place(&mut self)
        requires due { IsSomeAnd self.old.due (λ due. due < CLOCK_LIMIT) }
        requires reserved { 0 < self.old.reserved }
        ensures placed { IfSome self.old.due (λ due. IsPlacedAt due self.old self.new) }
    {
        let start = self.due.unwrap();
        let end = start + self.collector_ticks;
        self.intervals.push(Interval { start, end }).unwrap();
        self.due = Some(end + self.mutator_ticks);
    }

    /// Adds ticks to the clock. If that would pass its limit, it returns ClockSpent and nothing changes.
    pub fn advance(&mut self, ticks: u64) -> Result<(), ClockSpent>
        ensures spent { IsErr result ↔ (CLOCK_LIMIT < self.old.clock + ticks) }
        ensures ok { OnOk result (self.new ≡ record self.old { clock = self.old.clock + ticks }) }
        ensures err { OnErr result (self.new ≡ self.old) }
    {
        if ticks > CLOCK_LIMIT - self.clock {
            return Err(ClockSpent);
        }
        self.clock += ticks;
        Ok(())
    }

    /// Returns the clock, in ticks.
    pub fn now(&self) -> u64
        ensures clock { result ≡ self.now.clock }
        ensures within { result ≤ CLOCK_LIMIT }
    {
        self.clock
    }

    /// Returns the intervals of all quanta that were placed, the first one first.
    pub fn intervals(&self) -> &[Interval]
        ensures intervals { result.now ≡ self.now.intervals }
        ensures spaced { IsSpaced self.now.collector_ticks self.now.mutator_ticks result.now }
        ensures rising { IsRising result.now }
    {
        self.intervals.as_slice()
    }

    /// Returns the ticks that the schedule covers: the clock or, if it is later, the end of the last interval.
    pub fn span(&self) -> u64
        ensures span { result ≡ max self.now.clock (last_end self.now.intervals) }
        ensures within { result ≤ CLOCK_LIMIT + self.now.collector_ticks }
    {
        match last_of(self.intervals.as_slice()) {
            None => self.clock,
            Some(last) => self.clock.max(last.end),
        }
    }
}
