//! A player: a heap with its history, and the schedule of its collector.
ghost use Rattle.std.specs.Prelude.{◌≡◌, ◌≤◌, [], ◌∷◌, length, IfOk, IfErr, OnErr, OnOk};
ghost use Rattle.heap_model.specs.Event.{IsBudget, Command_done};
ghost use Rattle.quanta.specs.Timetable as timetables;
ghost use Rattle.trace.specs.declared.line.Line.{Line};
ghost use Rattle.trace.specs.declared.line.Line.TheVariants as lines;
ghost use Rattle.trace.specs.New.{IsNew};
ghost use Rattle.trace.specs.Player.{DoesLine};
ghost use Rattle.trace.specs.Observing.{observed, LineSeen, SeesDue, SeesQuantum, TicksSeen};
ghost use Rattle.trace.specs.Ticking.{DueDone, Spent};

mod laws;
mod line;
mod observed;
mod observer;
mod observing;
mod playing;
mod start;
mod style;
mod surveying;

use crate::{LineFault, PlayFault};
use graph_heap::{Command, NoMemory};
pub use laws::plays_are_promised;
use machine::{Receipt, Recorded};
pub use observed::Observed;
pub use observer::{Mark, Observer};
pub use observing::observe;
pub use playing::{play, play_first, play_up_to};
use quanta::{CLOCK_LIMIT, Schedule};
use size_classes::Config;
pub use start::{PhaseName, QuantumStart};
use std::alloc::Global;
use std::marker::Model;
pub use style::Style;
pub use surveying::{Survey, survey_run};
use thiserror::Error;

/// A heap with its history, and the schedule of its collector: when quanta are due, the intervals that they took, and
/// how they started. Contracts see the course of the heap, the timetable and the budget of a quantum. They also see
/// how each quantum with an interval started, and whether a cycle has begun since the last of these quanta.
pub struct Player {
    recorded: Recorded,
    schedule: Schedule,
    budget: u32,
    starts: Vec<QuantumStart>,
    begun: bool,
}

impl Drop for Player {
    // Makes this one call. Otherwise the compiler writes a derived drop into each function that drops a player, and
    // each is proved anew.
    fn drop(self) {
        let Player {
            recorded: _,
            schedule: _,
            budget: _,
            starts: _,
            begun: _,
        } = self;
    }
}

impl Model for Player {
    ghost use Rattle.heap_model.specs.Event.{IsBudget};
    ghost use Rattle.trace.specs.Player.{PlayerState, player_of};

    ghost Value = { PlayerState };

    ghost view = { player_of };

    ghost invariant = { λ a. IsBudget a.budget };
}

/// Why ticks could not pass.
#[derive(Clone, Copy, Debug, PartialEq, Eq, Error)]
pub enum TickFault {
    /// The clock would pass its limit. Nothing was done.
    #[error("clock spent")]
    ClockSpent,
    /// Memory was refused for the interval of a quantum. The quanta due before it are done, and the clock has not
    /// moved.
    #[error("no memory")]
    NoMemory,
}

impl From<NoMemory> for TickFault {
    ghost use Rattle.trace.specs.declared.player.TickFault.TheVariants as faults;

    ghost from_gives = { λ why fault. fault ≡ faults.NoMemory };

    fn from(_why: NoMemory) -> TickFault {
        TickFault::NoMemory
    }
}

impl TickFault {
    ghost use Rattle.trace.specs.declared.fault.LineFault.TheVariants as line_faults;
    ghost use Rattle.trace.specs.declared.fault.PlayFault.TheVariants as text_faults;
    ghost use Rattle.trace.specs.declared.player.TickFault.TheVariants as faults;

    /// Returns the fault of an input in which line `number` lets the ticks pass.
    pub fn at_line(self, number: u64) -> PlayFault
        ensures spent { self ≡ faults.ClockSpent → result ≡ text_faults.Line number line_faults.ClockSpent }
        ensures memory { self ≡ faults.NoMemory → result ≡ text_faults.NoMemory }
    {
        match self {
            TickFault::ClockSpent => PlayFault::Line(number, LineFault::ClockSpent),
            TickFault::NoMemory => PlayFault::NoMemory,
        }
    }
}

impl Player {
    /// Returns a player of a new heap without history, at time 0. It is refused only for lack of memory.
    pub fn new(alloc: Global, config: &Config) -> Result<Player, NoMemory>
        ensures { IfOk result (IsNew config.now) }
    {
        Ok(Player {
            recorded: Recorded::new(alloc, config)?,
            schedule: Schedule::new(alloc, config),
            budget: config.budget(),
            starts: Vec::new(alloc),
            begun: false,
        })
    }

    /// Returns the heap with its history.
    pub fn recorded(&self) -> &Recorded
        ensures { result.now.course ≡ self.now.course }
    {
        &self.recorded
    }

    /// Returns the schedule.
    pub fn schedule(&self) -> &Schedule
        ensures { timetables.with_reserved result.now 0 ≡ self.now.timetable }
    {
        &self.schedule
    }

    /// Returns how each quantum started of which the schedule has an interval, the first one first.
    pub fn starts(&self) -> &[QuantumStart]
        ensures { result.now ≡ self.now.starts }
    {
        &self.starts
    }

    /// Returns the budget of a quantum that is due, in units.
    pub fn budget(&self) -> u32
        ensures budget { result ≡ self.now.budget }
        ensures within { IsBudget result }
    {
        self.budget
    }

    /// Does a command of a mutator. If memory is refused for its entry, nothing has changed.
    #[inline(always)]
    pub fn call(&mut self, mutator: u32, command: Command) -> Result<Receipt, NoMemory>
        ensures entry { IfOk result (λ r. (r.entry.mutator ≡ mutator) × (r.entry.command ≡ command)) }
        ensures does { IfOk result (λ r. DoesLine self.old (Line.Command mutator command)
            (Command_done mutator command r.entry.reply ∷ []) self.new) }
        ensures place { IfOk result (λ r. r.place ≡ length self.old.course.history) }
        ensures err { IfErr result (λ e. self.new ≡ self.old) }
    {
        self.recorded.call(mutator, command)
    }

    /// Reports the beginning of a cycle to the observer, for line `number`; then begins the cycle and its schedule.
    /// If a cycle is running already, it goes on. If memory is refused to the observer, nothing has changed.
    pub fn begin<O: Observer>(&mut self, number: u64, observer: &mut O) -> Result<(), NoMemory>
        ensures begun { OnOk result (LineSeen O.has_seen number lines.Begin (observed self.old observer.old)
            (observed self.new observer.new)) }
        ensures same { OnErr result (self.new ≡ self.old) }
        ensures err { OnErr result O.may_be_refused }
    {
        observer.begins(number, &self.recorded)?;
        if self.recorded.begin().is_ok() {
            self.schedule.start_cycle();
            self.begun = true;
        }
        Ok(())
    }

    /// Spends units of a budget. If the quantum ends in idle, the schedule's cycle ends.
    #[inline(always)]
    fn spend(&mut self, budget: u32)
        requires { IsBudget budget }
        ensures { Spent self.old budget self.new }
    {
        let spent = self.recorded.quantum(budget).unwrap();
        if spent.phase.is_idle() {
            self.schedule.end_cycle();
        }
    }

    /// Spends units of a budget, and reports the quantum to the observer. If it ends in idle, the schedule's cycle
    /// ends.
    pub fn quantum<O: Observer>(&mut self, budget: u32, observer: &mut O)
        requires { IsBudget budget }
        ensures spent { Spent self.old budget self.new }
        ensures seen { SeesQuantum O.has_seen budget (observed self.old observer.old)
            (observed self.new observer.new) }
    {
        let before = Mark::from_heap(self.recorded.heap());
        self.spend(budget);
        observer.quantum_done(&before, budget, &self.recorded);
    }

    /// Does the quantum that is due below a time, with its interval, and reports it to the observer. Returns whether
    /// a quantum was due. If memory is refused for its interval, the quantum isn't done.
    pub fn due_quantum<O: Observer>(
        &mut self,
        until: u64,
        observer: &mut O,
    ) -> Result<bool, NoMemory>
        requires { until ≤ CLOCK_LIMIT }
        ensures done { DueDone until self.old self.new result }
        ensures seen { SeesDue O.has_seen (observed self.old observer.old) (observed self.new observer.new) result }
        ensures ticks { 1 ≤ self.old.timetable.collector_ticks }
    {
        let budget = self.budget;
        let Some(_due) = self.schedule.next_quantum(until) else {
            return Ok(false);
        };
        self.schedule.reserve()?;
        let heap = self.recorded.heap();
        self.starts.push(QuantumStart {
            phase: PhaseName::of(heap.phase()),
            opens_cycle: self.begun,
            free_pages: heap.free_pages(),
        })?;
        self.begun = false;
        self.schedule.place();
        self.quantum(budget, observer);
        Ok(true)
    }

    /// Lets ticks pass. While the cycle runs, it does the quanta that are due in these ticks in order, each with its
    /// interval, and reports each to the observer. Then it moves the clock.
    pub fn tick<O: Observer>(&mut self, ticks: u64, observer: &mut O) -> Result<(), TickFault>
        ensures { TicksSeen O.has_seen ticks (observed self.old observer.old) (observed self.new observer.new) result }
    {
        if ticks > CLOCK_LIMIT - self.schedule.now() {
            return Err(TickFault::ClockSpent);
        }
        let until = self.schedule.now() + ticks;
        while self.due_quantum(until, observer)? {}
        self.schedule.advance(ticks).unwrap();
        Ok(())
    }
}
