//! The state under the lock, and the calls that are done while it is held.
ghost use Rattle.std.specs.Prelude.{◌≡◌, ◌≢◌, ◌↔◌, ◌+◌, ◌<◌, ◌≤◌, length, IfErr, IfOk, IsOk, OnErr, OnOk};
ghost use mathlib.Core.List.{IsPrefix};
ghost use Rattle.graph_heap.specs.Graph.{opening};
ghost use Rattle.graph_heap.specs.History.{IsLegal};
ghost use Rattle.heap_model.specs.Event.{Does, IsBudget};
ghost use Rattle.heap_model.specs.Event as done;
ghost use Rattle.machine.specs.Recorded.{begin_done, quantum_done};
ghost use Rattle.heap_server.specs.Views.{pacer_of};
ghost use Rattle.heap_server.specs.Kept.{cycles_on};
ghost use Rattle.heap_server.specs.Paced.{IsPaced};
ghost use Rattle.heap_server.specs.HistoryLength.{next_entry};
ghost use Rattle.heap_server.specs.Seen.{Extends, FaultTells};
ghost use Rattle.heap_server.specs.declared.fault.ServerFault.TheVariants as faults;

use crate::fault::ServerFault;
use crate::naming::{Begun, Calls, Ended, Naming, Quanta, Units};
use crate::place::{Front, HistoryLength};
use graph_heap::{Command, Entry, NoMemory};
use heap_model::phase::Phase;
use machine::{BudgetOutOfRange, Busy, Receipt, Recorded, Spent};
use std::marker::Model;
use std::sync::ledger::{Book, Share};

/// A mutator's place at a server. Contracts see the mutator's number, how many calls the seat has made, and the part of
/// the running history that it has seen. That part has no fewer entries of its mutator than the seat has made calls.
#[derive(Drop)]
pub struct Seat<N: Naming> {
    pub(crate) mutator: u32,
    pub(crate) made: u64,
    pub(crate) calls: Share<Calls<N>>,
    pub(crate) front: Front<N>,
}

impl<N: Naming> Model for Seat<N> {
    ghost use Rattle.std.specs.Prelude.{◌≡◌, ◌≤◌, length};
    ghost use Rattle.graph_heap.specs.Merge.{mine};
    ghost use Rattle.heap_server.specs.Views.{SeatView};

    ghost Value = { SeatView };

    ghost view = { λ s. record { mutator = s.mutator; calls = s.calls.amount; seen = s.front } };

    ghost invariant = { λ s. (s.calls.parts ≡ 1) × (s.calls.amount ≡ s.made)
        × (s.calls.amount ≤ length (mine s.front s.mutator)) };
}

impl<N: Naming> Seat<N> {
    /// Returns the number of the mutator whose commands are called from this seat.
    pub fn mutator(&self) -> u32
        ensures { result ≡ self.now.mutator }
    {
        self.mutator
    }

    /// Returns how many calls were made from this seat. A refused call isn't counted.
    pub fn made(&self) -> u64
        ensures { result ≡ self.now.calls }
    {
        self.made
    }
}

/// The collector's place at a server. Contracts see how many cycles were begun, how many have ended, how many
/// quanta were done, and the units that were spent.
#[derive(Drop)]
pub struct Pacer<N: Naming> {
    pub(crate) begun: Share<Begun<N>>,
    pub(crate) ended: Share<Ended<N>>,
    pub(crate) quanta: Share<Quanta<N>>,
    pub(crate) units: Share<Units<N>>,
}

impl<N: Naming> Model for Pacer<N> {
    ghost use Rattle.std.specs.Prelude.{◌≡◌};
    ghost use Rattle.heap_server.specs.Views.{PacerView};

    ghost Value = { PacerView };

    ghost view = { λ p. record {
      begun = p.begun.amount;
      ended = p.ended.amount;
      quanta = p.quanta.amount;
      spent = p.units.amount;
    } };

    ghost invariant = { λ p. (p.begun.parts ≡ 1) × (p.ended.parts ≡ 1) × (p.quanta.parts ≡ 1) × (p.units.parts ≡ 1) };
}

/// The state under the lock: a heap with its history, for how many more entries memory is ready, and the books of calls
/// made, cycles begun, cycles ended, quanta done and units spent. The history is always legal, and the log that the
/// place word counts begins with it. The heap agrees with the graph heap to which the history leads. The books count
/// the events that led there.
#[derive(Drop)]
pub struct Locked<N: Naming> {
    pub(crate) recorded: Recorded,
    pub(crate) ready: usize,
    pub(crate) calls: Book<Calls<N>>,
    pub(crate) begun: Book<Begun<N>>,
    pub(crate) ended: Book<Ended<N>>,
    pub(crate) quanta: Book<Quanta<N>>,
    pub(crate) units: Book<Units<N>>,
    pub(crate) front: Front<N>,
}

impl<N: Naming> Model for Locked<N> {
    ghost use Rattle.std.specs.Prelude.{◌≡◌, ◌≤◌};
    ghost use Rattle.heap_server.specs.Views.{LockedView, locked_of};
    ghost use Rattle.heap_server.specs.Kept.{IsKept};

    ghost Value = { LockedView };

    ghost view = { locked_of };

    ghost invariant = { λ l. IsKept N.names.settings (locked_of l) × (l.front ≡ l.recorded.course.history)
        × (l.ready ≤ l.recorded.room) };
}

impl<N: Naming> Locked<N> {
    ghost use Rattle.heap_server.specs.Kept.{IsKept};

    /// Returns the heap with its history.
    pub fn recorded(&self) -> &Recorded
        ensures recorded { result.now.course ≡ self.now.course }
        ensures kept { IsKept N.names.settings self.now }
    {
        &self.recorded
    }

    /// Makes room for this many more calls: that many aren't refused memory.
    pub fn reserve(&mut self, calls: usize) -> Result<(), NoMemory>
        ensures room { OnOk result (calls ≤ self.new.room) }
        ensures kept { self.old.room ≤ self.new.room }
        ensures same { self.new ≡ record self.old { room = self.new.room } }
    {
        self.recorded.reserve(calls)?;
        if self.ready < calls {
            self.ready = calls;
        }
        Ok(())
    }

    /// Makes room for one more call, unless there is some.
    fn make_ready(&mut self) -> Result<(), NoMemory>
        ensures room { OnOk result (0 < self.new.room) }
        ensures sure { 0 < self.old.room → IsOk result }
        ensures kept { self.old.room ≤ self.new.room }
        ensures same { self.new ≡ record self.old { room = self.new.room } }
    {
        if self.ready == 0 {
            return self.reserve(1);
        }
        Ok(())
    }

    /// Does a command of the seat's mutator, whole, and enters it with its reply. It makes room for the entry first.
    /// Then the heap gives the reply, without doing the command, and one exchange takes the place word from the
    /// length of the history to one more. If the word has another number, the log was torn from the history, and
    /// nothing has changed; nor has it if memory for the entry is refused.
    pub fn transact(
        &mut self,
        place: &HistoryLength<N>,
        seat: &mut Seat<N>,
        command: Command,
    ) -> Result<Receipt, ServerFault>
        ensures does { IfOk result (λ r. Does self.old.course
            (done.Command_done seat.old.mutator command r.entry.reply) self.new.course) }
        ensures entry { IfOk result (λ r. (r.entry.mutator ≡ seat.old.mutator) × (r.entry.command ≡ command)) }
        ensures place { IfOk result (λ r. r.place ≡ length self.old.course.history) }
        ensures seat { OnOk result (seat.new
            ≡ record seat.old { calls = seat.old.calls + 1; seen = self.new.course.history }) }
        ensures legal { OnOk result (IsLegal (opening N.names.settings.limits) seat.new.seen) }
        ensures ends { IfOk result (λ r. Extends seat.old.seen seat.new.seen r.place r.entry) }
        ensures books { OnOk result (self.new
            ≡ record self.old { course = self.new.course; room = self.new.room; calls = self.old.calls + 1 }) }
        ensures seen { IsPrefix seat.old.seen seat.new.seen }
        ensures err { OnErr result ((self.new ≡ record self.old { room = self.new.room })
            × (seat.new ≡ record seat.old { seen = seat.new.seen })) }
        ensures fault { IfErr result (λ e. FaultTells e self.old.course.history seat.old.seen seat.new.seen) }
        ensures room { IfErr result (λ e. 0 < self.old.room → e ≢ faults.NoMemory) }
        ensures left { self.old.room ≤ self.new.room + 1 }
    {
        self.make_ready()?;
        self.calls.audit(&mut seat.calls);
        let next = next_entry(&self.recorded, seat.mutator, command);
        let at = self.recorded.history().len() as u64;
        let found = self.front.commit(place, &mut seat.front, at, &next);
        if found != at {
            return Err(ServerFault::Torn(found));
        }
        let Ok(receipt) = self.recorded.call(seat.mutator, command) else {
            unreachable!()
        };
        self.ready -= 1;
        self.calls.add(&mut seat.calls, 1);
        seat.made += 1;
        Ok(receipt)
    }

    /// Begins a cycle of the collector, unless one is running.
    pub fn begin(&mut self, pacer: &mut Pacer<N>) -> Result<(), Busy>
        ensures does { Does self.old.course (begin_done result) self.new.course }
        ensures was { pacer.old ≡ pacer_of self.old }
        ensures begun { OnOk result ((pacer.old.ended ≡ pacer.old.begun)
            × (pacer.new ≡ record pacer.old { begun = pacer.old.begun + 1 })) }
        ensures books { OnOk result (self.new
            ≡ record self.old { course = self.new.course; begun = self.old.begun + 1 }) }
        ensures busy { OnErr result ((pacer.old.ended ≢ pacer.old.begun) × (self.new ≡ self.old)
            × (pacer.new ≡ pacer.old)) }
    {
        self.begun.audit(&mut pacer.begun);
        self.ended.audit(&mut pacer.ended);
        self.quanta.audit(&mut pacer.quanta);
        self.units.audit(&mut pacer.units);
        self.recorded.begin()?;
        self.begun.add(&mut pacer.begun, 1);
        Ok(())
    }

    /// Spends units of a budget on the cycle that is running.
    pub fn quantum(&mut self, pacer: &mut Pacer<N>, budget: u32) -> Result<Spent, BudgetOutOfRange>
        ensures does { Does self.old.course (quantum_done budget result) self.new.course }
        ensures was { pacer.old ≡ pacer_of self.old }
        ensures range { IsOk result ↔ IsBudget budget }
        ensures paced { IfOk result (λ s. IsPaced pacer.old budget s pacer.new) }
        ensures books { OnOk result ((self.new
            ≡ record self.old {
              course = self.new.course;
              ended = self.new.ended;
              quanta = self.old.quanta + 1;
              spent = self.new.spent;
            }) × (pacer.new ≡ pacer_of self.new)) }
        ensures err { OnErr result ((self.new ≡ self.old) × (pacer.new ≡ pacer.old)) }
    {
        self.begun.audit(&mut pacer.begun);
        self.ended.audit(&mut pacer.ended);
        self.quanta.audit(&mut pacer.quanta);
        self.units.audit(&mut pacer.units);
        let on = cycles_on(self.recorded.heap().phase());
        let spent = self.recorded.quantum(budget)?;
        self.quanta.add(&mut pacer.quanta, 1);
        self.units.add(&mut pacer.units, u64::from(spent.units));
        self.ended
            .add(&mut pacer.ended, on - cycles_on(spent.phase));
        Ok(spent)
    }
}

/// Returns the entry that a command gets if it is done now, with the reply of the heap.
fn next_entry(recorded: &Recorded, mutator: u32, command: Command) -> Entry
    ensures { result ≡ next_entry recorded.now.course mutator command }
{
    let _legal = recorded.history();
    let reply = recorded.heap().answer(mutator, &command);
    Entry {
        mutator,
        command,
        reply,
    }
}

/// Returns how many cycles are running in a phase: 0 in idle, else 1.
fn cycles_on(phase: Phase) -> u64
    ensures { result ≡ cycles_on phase }
{
    match phase {
        Phase::Idle => 0,
        _ => 1,
    }
}
