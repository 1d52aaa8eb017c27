//! The server: one lock round the heap, and the calls of seats and of the pacer.
ghost use Rattle.std.specs.Prelude.{◌≡◌, ◌≢◌, ◌↔◌, ◌+◌, ◌<◌, [], length, IfErr, IfOk, IsOk, IsPermutation, OnErr, OnOk, vec_len};
ghost use mathlib.Core.List.{IsPrefix};
ghost use Rattle.std.specs.List.{sum_by};
ghost use Rattle.graph_heap.specs.Graph.{opening};
ghost use Rattle.graph_heap.specs.History.{IsLegal};
ghost use Rattle.graph_heap.specs.Merge.{upto};
ghost use Rattle.heap_model.specs.Event.{IsBudget};
ghost use Rattle.heap_model.specs.ReachedFrom.{IsReachedFrom};
ghost use Rattle.heap_server.specs.Kept.{IsSound};
ghost use Rattle.heap_server.specs.Opened.{names_of};
ghost use Rattle.heap_server.specs.Paced.{IsPaced};
ghost use Rattle.heap_server.specs.Seats.{new_seats, mutators_of};
ghost use Rattle.heap_server.specs.Seen.{Closes, EachKnown, Extends, FaultShows, IsKnown};

use crate::fault::ServerFault;
use crate::locked::{Locked, Pacer, Seat};
use crate::naming::{Calls, Naming, Opening};
use crate::place::{Front, HistoryLength};
use graph_heap::{Command, NoMemory};
use machine::{BudgetOutOfRange, Busy, Receipt, Recorded, Spent};
use size_classes::Config;
use std::alloc::Global;
use std::sync::ledger::Share;
use std::sync::{Mutex, Wait};

/// A heap that threads share. Each call of a seat or of the pacer is one event, done whole while the one
/// lock is held. The place word beside the lock has the length of the history, and is read without the lock.
#[derive(Drop)]
pub struct Server<N: Naming> {
    pub(crate) place: HistoryLength<N>,
    pub(crate) locked: Mutex<Locked<N>>,
}

impl<N: Naming> Server<N> {
    /// Returns a new heap without history, a seat for each mutator in rising order, and the pacer. It waits for nobody.
    pub fn new(
        alloc: Global,
        opening: Opening,
    ) -> Result<(Server<N>, Vec<Seat<N>>, Pacer<N>), NoMemory>
        requires names { names_of opening ≡ N.names }
        ensures seats { IfOk result (λ r. r.1.items ≡ new_seats N.names.settings.limits.mutators) }
        ensures mutators { IfOk result (λ r. mutators_of r.1.items ≡ upto N.names.settings.limits.mutators) }
        ensures len { IfOk result (λ r. vec_len r.1 ≡ N.names.settings.limits.mutators) }
        ensures pacer { IfOk result (λ r. r.2 ≡ record { begun = 0; ended = 0; quanta = 0; spent = 0 }) }
    {
        let Opening {
            config,
            calls,
            begun,
            ended,
            quanta,
            units,
            place,
        } = opening;
        let recorded = Recorded::new(alloc, &config)?;
        let (place, front) = place.named();
        let (calls, shares) = calls.open();
        let (begun, my_begun) = begun.open();
        let (ended, my_ended) = ended.open();
        let (quanta, my_quanta) = quanta.open();
        let (units, my_units) = units.open();
        let seats = seated(alloc, &config, shares, &front)?;
        let locked = Mutex::new(Locked {
            recorded,
            ready: 0,
            calls,
            begun,
            ended,
            quanta,
            units,
            front,
        });
        let pacer = Pacer {
            begun: my_begun,
            ended: my_ended,
            quanta: my_quanta,
            units: my_units,
        };
        Ok((Server { place, locked }, seats, pacer))
    }

    /// Does a command of the seat's mutator. The receipt has its entry in the history, and the place of that entry,
    /// from 0. The seat has then seen the history up to it. If memory is refused, or the place word has another number
    /// than the length of the history, the command isn't done.
    pub fn call(
        &self,
        seat: &mut Seat<N>,
        command: Command,
        rt: &impl Wait,
    ) -> Result<Receipt, ServerFault>
        ensures entry { IfOk result (λ r. (r.entry.mutator ≡ seat.old.mutator) × (r.entry.command ≡ command)) }
        ensures counted { OnOk result (seat.new
            ≡ record seat.old { calls = seat.old.calls + 1; seen = seat.new.seen }) }
        ensures legal { OnOk result (IsLegal (opening N.names.settings.limits) seat.new.seen) }
        ensures ends { IfOk result (λ r. Extends seat.old.seen seat.new.seen r.place r.entry) }
        ensures seen { IsPrefix seat.old.seen seat.new.seen }
        ensures err { OnErr result (seat.new ≡ record seat.old { seen = seat.new.seen }) }
        ensures fault { IfErr result (λ e. FaultShows e seat.old.seen seat.new.seen) }
    {
        let mut locked = self.locked.lock(rt);
        locked.transact(&self.place, seat, command)
    }

    /// Returns the length of the running history now. All that the seat saw before is a beginning of the history. It
    /// waits for nobody.
    pub fn place_now(&self, seat: &mut Seat<N>) -> u64
        ensures found { result ≡ length seat.new.seen }
        ensures grows { IsPrefix seat.old.seen seat.new.seen }
        ensures same { seat.new ≡ record seat.old { seen = seat.new.seen } }
    {
        seat.front.observe(&self.place)
    }

    /// Begins a cycle of the collector, unless one is running.
    pub fn begin(&self, pacer: &mut Pacer<N>, rt: &impl Wait) -> Result<(), Busy>
        ensures begun { OnOk result ((pacer.old.ended ≡ pacer.old.begun)
            × (pacer.new ≡ record pacer.old { begun = pacer.old.begun + 1 })) }
        ensures busy { OnErr result ((pacer.old.ended ≢ pacer.old.begun) × (pacer.new ≡ pacer.old)) }
    {
        self.locked.lock(rt).begin(pacer)
    }

    /// Spends units of a budget on the cycle that is running. Only a budget that isn't 256 to 1000000 units is
    /// refused.
    pub fn quantum(
        &self,
        pacer: &mut Pacer<N>,
        budget: u32,
        rt: &impl Wait,
    ) -> Result<Spent, BudgetOutOfRange>
        ensures range { IsOk result ↔ IsBudget budget }
        ensures paced { IfOk result (λ s. IsPaced pacer.old budget s pacer.new) }
        ensures err { OnErr result (pacer.new ≡ pacer.old) }
    {
        self.locked.lock(rt).quantum(pacer, budget)
    }

    /// Makes room for this many more calls. Other threads may use it up. A call that finds room takes no memory while it
    /// holds the lock. Only the system may have to find a page of that room when a call first writes to it.
    pub fn reserve_history(&self, calls: usize, rt: &impl Wait) -> Result<(), NoMemory> {
        self.locked.lock(rt).reserve(calls)
    }

    /// Returns the heap with the history of all calls, and the number of the place word, by one load. All that `new` gave comes
    /// back: every seat, in any order, and the pacer. It waits for nobody.
    pub fn close(self, seats: Vec<Seat<N>>, mut pacer: Pacer<N>) -> (Recorded, u64)
        requires { IsPermutation (mutators_of seats.items) (upto N.names.settings.limits.mutators) }
        ensures sound { IsSound N.names.settings result.0.course }
        ensures counted { length result.0.course.history ≡ sum_by (λ s. s.calls) seats.items }
        ensures reached_from { IsReachedFrom result.0.course pacer.begun pacer.quanta pacer.spent }
        ensures found { Closes result.0.course.history seats.items result.1 }
    {
        let Server { place, locked } = self;
        let mut locked = locked.into_inner();
        locked.begun.audit(&mut pacer.begun);
        locked.quanta.audit(&mut pacer.quanta);
        locked.units.audit(&mut pacer.units);
        let mut seen = locked.front.again();
        locked.calls.audit(&mut gathered(seats, &mut seen));
        let found = seen.observe(&place);
        let Locked { recorded, .. } = locked;
        (recorded, found)
    }
}

/// Returns a seat for each mutator, in rising order, with its part of the ledger of calls. It has seen the same part
/// of the history as the front.
fn seated<N: Naming>(
    alloc: Global,
    config: &Config,
    mut shares: Share<Calls<N>>,
    front: &Front<N>,
) -> Result<Vec<Seat<N>>, NoMemory>
    requires parts { shares.parts ≡ config.now.mutators }
    requires amount { shares.amount ≡ 0 }
    requires front { front.now ≡ [] }
    ensures { IfOk result (λ seats. seats.items ≡ new_seats config.now.mutators) }
{
    let mut seats = Vec::new(alloc);
    for mutator in 0..config.mutators {
        let seat = Seat {
            mutator,
            made: 0,
            calls: shares.split_off(1, 0),
            front: front.again(),
        };
        seats.push(seat)?;
    }
    Ok(seats)
}

/// Returns the parts of all seats in one share. The front then knows all that they have seen.
fn gathered<N: Naming>(mut seats: Vec<Seat<N>>, front: &mut Front<N>) -> Share<Calls<N>>
    requires { 0 < vec_len seats }
    ensures parts { result.parts ≡ vec_len seats }
    ensures amount { result.amount ≡ sum_by (λ s. s.calls) seats.items }
    ensures grows { IsPrefix front.old front.new }
    ensures known { EachKnown front.new seats.items }
{
    let Some(last) = seats.pop() else {
        unreachable!()
    };
    let mut calls = given(last, front);
    while let Some(seat) = seats.pop() {
        calls.merge(given(seat, front));
    }
    calls
}

/// Returns the part of a seat. The front then has seen the seat's part of the history too.
fn given<N: Naming>(seat: Seat<N>, front: &mut Front<N>) -> Share<Calls<N>>
    ensures parts { result.parts ≡ 1 }
    ensures amount { result.amount ≡ seat.calls }
    ensures grows { IsPrefix front.old front.new }
    ensures known { IsKnown front.new seat }
{
    let Seat {
        calls,
        front: seen,
        ..
    } = seat;
    front.learn(&seen);
    calls
}
