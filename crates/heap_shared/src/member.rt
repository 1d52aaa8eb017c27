//! Members of a shared heap.
ghost use Rattle.std.specs.Prelude.{◌≡◌, ◌*◌, [], IfOk, IfSome, Ok, None};
ghost use Rattle.std.specs.Fn.{FnOnceReturnsAt, FnOnceReturnsAtMut};
ghost use Rattle.graph_heap.specs.declared.command.Command.TheVariants as commands;
ghost use Rattle.heap_model.specs.Settings.{settings_by};
ghost use Rattle.paced.specs.Pacing.{MakesNothing};
ghost use Rattle.heap_shared.specs.Members.{Enters, Leaves, Places, Calls, FindsIn, Finds, FindsEntry, Adds, before_giving, Learns, IsPromised};
ghost use Rattle.heap_shared.specs.Methods.{IsMethodOf};
ghost use Rattle.heap_shared.specs.Ring.{figures_of};
ghost use mathlib.Core.List.{IsPrefix};

use crate::fault::{NoEntry, NoMember, NoTurn, NotDone};
use crate::fitting::fitting_first;
use crate::ring::entries_since;
use crate::rule::{
    Cut, Enter, Halve, Known, Learn, Leave, Look, Rejoin, Spare, TURN_WORD, TurnRule, WORDS,
};
use crate::shared_heap::{SharedConfig, SharedHeap};
use atomic_table::{Refused, Seat, Table};
use graph_heap::{Command, NoMemory, Reply, Shape};
use machine::Heap;
use paced::{AbovePlan, Cycle, Figures, Logged};
use size_classes::Config;
use std::alloc::Global;
use std::marker::Model;
use std::sync::Arc;

mod collecting;
mod lists;

/// A member of a heap that threads share. It calls for the mutators from one number on and below another, and no other
/// member calls for these. Contracts see the part of the log that it has seen and, in its turn, the heap with its history. Its
/// fields lie on cache lines of their own, which other threads don't write. Only `end`, `learn` and `rejoin` give a member up,
/// and none of them takes one that has the turn: so the turn can't be lost.
#[repr(C)]
pub struct Member {
    before: Apart,
    table: Arc<Table<SharedHeap, Known, SharedConfig, TurnRule, Global>, Global>,
    seat: Seat<SharedHeap, Known>,
    from: u32,
    to: u32,
    inside: bool,
    behind: Apart,
}

/// Memory that is never written, as long as two cache lines.
type Apart = [u64; 16];

impl Model for Member {
    ghost use Rattle.std.specs.Prelude.{◌≡◌, ◌<◌, Some};
    ghost use Rattle.std.specs.Arc.{arc_value};
    ghost use Rattle.heap_shared.specs.Members.{MemberView, IsMember, shown_by};

    ghost Value = { MemberView };

    ghost view = { λ m. shown_by m.seat.table_id (arc_value m.table).shared.key m.seat.me };

    ghost invariant = { λ m. (m.seat.table_id ≡ (arc_value m.table).shared.table_id)
        × (16 < (arc_value m.table).shared.table_id.words)
        × (m.seat.me.0.config ≡ Some (arc_value m.table).shared.key)
        × (m.seat.me.0.from ≡ m.from) × (m.seat.me.0.to ≡ m.to)
        × IsMember (arc_value m.table).shared.key m.inside m.seat.me };
}

impl Member {
    /// Makes a heap, and its first member, which calls for all mutators. The heap keeps no entry of its log, and no plan. Refused
    /// only for lack of memory.
    pub fn new(alloc: Global, config: &Config) -> Result<Member, NoMemory>
        ensures settings { IfOk result (λ m. (m.settings ≡ settings_by config.now) × (m.ring ≡ 0) × (m.plan ≡ None)) }
        ensures mutators { IfOk result (λ m. (m.from ≡ 0) × (m.to ≡ config.now.mutators)) }
        ensures numbers { IfOk result (λ m. (m.number ≡ 0) × (m.step ≡ 1)) }
        ensures seen { IfOk result (λ m. (m.seen ≡ []) × (m.learnt ≡ [])) }
        ensures turn { IfOk result (λ m. (m.turn ≡ None) × (m.did ≡ [])) }
        ensures last { IfOk result (λ m. m.last ≡ None) }
    {
        Member::with_ring(
            alloc,
            &SharedConfig {
                config: *config,
                ring: 0,
                plan: None,
            },
        )
    }

    /// Does the same as `new`, for a heap that keeps the last entries of its log and a plan, if they are asked for. It takes all
    /// memory for these entries here.
    pub fn with_ring(alloc: Global, asked: &SharedConfig) -> Result<Member, NoMemory>
        ensures settings { IfOk result (λ m. (m.settings ≡ settings_by asked.now.config) × (m.ring ≡ asked.now.ring)
            × (m.plan ≡ asked.now.plan)) }
        ensures budget { IfOk result (λ m. m.budget ≡ asked.now.config.collector_ticks * asked.now.config.rate) }
        ensures mutators { IfOk result (λ m. (m.from ≡ 0) × (m.to ≡ asked.now.config.mutators)) }
        ensures numbers { IfOk result (λ m. (m.number ≡ 0) × (m.step ≡ 1)) }
        ensures seen { IfOk result (λ m. (m.seen ≡ []) × (m.learnt ≡ [])) }
        ensures turn { IfOk result (λ m. (m.turn ≡ None) × (m.did ≡ [])) }
        ensures last { IfOk result (λ m. m.last ≡ None) }
    {
        let heap = SharedHeap::new(alloc, asked)?;
        let mut slots = Vec::with_capacity(alloc, 1)?;
        slots.push_reserved(heap);
        match Table::new(alloc, &[0; WORDS], slots, asked) {
            Ok((table, seat)) => {
                let table = Arc::new(alloc, table)?;
                Ok(Member {
                    before: [0; 16],
                    table,
                    seat,
                    from: 0,
                    to: asked.config.mutators,
                    inside: false,
                    behind: [0; 16],
                })
            }
            Err(Refused { slots: _ }) => Err(NoMemory),
        }
    }

    /// Makes another member of the same heap. It calls for this one's mutators from a number on, and has seen the same log.
    pub fn another(&mut self, from: u32) -> Result<Member, NoMember>
        ensures { Adds self.old from result self.new }
    {
        if self.inside {
            return Err(NoMember::Inside);
        }
        if from < self.from || self.to < from {
            return Err(NoMember::NotYours);
        }
        let Ok(table) = Arc::try_clone(&self.table) else {
            return Err(NoMember::NoMemory);
        };
        let cut = u64::from(from);
        self.table
            .shared
            .compare_exchange::<Cut>(&mut self.seat, TURN_WORD, cut, cut);
        let seat = self.table.shared.split_seat::<Halve>(&mut self.seat);
        let to = self.to;
        self.to = from;
        Ok(Member {
            before: [0; 16],
            table,
            seat,
            from,
            to,
            inside: false,
            behind: [0; 16],
        })
    }

    /// Takes back the mutators that it gave to another member, which did nothing since.
    pub fn rejoin(&mut self, made: Member)
        requires { Adds (before_giving self.old made) made.from (Ok made) self.old }
        ensures { self.new ≡ before_giving self.old made }
    {
        let Member {
            before: _,
            table: _,
            seat,
            from: _,
            to,
            inside: _,
            behind: _,
        } = made;
        self.table.shared.join_seat::<Rejoin>(&mut self.seat, seat);
        self.to = to;
    }

    /// Takes the turn, if nobody has it. It waits for nobody.
    #[inline(always)]
    pub fn enter(&mut self) -> Result<(), NoTurn>
        ensures enters { Enters self.old result self.new }
        ensures grows { IsPrefix self.old.seen self.new.seen }
    {
        if self.inside {
            return Err(NoTurn::Inside);
        }
        let seen = self.table.shared.peek(TURN_WORD);
        if seen % 2 != 0 {
            return Err(NoTurn::Taken);
        }
        let found = self
            .table
            .shared
            .compare_exchange::<Enter>(&mut self.seat, TURN_WORD, seen, seen + 1);
        if found != seen {
            return Err(NoTurn::Taken);
        }
        self.inside = true;
        Ok(())
    }

    /// Gives the turn back, and returns whether the member had it.
    #[inline(always)]
    pub fn leave(&mut self) -> bool
        ensures leaves { Leaves self.old result self.new }
        ensures grows { IsPrefix self.old.seen self.new.seen }
    {
        if !self.inside {
            return false;
        }
        let events = self.seat.slot_mut(&self.table.shared, 0).count();
        self.table
            .shared
            .store::<Leave>(&mut self.seat, TURN_WORD, events.wrapping_mul(2));
        self.inside = false;
        true
    }

    /// Returns the place in the log behind its last event, modulo 2^63, if the member doesn't have the turn. It waits for nobody.
    pub fn place(&mut self) -> Option<u64>
        ensures places { Places self.old result self.new }
        ensures grows { IsPrefix self.old.seen self.new.seen }
    {
        if self.inside {
            return None;
        }
        Some(self.table.shared.load::<Look>(&mut self.seat, TURN_WORD) / 2)
    }

    /// Does a command of one of its mutators in the turn, and returns the reply.
    pub fn call(&mut self, mutator: u32, command: Command) -> Result<Reply, NotDone>
        ensures { Calls self.old mutator command result self.new }
    {
        if let Command::New { dst, shape } = command {
            return self.make(mutator, dst, shape);
        }
        self.call_by(mutator, command, |heap| heap.step(mutator, command))
    }

    /// Makes an object for one of its mutators in the turn, and returns the reply. If the heap keeps a plan, the collector first
    /// works as much as the plan requires for the object.
    #[inline(always)]
    pub fn make(&mut self, mutator: u32, dst: u32, shape: Shape) -> Result<Reply, NotDone>
        ensures { Calls self.old mutator (commands.New dst shape) result self.new }
    {
        if !self.inside {
            return Err(NotDone::Outside);
        }
        let yours = self.from <= mutator && mutator < self.to;
        if !yours {
            return Err(NotDone::NotYours);
        }
        match self
            .seat
            .slot_mut(&self.table.shared, 0)
            .make(mutator, dst, shape)
        {
            Ok(reply) => Ok(reply),
            Err(AbovePlan) => Err(NotDone::AbovePlan),
        }
    }

    /// Does a command that makes no object, of one of its mutators, by the heap's method for it, in the turn. Returns the reply.
    /// All of it down to that method is in line.
    #[inline(always)]
    pub fn call_by<F: FnOnce(&mut Heap) -> Reply + Drop>(
        &mut self,
        mutator: u32,
        command: Command,
        method: F,
    ) -> Result<Reply, NotDone>
        requires callable { F.IsAlwaysCallable method }
        requires does { IsMethodOf mutator command (FnOnceReturnsAtMut F.FnOnce method) }
        requires nothing { MakesNothing command }
        ensures { Calls self.old mutator command result self.new }
    {
        if !self.inside {
            return Err(NotDone::Outside);
        }
        if mutator < self.from || self.to <= mutator {
            return Err(NotDone::NotYours);
        }
        Ok(
            self.seat
                .slot_mut(&self.table.shared, 0)
                .call_by(mutator, command, method),
        )
    }

    /// Returns what `look` finds in the heap, in the turn.
    pub fn inspect<T, F: FnOnce(&Heap) -> T + Drop>(&mut self, look: F) -> Option<T>
        requires { F.IsAlwaysCallable look }
        ensures { Finds (FnOnceReturnsAt F.FnOnce look) self.old result self.new }
    {
        if !self.inside {
            return None;
        }
        Some(self.seat.slot_mut(&self.table.shared, 0).inspect(look))
    }

    /// Returns the last cycle that ended, in the turn.
    pub fn last_cycle(&mut self) -> Option<Cycle>
        ensures { FindsIn (λ r cycle. cycle ≡ r.cycles.ended) self.old result self.new }
    {
        if !self.inside {
            return None;
        }
        Some(self.seat.slot_mut(&self.table.shared, 0).last_cycle())
    }

    /// Returns the work that the collector did because the plan required it, in the turn; or that the heap keeps no plan.
    pub fn figures(&mut self) -> Option<Option<Figures>>
        ensures { FindsIn (λ r told. told ≡ figures_of r) self.old result self.new }
    {
        if !self.inside {
            return None;
        }
        Some(self.seat.slot_mut(&self.table.shared, 0).figures())
    }

    /// Returns the event at a place of the log, in the turn. Places count from 0, and wrap at 2^63.
    pub fn entry(&mut self, place: u64) -> Option<Result<Logged, NoEntry>>
        ensures { FindsEntry place self.old result self.new }
    {
        if !self.inside {
            return None;
        }
        let heap = self.seat.slot_mut(&self.table.shared, 0);
        let ago = entries_since(place, heap.count());
        if ago == 0 {
            return Some(Err(NoEntry::NotYet));
        }
        Some(heap.entry_ago(ago as usize).ok_or(NoEntry::Gone))
    }

    /// Takes over another member's account of the log, if both are members of one heap. From a member of another heap it learns
    /// nothing. Nobody calls for the other member's mutators any more.
    pub fn learn(&mut self, other: Member)
        requires { other.turn ≡ None }
        ensures { Learns self.old other self.new }
    {
        let Member {
            before: _,
            table: _,
            seat,
            from: _,
            to: _,
            inside: _,
            behind: _,
        } = other;
        let spare = self.table.shared.split_seat::<Spare>(&mut self.seat);
        let (fitting, _) = fitting_first(seat, spare);
        self.table
            .shared
            .join_seat::<Learn>(&mut self.seat, fitting);
    }

    /// Gives the member up. The last member of a heap gives the heap's memory back.
    pub fn end(self)
        requires { self.turn ≡ None }
    {
        let Member {
            before: _,
            table: _,
            seat: _,
            from: _,
            to: _,
            inside: _,
            behind: _,
        } = self;
    }

    /// States the promises of the heap with its history, in the turn. It does nothing.
    pub fn promise(&mut self)
        ensures same { self.new ≡ self.old }
        ensures promised { IfSome self.old.turn (IsPromised self.old) }
    {
        if self.inside {
            self.seat.slot_mut(&self.table.shared, 0).promise();
        }
    }
}
