//! The log of a heap.
ghost use Rattle.std.specs.Prelude.{◌≡◌, ◌↔◌, ◌<◌, ◌%◌, [], length, IfOk, IsTrue};
ghost use Rattle.std.specs.Option.{option_map};
ghost use Rattle.heap_model.specs.Event.{Command_done};
ghost use Rattle.paced.specs.Logged.{event_of};
ghost use Rattle.heap_shared.specs.Past.{with_event};
ghost use Rattle.heap_shared.specs.Ring.{entry_ago};

use crate::past::{Past, no_past, went_on};
use crate::ring::Ring;
use ghosts::Ghost;
use graph_heap::{Command, NoMemory, Reply};
use paced::{Log, Logged};
use std::alloc::Global;
use std::marker::Model;

/// The log of a heap. Proofs alone have all of it. A program has its length, modulo 2^64, its last entries, and whether it is
/// empty.
pub struct HeapLog {
    past: Ghost<Past>,
    ring: Ring,
    count: u64,
    empty: bool,
}

impl Drop for HeapLog {
    fn drop(self) {
        let HeapLog {
            past: _,
            ring: _,
            count: _,
            empty: _,
        } = self;
    }
}

impl Model for HeapLog {
    ghost use Rattle.std.specs.Prelude.{◌≡◌, ◌↔◌, ◌%◌, [], IsTrue, length, map};
    ghost use Rattle.circular_buffer.specs.Buffer.{keep_last};
    ghost use Rattle.paced.specs.Logged.{event_of};
    ghost use Rattle.heap_shared.specs.Past.{LogView};

    ghost Value = { LogView };

    ghost view = { λ a. record { past = a.past.value; kept = a.ring.entries.capacity } };

    ghost invariant = { λ a. (map event_of a.ring.entries.items ≡ keep_last a.ring.entries.capacity a.past.value.events)
        × (a.count ≡ length a.past.value.events % 18446744073709551616)
        × (IsTrue a.empty ↔ (a.past.value.events ≡ [])) };
}

impl Log for HeapLog {
    ghost use Rattle.std.specs.Prelude.{◌≡◌};
    ghost use Rattle.heap_shared.specs.Past.{with_event};

    ghost enters = { λ old e new. new ≡ record old { past = with_event old.past e } };

    #[inline(always)]
    fn enter(&mut self, event: Logged) {
        self.past = went_on(&self.past, event);
        self.ring.enter(event);
        self.count = self.count.wrapping_add(1);
        self.empty = false;
    }
}

impl HeapLog {
    /// Makes an empty log, which keeps this many entries. Refused only for lack of memory.
    pub(crate) fn new(alloc: Global, kept: usize) -> Result<HeapLog, NoMemory>
        ensures { IfOk result (λ l. l ≡ record { past = record { events = []; place = 0 }; kept = kept }) }
    {
        let ring = Ring::new(alloc, kept)?;
        Ok(HeapLog {
            past: no_past(),
            ring,
            count: 0,
            empty: true,
        })
    }

    /// Enters a command that was done. It is made an event only if the log keeps entries.
    #[inline(always)]
    pub(crate) fn enter_command(&mut self, mutator: u32, command: Command, reply: Reply)
        ensures { self.new ≡ record self.old { past = with_event self.old.past (Command_done mutator command reply) } }
    {
        let event = Logged::Command {
            mutator,
            command,
            reply,
        };
        self.past = went_on(&self.past, event);
        self.ring.enter_command(mutator, command, reply);
        self.count = self.count.wrapping_add(1);
        self.empty = false;
    }

    /// Returns the length of the log, modulo 2^64.
    #[inline(always)]
    pub(crate) fn count(&self) -> u64
        ensures { result ≡ length self.now.past.events % 18446744073709551616 }
    {
        self.count
    }

    /// Returns whether no event was entered yet.
    pub(crate) fn is_empty(&self) -> bool
        ensures { IsTrue result ↔ (self.now.past.events ≡ []) }
    {
        self.empty
    }

    /// Returns the entry that was entered `ago` entries ago, 1 for the last, if the log keeps it.
    pub(crate) fn entry_ago(&self, ago: usize) -> Option<Logged>
        ensures entry { option_map event_of result ≡ entry_ago self.now.kept self.now.past.events ago }
        ensures within { self.now.kept < 9223372036854775808 }
    {
        self.ring.entry_ago(ago)
    }
}
