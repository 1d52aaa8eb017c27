//! The last entries of a log.
ghost use Rattle.std.specs.Prelude.{◌≡◌, ◌+◌, ◌-◌, ◌%◌, ◌<◌, ◌∷◌, ◌++◌, [], length, slice_get, IfOk, None, if◌then◌else◌, nat_le};
ghost use Rattle.circular_buffer.specs.Buffer.{buffer, keep_last};
ghost use Rattle.paced.specs.declared.logged.Logged.TheVariants as logged;

use circular_buffer::HeapCircularBuffer;
use graph_heap::{Command, NoMemory, Reply};
use paced::Logged;
use std::alloc::Global;

/// How many places there are, until they begin anew.
const PLACES: u64 = 9_223_372_036_854_775_808;

/// Returns how many entries a log of this length has from a place on, if both wrap.
pub(crate) fn entries_since(place: u64, length: u64) -> u64
    ensures since { (place + result) % 9223372036854775808 ≡ length % 9223372036854775808 }
    ensures wraps { result < 9223372036854775808 }
{
    length.wrapping_sub(place) % PLACES
}

/// The last entries of a log, at most as many as its capacity. All its memory is taken when it is made.
pub struct Ring {
    entries: HeapCircularBuffer<Logged, Global>,
}

impl Drop for Ring {
    fn drop(self) {
        let Ring { entries: _ } = self;
    }
}

impl Ring {
    /// Makes a ring of this capacity without entries. Refused only for lack of memory.
    pub(crate) fn new(alloc: Global, capacity: usize) -> Result<Ring, NoMemory>
        ensures { IfOk result (λ r. r.entries ≡ buffer [] capacity) }
    {
        let entries = HeapCircularBuffer::with_capacity(alloc, capacity)?;
        Ok(Ring { entries })
    }

    /// Enters an event that was done. If the ring is full, its oldest entry goes.
    #[inline(always)]
    pub(crate) fn enter(&mut self, event: Logged)
        ensures { self.new.entries ≡ buffer (keep_last self.old.entries.capacity (self.old.entries.items ++ event ∷ []))
            self.old.entries.capacity }
    {
        if self.entries.capacity() != 0 {
            self.push(event);
        }
    }

    /// Does the same for a command. It is made an event only if the ring has room for entries.
    #[inline(always)]
    pub(crate) fn enter_command(&mut self, mutator: u32, command: Command, reply: Reply)
        ensures { self.new.entries ≡ buffer
            (keep_last self.old.entries.capacity
            (self.old.entries.items ++ logged.Command mutator command reply ∷ []))
            self.old.entries.capacity }
    {
        if self.entries.capacity() != 0 {
            self.push(Logged::Command {
                mutator,
                command,
                reply,
            });
        }
    }

    /// Does the same for a ring that has room for entries.
    #[inline(never)]
    fn push(&mut self, event: Logged)
        ensures { self.new.entries ≡ buffer (keep_last self.old.entries.capacity (self.old.entries.items ++ event ∷ []))
            self.old.entries.capacity }
    {
        self.entries.push_back(event);
    }

    /// Returns the entry that was entered `ago` entries ago, 1 for the last, if the ring has it.
    pub(crate) fn entry_ago(&self, ago: usize) -> Option<Logged>
        ensures entry { result ≡ (if nat_le ago (length self.now.entries.items)
            then slice_get self.now.entries.items (length self.now.entries.items - ago)
            else None) }
        ensures within { self.now.entries.capacity < 9223372036854775808 }
    {
        let place = self.entries.len().checked_sub(ago)?;
        self.entries.get(place).copied()
    }
}
