//! Lists of commands by a member, in its turn.
ghost use Rattle.std.specs.Prelude.{◌≡◌, ◌+◌, ◌≤◌, length, drop};
ghost use Rattle.bulk.specs.Lists.{clears, moves, gets, puts, copies, makes};
ghost use Rattle.heap_shared.specs.Members.{MayCall, CallsList, ReadsList, done_of};

use super::Member;
use crate::fault::NotDone;
use bulk::Progress;
use graph_heap::{PLAIN_CELLS, Shape};
use paced::AbovePlan;

impl Member {
    /// Tells whether a list of commands of a mutator may be done.
    #[inline(always)]
    fn may(&self, mutator: u32) -> Result<(), NotDone>
        ensures { MayCall self.now mutator result }
    {
        if !self.inside {
            return Err(NotDone::Outside);
        }
        let yours = self.from <= mutator && mutator < self.to;
        if !yours {
            return Err(NotDone::NotYours);
        }
        Ok(())
    }

    /// Sets slots of one of its mutators to null in the turn, as `bulk::clear_slots` does.
    pub fn clear_slots(&mut self, mutator: u32, first: u32, count: u32) -> Result<Progress, NotDone>
        ensures { CallsList self.old mutator (clears first count) result self.new }
    {
        self.may(mutator)?;
        let heap = self.seat.slot_mut(&self.table.shared, 0);
        Ok(bulk::clear_slots(heap, mutator, first, count))
    }

    /// Moves a slot of one of its mutators in the turn, as `bulk::move_slot` does.
    pub fn move_slot(&mut self, mutator: u32, dst: u32, src: u32) -> Result<Progress, NotDone>
        ensures { CallsList self.old mutator (moves dst src) result self.new }
    {
        self.may(mutator)?;
        let heap = self.seat.slot_mut(&self.table.shared, 0);
        Ok(bulk::move_slot(heap, mutator, dst, src))
    }

    /// Reads words of an object for one of its mutators in the turn, as `bulk::get_words` does.
    pub fn get_words(
        &mut self,
        mutator: u32,
        obj: u32,
        first: u32,
        words: &mut [u64],
    ) -> Result<Progress, NotDone>
        requires { length words.old ≤ PLAIN_CELLS }
        ensures reads { ReadsList self.old mutator (gets obj first (length words.old)) words.new result self.new }
        ensures rest { drop (done_of result) words.new ≡ drop (done_of result) words.old }
    {
        self.may(mutator)?;
        let heap = self.seat.slot_mut(&self.table.shared, 0);
        Ok(bulk::get_words(heap, mutator, obj, first, words))
    }

    /// Writes words of an object for one of its mutators in the turn, as `bulk::put_words` does.
    pub fn put_words(
        &mut self,
        mutator: u32,
        obj: u32,
        first: u32,
        words: &[u64],
    ) -> Result<Progress, NotDone>
        requires { length words.now ≤ PLAIN_CELLS }
        ensures { CallsList self.old mutator (puts obj first words.now) result self.new }
    {
        self.may(mutator)?;
        let heap = self.seat.slot_mut(&self.table.shared, 0);
        Ok(bulk::put_words(heap, mutator, obj, first, words))
    }

    /// Copies references between objects for one of its mutators in the turn, as `bulk::copy_refs` does.
    pub fn copy_refs(
        &mut self,
        mutator: u32,
        through: u32,
        from: u32,
        from_first: u32,
        to: u32,
        to_first: u32,
        count: u32,
    ) -> Result<Progress, NotDone>
        requires { count ≤ PLAIN_CELLS }
        ensures { CallsList self.old mutator (copies through from from_first to to_first count) result self.new }
    {
        self.may(mutator)?;
        let heap = self.seat.slot_mut(&self.table.shared, 0);
        Ok(bulk::copy_refs(
            heap, mutator, through, from, from_first, to, to_first, count,
        ))
    }

    /// Makes an object with its first contents for one of its mutators in the turn, as `bulk::new_with` does. If the heap keeps
    /// a plan, the collector first works as much as the plan requires for the object.
    pub fn new_with(
        &mut self,
        mutator: u32,
        dst: u32,
        shape: Shape,
        refs: &[u32],
        words: &[u64],
    ) -> Result<Progress, NotDone>
        requires { length refs.now + length words.now ≤ PLAIN_CELLS }
        ensures { CallsList self.old mutator (makes dst shape refs.now words.now) result self.new }
    {
        self.may(mutator)?;
        let heap = self.seat.slot_mut(&self.table.shared, 0);
        match heap.new_with(mutator, dst, shape, refs, words) {
            Ok(progress) => Ok(progress),
            Err(AbovePlan) => Err(NotDone::AbovePlan),
        }
    }
}
