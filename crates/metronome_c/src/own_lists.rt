//! Lists of commands on a heap of its own.
ghost use Rattle.std.specs.Prelude.{◌+◌, ◌≤◌, length};
ghost use Rattle.graph_heap.specs.declared.command.TheConstants.{PLAIN_CELLS as most_cells};
ghost use Rattle.paced.specs.Pacing.{shape_words};
ghost use Rattle.bulk.specs.Lists.{clears, moves, puts, copies, makes};
ghost use Rattle.metronome_c.specs.BulkCalls.{ListTold, MakesTold};

use crate::own_heap::OwnHeap;
use crate::status::Status;
use bulk::Progress;
use graph_heap::Shape;

impl OwnHeap {
    /// Sets slots to null, as `bulk::clear_slots` does.
    pub(crate) fn clear_slots(
        &mut self,
        mutator: u32,
        first: u32,
        count: u32,
    ) -> Result<Progress, Status>
        ensures { ListTold self.old mutator (clears first count) result self.new }
    {
        Ok(bulk::clear_slots(&mut self.heap, mutator, first, count))
    }

    /// Moves a slot, as `bulk::move_slot` does.
    pub(crate) fn move_slot(&mut self, mutator: u32, dst: u32, src: u32) -> Result<Progress, Status>
        ensures { ListTold self.old mutator (moves dst src) result self.new }
    {
        Ok(bulk::move_slot(&mut self.heap, mutator, dst, src))
    }

    /// Writes words of an object, as `bulk::put_words` does.
    pub(crate) fn put_words(
        &mut self,
        mutator: u32,
        obj: u32,
        first: u32,
        words: &[u64],
    ) -> Result<Progress, Status>
        requires { length words.now ≤ most_cells }
        ensures { ListTold self.old mutator (puts obj first words.now) result self.new }
    {
        Ok(bulk::put_words(&mut self.heap, mutator, obj, first, words))
    }

    /// Copies reference cells, as `bulk::copy_refs` does.
    pub(crate) fn copy_refs(
        &mut self,
        mutator: u32,
        through: u32,
        from: u32,
        from_first: u32,
        to: u32,
        to_first: u32,
        count: u32,
    ) -> Result<Progress, Status>
        requires { count ≤ most_cells }
        ensures { ListTold self.old mutator (copies through from from_first to to_first count) result self.new }
    {
        let heap = &mut self.heap;
        Ok(bulk::copy_refs(
            heap, mutator, through, from, from_first, to, to_first, count,
        ))
    }

    /// Makes an object with contents, as `bulk::new_with` does. If a plan is kept, the object's words are paid for first. If they
    /// are more than the plan has for a whole cycle, nothing is done.
    pub(crate) fn new_with(
        &mut self,
        mutator: u32,
        dst: u32,
        shape: Shape,
        slots: &[u32],
        contents: &[u64],
    ) -> Result<Progress, Status>
        requires { length slots.now + length contents.now ≤ most_cells }
        ensures { MakesTold self.old (shape_words shape) mutator (makes dst shape slots.now contents.now) result self.new }
    {
        if !self.pays(shape) {
            return Err(Status::AbovePlan);
        }
        let heap = &mut self.heap;
        Ok(bulk::new_with(heap, mutator, dst, shape, slots, contents))
    }
}
