//! Heaps that do commands of a mutator, one by one or in runs.
ghost use Rattle.std.specs.Prelude.{◌≡◌, ◌+◌, ℕ, length, drop, slice_index, IfOk};
ghost use Rattle.graph_heap.specs.declared.command.Command.{Command};
ghost use Rattle.graph_heap.specs.declared.command.Command.TheVariants as commands;
ghost use Rattle.graph_heap.specs.declared.command.Reply.{Reply};
ghost use Rattle.graph_heap.specs.declared.command.Reply.TheVariants as replies;
ghost use Rattle.machine.specs.Runs.{done_in};
ghost use Rattle.bulk.specs.InOrder.{by_heap, DoesRunBy, FitsRow};

use graph_heap::{Refusal, Reply};
use machine::Heap;

/// A heap, or a type that has one. Each method does commands of a mutator, as the heap's method of the same name does.
pub trait Commands {
    ghost does: { ℕ → Self → Command → Reply → Self → Type 0 };

    /// Loads a reference of the object in slot obj into slot dst.
    fn load(&mut self, mutator: u32, dst: u32, obj: u32, i: u32) -> Reply
        ensures { does mutator self.old (commands.Load dst obj i) result self.new };

    /// Stores the reference of slot src in the object in slot obj.
    fn store(&mut self, mutator: u32, obj: u32, i: u32, src: u32) -> Reply
        ensures { does mutator self.old (commands.Store obj i src) result self.new };

    /// Writes a word of the object in slot obj.
    fn put(&mut self, mutator: u32, obj: u32, i: u32, word: u64) -> Reply
        ensures { does mutator self.old (commands.Put obj i word) result self.new };

    /// Copies the reference of slot src into slot dst.
    fn copy(&mut self, mutator: u32, dst: u32, src: u32) -> Reply
        ensures { does mutator self.old (commands.Copy dst src) result self.new };

    /// Sets slot dst to null.
    fn clear(&mut self, mutator: u32, dst: u32) -> Reply
        ensures { does mutator self.old (commands.Clear dst) result self.new };

    /// Reads words of the object in slot obj, from word cell `first` on, and returns how many: at least one, if the slice has
    /// room. The rest of the slice stays.
    fn get_run(
        &mut self,
        mutator: u32,
        obj: u32,
        first: u32,
        words: &mut [u64],
    ) -> Result<u32, Refusal>
        ensures numbers { IfOk result (FitsRow first (length words.old)) }
        ensures reads { DoesRunBy (does mutator) self.old (λ i. commands.Get obj (first + i))
            (λ i. replies.Word (slice_index words.new i)) result self.new }
        ensures rest { drop (done_in result) words.new ≡ drop (done_in result) words.old };

    /// Writes words into the object in slot obj, from word cell `first` on, and returns how many: at least one, if there is any.
    fn put_run(&mut self, mutator: u32, obj: u32, first: u32, words: &[u64]) -> Result<u32, Refusal>
        ensures numbers { IfOk result (FitsRow first (length words.now)) }
        ensures puts { DoesRunBy (does mutator) self.old (λ i. commands.Put obj (first + i) (slice_index words.now i))
            (λ i. replies.Done) result self.new };

    /// Sets at most `count` slots to null, from slot `first` on, and returns how many: at least one, if `count` isn't 0.
    fn clear_run(&mut self, mutator: u32, first: u32, count: u32) -> Result<u32, Refusal>
        ensures numbers { IfOk result (FitsRow first count) }
        ensures clears { DoesRunBy (does mutator) self.old (λ i. commands.Clear (first + i)) (λ i. replies.Done)
            result self.new };
}

impl Commands for Heap {
    ghost does = { by_heap };

    #[inline(always)]
    fn load(&mut self, mutator: u32, dst: u32, obj: u32, i: u32) -> Reply {
        Heap::load(self, mutator, dst, obj, i)
    }

    #[inline(always)]
    fn store(&mut self, mutator: u32, obj: u32, i: u32, src: u32) -> Reply {
        Heap::store(self, mutator, obj, i, src)
    }

    #[inline(always)]
    fn put(&mut self, mutator: u32, obj: u32, i: u32, word: u64) -> Reply {
        Heap::put(self, mutator, obj, i, word)
    }

    #[inline(always)]
    fn copy(&mut self, mutator: u32, dst: u32, src: u32) -> Reply {
        Heap::copy(self, mutator, dst, src)
    }

    #[inline(always)]
    fn clear(&mut self, mutator: u32, dst: u32) -> Reply {
        Heap::clear(self, mutator, dst)
    }

    #[inline(always)]
    fn get_run(
        &mut self,
        mutator: u32,
        obj: u32,
        first: u32,
        words: &mut [u64],
    ) -> Result<u32, Refusal> {
        Heap::get_run(self, mutator, obj, first, words)
    }

    #[inline(always)]
    fn put_run(
        &mut self,
        mutator: u32,
        obj: u32,
        first: u32,
        words: &[u64],
    ) -> Result<u32, Refusal> {
        Heap::put_run(self, mutator, obj, first, words)
    }

    #[inline(always)]
    fn clear_run(&mut self, mutator: u32, first: u32, count: u32) -> Result<u32, Refusal> {
        Heap::clear_run(self, mutator, first, count)
    }
}
