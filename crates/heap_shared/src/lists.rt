//! Lists of commands at a shared heap.
ghost use Rattle.std.specs.Prelude.{◌+◌, ◌≤◌, length};
ghost use Rattle.bulk.specs.Lists.{makes};
ghost use Rattle.heap_shared.specs.Lists.{by_shared, MakesWith};

use crate::shared_heap::SharedHeap;
use bulk::{Commands, Progress, fill_made};
use graph_heap::{Command, PLAIN_CELLS, Refusal, Reply, Shape};
use paced::AbovePlan;

impl Commands for SharedHeap {
    ghost does = { by_shared };

    #[inline(always)]
    fn load(&mut self, mutator: u32, dst: u32, obj: u32, i: u32) -> Reply {
        let command = Command::Load { dst, obj, i };
        self.call_by(mutator, command, |heap| heap.load(mutator, dst, obj, i))
    }

    #[inline(always)]
    fn store(&mut self, mutator: u32, obj: u32, i: u32, src: u32) -> Reply {
        let command = Command::Store { obj, i, src };
        self.call_by(mutator, command, |heap| heap.store(mutator, obj, i, src))
    }

    #[inline(always)]
    fn put(&mut self, mutator: u32, obj: u32, i: u32, word: u64) -> Reply {
        let command = Command::Put { obj, i, word };
        self.call_by(mutator, command, |heap| heap.put(mutator, obj, i, word))
    }

    #[inline(always)]
    fn copy(&mut self, mutator: u32, dst: u32, src: u32) -> Reply {
        let command = Command::Copy { dst, src };
        self.call_by(mutator, command, |heap| heap.copy(mutator, dst, src))
    }

    #[inline(always)]
    fn clear(&mut self, mutator: u32, dst: u32) -> Reply {
        let command = Command::Clear { dst };
        self.call_by(mutator, command, |heap| heap.clear(mutator, dst))
    }

    /// Reads one word, which the log gets.
    #[inline(always)]
    fn get_run(
        &mut self,
        mutator: u32,
        obj: u32,
        first: u32,
        words: &mut [u64],
    ) -> Result<u32, Refusal> {
        if words.is_empty() {
            return Ok(0);
        }
        let command = Command::Get { obj, i: first };
        match self.call_by(mutator, command, |heap| heap.get(mutator, obj, first)) {
            Reply::Word(word) => {
                words[0] = word;
                Ok(1)
            }
            Reply::Refused(why) => Err(why),
            _ => unreachable!(),
        }
    }

    /// Writes one word, which the log gets.
    #[inline(always)]
    fn put_run(
        &mut self,
        mutator: u32,
        obj: u32,
        first: u32,
        words: &[u64],
    ) -> Result<u32, Refusal> {
        if words.is_empty() {
            return Ok(0);
        }
        match self.put(mutator, obj, first, words[0]) {
            Reply::Refused(why) => Err(why),
            _ => Ok(1),
        }
    }

    /// Clears one slot, which the log gets.
    #[inline(always)]
    fn clear_run(&mut self, mutator: u32, first: u32, count: u32) -> Result<u32, Refusal> {
        if count == 0 {
            return Ok(0);
        }
        match self.clear(mutator, first) {
            Reply::Refused(why) => Err(why),
            _ => Ok(1),
        }
    }
}

impl SharedHeap {
    /// Makes a new object with its first contents, as `bulk::new_with` does. If the heap keeps a plan, the collector first works
    /// for the object as for `make`.
    pub fn new_with(
        &mut self,
        mutator: u32,
        dst: u32,
        shape: Shape,
        refs: &[u32],
        words: &[u64],
    ) -> Result<Progress, AbovePlan>
        requires { length refs.now + length words.now ≤ PLAIN_CELLS }
        ensures { MakesWith self.old mutator (makes dst shape refs.now words.now) result self.new }
    {
        let made = self.make(mutator, dst, shape)?;
        Ok(fill_made(self, mutator, dst, made, refs, words))
    }
}
