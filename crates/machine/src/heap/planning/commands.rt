//! Each command as a method of the heap, which does the command's plan if the mutator is admitted.
ghost use Rattle.machine.specs.Plan.{Steps};

use crate::heap::{Heap, planning};
use graph_heap::{Command, Reply, Shape};

/// Does the plan of a command for a mutator, if it is admitted. Nothing is planned before that is known.
macro_rules! committed {
    ($heap:expr, $mutator:expr, $joins:expr, $plan:ident($($field:expr),*)) => {
        match $heap.fields.roots.admit($mutator, $joins) {
            Ok(()) => $heap.commit($mutator, planning::$plan($heap, $mutator $(, $field)*)),
            Err(refusal) => Reply::Refused(refusal),
        }
    };
}

impl Heap {
    /// Makes an object with null references and zero words, in slot `dst`.
    #[inline(always)]
    pub fn make(&mut self, mutator: u32, dst: u32, shape: Shape) -> Reply
        ensures { Steps self.old mutator (Command.New dst shape) result self.new }
    {
        committed!(self, mutator, false, make(dst, shape))
    }

    /// Loads a reference cell of the object in slot `obj` into slot `dst`.
    #[inline(always)]
    pub fn load(&mut self, mutator: u32, dst: u32, obj: u32, i: u32) -> Reply
        ensures { Steps self.old mutator (Command.Load dst obj i) result self.new }
    {
        committed!(self, mutator, false, load(dst, obj, i))
    }

    /// Stores the reference in slot `src` in a reference cell of the object in slot `obj`.
    #[inline(always)]
    pub fn store(&mut self, mutator: u32, obj: u32, i: u32, src: u32) -> Reply
        ensures { Steps self.old mutator (Command.Store obj i src) result self.new }
    {
        committed!(self, mutator, false, store(obj, i, src))
    }

    /// Stores the reference in slot `new` in a reference cell, if the cell holds the same reference as slot `expect`.
    #[inline(always)]
    pub fn compare_store(&mut self, mutator: u32, obj: u32, i: u32, expect: u32, new: u32) -> Reply
        ensures { Steps self.old mutator (Command.CompareStore obj i expect new) result self.new }
    {
        committed!(self, mutator, false, compare_store(obj, i, expect, new))
    }

    /// Reads a word cell of the object in slot `obj`.
    #[inline(always)]
    pub fn get(&mut self, mutator: u32, obj: u32, i: u32) -> Reply
        ensures { Steps self.old mutator (Command.Get obj i) result self.new }
    {
        committed!(self, mutator, false, get(obj, i))
    }

    /// Writes a word cell of the object in slot `obj`.
    #[inline(always)]
    pub fn put(&mut self, mutator: u32, obj: u32, i: u32, word: u64) -> Reply
        ensures { Steps self.old mutator (Command.Put obj i word) result self.new }
    {
        committed!(self, mutator, false, put(obj, i, word))
    }

    /// Writes the word `new` into a word cell, if the cell holds the word `old`.
    #[inline(always)]
    pub fn compare_put(&mut self, mutator: u32, obj: u32, i: u32, old: u64, new: u64) -> Reply
        ensures { Steps self.old mutator (Command.ComparePut obj i old new) result self.new }
    {
        committed!(self, mutator, false, compare_put(obj, i, old, new))
    }

    /// Copies the reference in slot `src` to slot `dst`.
    #[inline(always)]
    pub fn copy(&mut self, mutator: u32, dst: u32, src: u32) -> Reply
        ensures { Steps self.old mutator (Command.Copy dst src) result self.new }
    {
        committed!(self, mutator, false, copy(dst, src))
    }

    /// Sets slot `dst` to null.
    #[inline(always)]
    pub fn clear(&mut self, mutator: u32, dst: u32) -> Reply
        ensures { Steps self.old mutator (Command.Clear dst) result self.new }
    {
        committed!(self, mutator, false, clear(dst))
    }

    /// Loads static `k` into slot `dst`.
    #[inline(always)]
    pub fn load_static(&mut self, mutator: u32, dst: u32, k: u32) -> Reply
        ensures { Steps self.old mutator (Command.LoadStatic dst k) result self.new }
    {
        committed!(self, mutator, false, load_static(dst, k))
    }

    /// Stores the reference in slot `src` in static `k`.
    #[inline(always)]
    pub fn store_static(&mut self, mutator: u32, k: u32, src: u32) -> Reply
        ensures { Steps self.old mutator (Command.StoreStatic k src) result self.new }
    {
        committed!(self, mutator, false, store_static(k, src))
    }

    /// Stores the reference in slot `new` in static `k`, if the static holds the same reference as slot `expect`.
    #[inline(always)]
    pub fn compare_static(&mut self, mutator: u32, k: u32, expect: u32, new: u32) -> Reply
        ensures { Steps self.old mutator (Command.CompareStatic k expect new) result self.new }
    {
        committed!(self, mutator, false, compare_static(k, expect, new))
    }

    /// Replies whether two slots hold the same object, or both null.
    #[inline(always)]
    pub fn same(&mut self, mutator: u32, a: u32, b: u32) -> Reply
        ensures { Steps self.old mutator (Command.Same a b) result self.new }
    {
        committed!(self, mutator, false, same(a, b))
    }

    /// Replies the identity and the shape of the object in slot `a`.
    #[inline(always)]
    pub fn describe(&mut self, mutator: u32, a: u32) -> Reply
        ensures { Steps self.old mutator (Command.Describe a) result self.new }
    {
        committed!(self, mutator, false, describe(a))
    }

    /// Makes the mutator live.
    #[inline(always)]
    pub fn join(&mut self, mutator: u32) -> Reply
        ensures { Steps self.old mutator Command.Join result self.new }
    {
        committed!(self, mutator, true, join())
    }

    /// Sets each slot of the mutator to null; it is then no longer live.
    #[inline(always)]
    pub fn leave(&mut self, mutator: u32) -> Reply
        ensures { Steps self.old mutator Command.Leave result self.new }
    {
        committed!(self, mutator, false, leave())
    }
}
