//! Runs. Words of an object that stand in one part are read or written at once, and slots in a row are cleared at
//! once.
ghost use Rattle.std.specs.Prelude.{◌≡◌, ◌+◌, ◌<◌, ◌≤◌, ◌^◌, ℕ, true, length, drop, min, slice_index, IfOk};
ghost use Rattle.graph_heap.specs.Graph.{Graph};
ghost use Rattle.heap_model.specs.Agreement.{Agrees};
ghost use Rattle.heap_model.specs.Store.{is_allocated, record_of};
ghost use Rattle.nodes.specs.HeapFields.{state_of, AreHeapFields};
ghost use Rattle.machine.specs.Runs.{words_from, word_run, slot_run, at_most, counted, done_in, StepsEach, DoesRun, FitsRun, HasRun};

use super::Heap;
use super::writing::{null_roots, null_unrecorded};
use crate::plan::{Kind, Run};
use arraylets::Cell;
use graph_heap::{Command, Refusal, Reply, Shape};
use nodes::{HeapFields, Nodes};
use size_classes::PART_CELLS;

impl Heap {
    /// Reads words of the object in slot `obj`, from word cell `first` on, into the front of the slice, and returns
    /// how many. It reads as many as the slice has room for and as stand in one part of the object. The rest of the
    /// slice stays. It is refused if `get` of cell `first` is.
    #[inline(always)]
    pub fn get_run(
        &self,
        mutator: u32,
        obj: u32,
        first: u32,
        words: &mut [u64],
    ) -> Result<u32, Refusal>
        ensures length { (g : Graph) → Agrees self.now g
            → result ≡ at_most (length words.old) (word_run g mutator obj first) }
        ensures numbers { IfOk result (FitsRun first (length words.old)) }
        ensures reads { DoesRun self.now mutator (λ i. Command.Get obj (first + i))
            (λ i. Reply.Word (slice_index words.new i)) result self.now }
        ensures rest { drop (done_in result) words.new ≡ drop (done_in result) words.old }
    {
        let run = self.run_of_words(mutator, obj, first)?;
        let count = run.count.min(words.len());
        read_row(&self.fields.nodes, run.at, words, count);
        Ok(count as u32)
    }

    /// Writes words into the object in slot `obj`, from word cell `first` on, and returns how many: as many as the
    /// slice has and as stand in one part of the object. It is refused if `put` of cell `first` is.
    #[inline(always)]
    pub fn put_run(
        &mut self,
        mutator: u32,
        obj: u32,
        first: u32,
        words: &[u64],
    ) -> Result<u32, Refusal>
        ensures length { (g : Graph) → Agrees self.old g
            → result ≡ at_most (length words.now) (word_run g mutator obj first) }
        ensures numbers { IfOk result (FitsRun first (length words.now)) }
        ensures puts { DoesRun self.old mutator (λ i. Command.Put obj (first + i) (slice_index words.now i))
            (λ i. Reply.Done) result self.new }
    {
        let run = self.run_of_words(mutator, obj, first)?;
        let count = words.len().min(run.count);
        write_row(&mut self.fields, run, words, count);
        Ok(count as u32)
    }

    /// Sets `count` slots of a mutator to null, from slot `first` on, or as many as there are, and returns how many.
    /// It is refused if `clear` of slot `first` is.
    #[inline(always)]
    pub fn clear_run(&mut self, mutator: u32, first: u32, count: u32) -> Result<u32, Refusal>
        ensures length { result ≡ at_most count (slot_run self.old.limits self.old.live mutator first) }
        ensures numbers { IfOk result (FitsRun first count) }
        ensures clears { DoesRun self.old mutator (λ i. Command.Clear (first + i)) (λ i. Reply.Done) result self.new }
    {
        self.fields.roots.admit(mutator, false)?;
        let cell = self.fields.roots.slot(mutator, first)?;
        let slots = self.fields.roots.limits().slots.saturating_sub(first);
        let count = count.min(slots);
        if self.fields.phase.records() {
            null_roots(&mut self.fields, mutator, cell, count as usize);
        } else {
            null_unrecorded(&mut self.fields, cell, count as usize);
        }
        Ok(count)
    }

    /// Returns the run of words of the object in slot `obj` that begins at word cell `first` and ends where its part
    /// ends.
    #[inline(always)]
    fn run_of_words(&self, mutator: u32, obj: u32, first: u32) -> Result<Run, Refusal>
        ensures found { IfOk result (HasRun self.now mutator obj first) }
        ensures length { (g : Graph) → Agrees self.now g → counted result ≡ word_run g mutator obj first }
    {
        self.fields.roots.admit(mutator, false)?;
        let root = self.fields.roots.slot(mutator, obj)?;
        let at = self.find(root, Kind::Word, first)?;
        let shape = self.fields.nodes.shape(at.block);
        Ok(Run {
            at,
            count: words_from(shape, first),
        })
    }
}

/// Returns how many words of an object of a shape stand in one part, from word cell `i` on.
#[inline(always)]
fn words_from(shape: Shape, i: u32) -> usize
    ensures { result ≡ words_from shape i }
{
    let words = match shape {
        Shape::Plain { words, .. } => words,
        Shape::RefArray(_) => 0,
        Shape::WordArray(n) => n,
    };
    (words.saturating_sub(i) as usize).min(PART_CELLS - i as usize % PART_CELLS)
}

/// Reads `count` cells of a block into the front of a slice, from cell `at` on.
#[inline(always)]
fn read_row(nodes: &Nodes, at: Cell, words: &mut [u64], count: usize)
    requires allocated { is_allocated nodes.now at.block ≡ true }
    requires within { at.index + count ≤ length (record_of nodes.now at.block).cells }
    requires room { count ≤ length words.old }
    requires small { at.index + count < 2 ^ 32 }
    ensures read { (i : ℕ) → i < count
        → slice_index words.new i ≡ slice_index (record_of nodes.now at.block).cells (at.index + i) }
    ensures rest { drop count words.new ≡ drop count words.old }
{
    for i in 0..count {
        words[i] = nodes.cell(at.block, at.index + i);
    }
}

/// Writes the first `count` words of a slice into the first cells of a run.
#[inline(always)]
fn write_row(heap: &mut HeapFields, run: Run, words: &[u64], count: usize)
    requires heap { AreHeapFields heap.old }
    requires run { (m : ℕ) × (obj : ℕ) × (first : ℕ) × HasRun (state_of heap.old) m obj first run }
    requires within { count ≤ run.count }
    requires words { count ≤ length words.now }
    ensures heap { AreHeapFields heap.new }
    ensures puts { (m obj first : ℕ) → HasRun (state_of heap.old) m obj first run
        → StepsEach (state_of heap.old) m (λ i. Command.Put obj (first + i) (slice_index words.now i))
        (λ i. Reply.Done) count (state_of heap.new) }
{
    for i in 0..count {
        heap.nodes
            .set_cell(run.at.block, run.at.index + i, words[i]);
    }
}
