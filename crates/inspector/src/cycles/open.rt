//! A cycle that isn't followed by another yet.
ghost use Rattle.std.specs.Prelude.{◌≡◌, true, if◌then◌else◌, ◌++◌, ◌∷◌, [], length, List, Option, option_map, count_by};
ghost use Rattle.heap_model.specs.Event.{Course};
ghost use Rattle.heap_model.specs.Pages as page_list;
ghost use Rattle.nodes.specs.Copies.{copies_in};
ghost use Rattle.trace.specs.Steps.{Step};
ghost use Rattle.inspector.specs.Steps.{begins, ends_cycle};
ghost use Rattle.inspector.specs.Cycles.{IsSweep, IsCycle, SweptBy, end_of};
ghost use Rattle.inspector.specs.Log.{IsBase, IsBaseAt, IsOpen, IsEnd, IsQuantumEffect, AreCounted, end_at};

use crate::cycles::cycle::{Cycle, Sweep};
use crate::cycles::made::{from_place, made_by};
use crate::cycles::turn::QuantumEffect;
use machine::{Heap, Recorded};
use nodes::Copies;

/// The figures of the last sweep, and of the last cycle's end.
#[derive(Clone, Copy, Debug, PartialEq, Eq)]
pub struct Base {
    /// The objects that the sweep kept.
    pub objects: usize,
    /// The parts that it kept.
    pub parts: usize,
    /// The old copies that the cycle left.
    pub old: usize,
    /// How long the history was when the sweep had ended.
    pub place: usize,
}

/// The figures of a cycle's end.
#[derive(Clone, Copy, Debug, PartialEq, Eq)]
pub struct End {
    /// The units of the cycle.
    pub units: u64,
    /// The blocks that it moved.
    pub moved: usize,
}

/// The figures when a cycle began.
#[derive(Clone, Copy, Debug, PartialEq, Eq)]
pub struct Start {
    /// The number of the line that began it.
    pub line: u64,
    pub base: Base,
    /// How long the history was.
    pub place: usize,
    /// How many pages were free.
    pub free: usize,
}

/// A cycle that isn't followed by another yet.
#[derive(Clone, Copy, Debug, PartialEq, Eq)]
pub struct Open {
    pub start: Start,
    pub quanta: u64,
    pub longest: u64,
    pub sweep: Option<Sweep>,
    pub end: Option<End>,
}

/// Returns the first number if `is_so`, else the second.
fn either(is_so: bool, first: usize, second: usize) -> usize
    ensures { result ≡ (if is_so then first else second) }
{
    if is_so { first } else { second }
}

/// Returns the number of moved blocks, if there is a sweep.
fn once_swept(sweep: Option<Sweep>, moved: usize) -> Option<u64>
    ensures { result ≡ option_map (λ s. moved) sweep }
{
    sweep.map(|_| moved as u64)
}

impl Base {
    /// Returns the figures before the first step.
    pub fn new() -> Base
        ensures { IsBase [] result }
    {
        Base {
            objects: 0,
            parts: 0,
            old: 0,
            place: 0,
        }
    }

    /// Returns the figures after one more quantum, with the copies in the heap and the length of the history.
    pub fn after(self, turn: &QuantumEffect, copies: &Copies, place: usize) -> Base
        ensures { (steps : List Step) (s : Step) → IsBase steps self → IsQuantumEffect s turn.now
            → AreCounted s copies.now
            → place ≡ length s.after.history → IsBase (steps ++ s ∷ []) result }
    {
        let QuantumEffect {
            ends_sweep,
            ends_cycle,
            ..
        } = *turn;
        Base {
            objects: either(ends_sweep, copies.objects, self.objects),
            parts: either(ends_sweep, copies.parts, self.parts),
            old: either(ends_cycle, copies.old, self.old),
            place: either(ends_sweep, place, self.place),
        }
    }
}

impl End {
    /// Returns the figures of a cycle that ends with this heap, which has this many old copies.
    fn from_heap(heap: &Heap, old: usize) -> End
        ensures { result ≡ record { units = heap.now.units; moved = old } }
    {
        End {
            units: heap.units(),
            moved: old,
        }
    }
}

impl Start {
    /// Returns the figures of the cycle's sweep, which has just ended and left these copies.
    fn swept(&self, recorded: &Recorded, copies: &Copies) -> Sweep
        ensures { (swept ended : Option Course) (first : Course) → IsBaseAt swept ended self.now.base
            → self.now.place ≡ length first.history
            → self.now.free ≡ page_list.free_pages first.heap.store.pages
            → copies.now ≡ copies_in recorded.now.course.heap.store
            → IsSweep swept ended first recorded.now.course result }
    {
        let entries = recorded.history();
        let since = made_by(from_place(entries, self.base.place));
        let made = made_by(from_place(entries, self.place)).objects;
        let objects = self.base.objects as u128 + u128::from(since.objects);
        let blocks = self.base.parts as u128 + self.base.old as u128 + since.blocks;
        Sweep {
            freed: objects.saturating_sub(copies.objects as u128),
            blocks: blocks.saturating_sub(copies.parts as u128),
            kept: copies.objects as u64,
            free_before: self.free as u64,
            free_after: recorded.heap().free_pages() as u64,
            made,
        }
    }
}

impl Open {
    /// Returns a cycle that a line begins.
    pub fn new(line: u64, base: &Base, recorded: &Recorded) -> Open
        ensures { (earlier : List Step) (s : Step) → IsBase earlier base.now → s.line ≡ line
            → s.before ≡ recorded.now.course → IsOpen earlier s [] result }
    {
        Open {
            start: Start {
                line,
                base: *base,
                place: recorded.history().len(),
                free: recorded.heap().free_pages(),
            },
            quanta: 0,
            longest: 0,
            sweep: None,
            end: None,
        }
    }

    /// Returns the sweep after one more quantum, if it has ended by then.
    fn sweep_after(
        &self,
        turn: &QuantumEffect,
        copies: &Copies,
        recorded: &Recorded,
    ) -> Option<Sweep>
        ensures { (earlier later : List Step) (first s : Step) → IsOpen earlier first later self.now
            → IsQuantumEffect s turn.now
            → AreCounted s copies.now → s.after ≡ recorded.now.course
            → SweptBy earlier first (later ++ s ∷ []) result }
    {
        if self.sweep.is_some() {
            return self.sweep;
        }
        if !turn.ends_sweep {
            return None;
        }
        Some(self.start.swept(recorded, copies))
    }

    /// Returns how the cycle ended, if it has after one more quantum.
    fn end_after(&self, turn: &QuantumEffect, copies: &Copies, heap: &Heap) -> Option<End>
        ensures { (earlier later : List Step) (first s : Step) → begins first ≡ true
            → IsOpen earlier first later self.now → IsQuantumEffect s turn.now → AreCounted s copies.now
            → s.after.heap ≡ heap.now
            → IsEnd first (later ++ s ∷ []) result }
    {
        if self.end.is_some() {
            return self.end;
        }
        if !turn.ends_cycle {
            return None;
        }
        Some(End::from_heap(heap, copies.old))
    }

    /// Returns the cycle after one more quantum, with the copies in the heap if they were counted.
    pub fn after(self, turn: &QuantumEffect, copies: &Copies, recorded: &Recorded) -> Open
        ensures { (earlier later : List Step) (first s : Step) → begins first ≡ true → IsOpen earlier first later self
            → IsQuantumEffect s turn.now → AreCounted s copies.now → s.after ≡ recorded.now.course
            → IsOpen earlier first (later ++ s ∷ []) result }
    {
        Open {
            quanta: self.quanta.saturating_add(either(turn.works, 1, 0) as u64),
            longest: self.longest.max(turn.units),
            sweep: self.sweep_after(turn, copies, recorded),
            end: self.end_after(turn, copies, recorded.heap()),
            ..self
        }
    }

    /// Returns how the cycle ended; or its figures in this heap, if it is still running.
    fn end(&self, heap: &Heap) -> End
        ensures { (later : List Step) (first : Step) → IsEnd first later self.now.end
            → (count_by ends_cycle later ≡ 0 → (end_of first later).heap ≡ heap.now)
            → result ≡ end_at (end_of first later) }
    {
        match self.end {
            Some(end) => end,
            None => End::from_heap(heap, heap.copies().old),
        }
    }

    /// Returns the whole cycle, once another follows it or the run has ended.
    pub fn closed(&self, heap: &Heap) -> Cycle
        ensures { (earlier later : List Step) (first : Step) → IsOpen earlier first later self.now
            → (count_by ends_cycle later ≡ 0 → (end_of first later).heap ≡ heap.now)
            → IsCycle earlier first later result }
    {
        let end = self.end(heap);
        Cycle {
            line: self.start.line,
            quanta: self.quanta,
            units: end.units,
            longest: self.longest,
            moved: once_swept(self.sweep, end.moved),
            sweep: self.sweep,
        }
    }
}
