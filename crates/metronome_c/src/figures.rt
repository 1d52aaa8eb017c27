//! Figures of a heap as a whole.
ghost use Rattle.std.specs.Prelude.{◌≡◌, ◌≤◌};
ghost use Rattle.heap_model.specs.Pages as pages;
ghost use Rattle.metronome_c.specs.Collecting as collecting;
ghost use Rattle.heap_model.specs.Spent.{cycle_limit};
ghost use Rattle.metronome_c.specs.Opened.{held_in};
ghost use Rattle.metronome_c.specs.Asking.{told_or};
ghost use Rattle.metronome_c.specs.Either.{ShowsHeap, flat};
ghost use Rattle.metronome_c.specs.Figures.{IsTold, Tells, TellsFound, RepresentsSome, counts_of, last_ended};

use crate::metronome::Metronome;
use crate::phase::phase_number;
use crate::status::Status;
use machine::Heap;
use paced::Cycle;

/// The counts of a heap: its pages, its root cells, and the objects that it holds.
#[repr(C)]
#[derive(Clone, Copy, Debug, PartialEq, Eq)]
pub struct Counts {
    pub pages: u64,
    pub free_pages: u64,
    pub root_cells: u64,
    /// Root cells that aren't null.
    pub roots_used: u64,
    pub objects: u64,
    /// Parts of objects, by their main copies.
    pub parts: u64,
    /// Copies that forward to another one.
    pub old_copies: u64,
}

impl Counts {
    /// Returns the counts of a heap. It looks at each block.
    pub(crate) fn from_heap(heap: &Heap) -> Counts
        ensures { result ≡ counts_of heap.now }
    {
        let copies = heap.copies();
        Counts {
            pages: heap.pages() as u64,
            free_pages: heap.free_pages() as u64,
            root_cells: heap.root_cells() as u64,
            roots_used: heap.roots_used() as u64,
            objects: copies.objects as u64,
            parts: copies.parts as u64,
            old_copies: copies.old as u64,
        }
    }
}

/// Stores what was found of a heap, or returns why there is none.
pub(crate) fn tell<T: Copy>(told: &mut T, found: Result<T, Status>) -> u32
    ensures { IsTold found told.old told.new result }
{
    match found {
        Ok(value) => {
            *told = value;
            Status::Done.number()
        }
        Err(why) => why.number(),
    }
}

/// Returns the answer of a heap, or why none was asked.
pub(crate) fn found_in<T>(answer: Result<Result<T, Status>, Status>) -> Result<T, Status>
    ensures { result ≡ flat answer }
{
    match answer {
        Ok(found) => found,
        Err(why) => Err(why),
    }
}

/// Returns what was found, or else this status.
pub(crate) fn found_or<T: Drop>(found: Option<T>, why: Status) -> Result<T, Status>
    ensures { result ≡ told_or why found }
{
    match found {
        Some(value) => Ok(value),
        None => Err(why),
    }
}

/// Stores the phase. A heap always represents some graph heap at present, and one when the last cycle began.
#[unsafe(no_mangle)]
pub extern "C" fn metronome_phase(heap: &mut Metronome, phase: &mut u32) -> u32
    ensures phase { Tells (λ h. collecting.phase_number h.phase) (held_in heap.old) (held_in heap.new) (phase.old, phase.new) result }
    ensures represents { ShowsHeap RepresentsSome (held_in heap.old) }
{
    tell(phase, heap.inspect(|inner| phase_number(inner.phase())))
}

/// Stores the units that were spent since the last cycle began: no more than a cycle may spend.
#[unsafe(no_mangle)]
pub extern "C" fn metronome_units(heap: &mut Metronome, units: &mut u64) -> u32
    ensures units { Tells (λ h. h.units) (held_in heap.old) (held_in heap.new) (units.old, units.new) result }
    ensures within { ShowsHeap (λ h. h.units ≤ cycle_limit h) (held_in heap.old) }
{
    tell(units, heap.inspect(|inner| inner.units()))
}

/// Stores how many pages are free.
#[unsafe(no_mangle)]
pub extern "C" fn metronome_free_pages(heap: &mut Metronome, free_pages: &mut u64) -> u32
    ensures { Tells (λ h. pages.free_pages h.store.pages) (held_in heap.old) (held_in heap.new)
        (free_pages.old, free_pages.new) result }
{
    tell(free_pages, heap.inspect(|inner| inner.free_pages() as u64))
}

/// Stores the counts. It looks at each block.
#[unsafe(no_mangle)]
pub extern "C" fn metronome_count(heap: &mut Metronome, counts: &mut Counts) -> u32
    ensures { Tells counts_of (held_in heap.old) (held_in heap.new) (counts.old, counts.new) result }
{
    tell(counts, heap.inspect(|inner| Counts::from_heap(inner)))
}

/// Stores the last cycle that ended.
#[unsafe(no_mangle)]
pub extern "C" fn metronome_last_cycle(heap: &mut Metronome, cycle: &mut Cycle) -> u32
    ensures { TellsFound last_ended (held_in heap.old) (held_in heap.new) (cycle.old, cycle.new) result }
{
    let found = heap.ask(
        |own| Ok(own.cycles.ended),
        |member| found_or(member.last_cycle(), Status::Outside),
    );
    tell(cycle, found_in(found))
}
