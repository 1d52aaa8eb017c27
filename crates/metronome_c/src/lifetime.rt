//! Heaps are made and given back.
ghost use Rattle.std.specs.Prelude.{◌≡◌, ◌≢◌};
ghost use Rattle.metronome_c.specs.declared.status.Status.TheVariants.{OtherVersion};
ghost use Rattle.metronome_c.specs.Opened.{held_in};
ghost use Rattle.metronome_c.specs.Lifetime.{IsOwnOf, Creates, Destroys};
ghost use Rattle.metronome_c.specs.Status.{status_number};

use crate::metronome::Metronome;
use crate::own_heap::OwnHeap;
use crate::status::Status;
use crate::text::VERSION;
use machine::Heap;
use paced::Cycles;
use size_classes::{Config, Settings};

/// Makes a heap of these settings, if the handle is closed and the program was built for this version. If it was built for
/// another one, only that version is read.
#[unsafe(no_mangle)]
pub extern "C" fn metronome_create_for(
    heap: &mut Metronome,
    settings: &Settings,
    version: u32,
) -> u32
    ensures same { version ≡ 3 → Creates IsOwnOf (held_in heap.old) settings.now (held_in heap.new) result }
    ensures other { version ≢ 3 → (held_in heap.new ≡ held_in heap.old) × (result ≡ status_number OtherVersion) }
{
    if version != VERSION {
        return Status::OtherVersion.number();
    }
    create(heap, settings)
}

/// Makes a heap of its own of these settings, if the handle is closed.
fn create(heap: &mut Metronome, settings: &Settings) -> u32
    ensures { Creates IsOwnOf (held_in heap.old) settings.now (held_in heap.new) result }
{
    if heap.is_open() {
        return Status::Open.number();
    }
    if !heap.is_closed() {
        return Status::BadHandle.number();
    }
    let config = match Config::check_for_library(settings) {
        Ok(config) => config,
        Err(fault) => return Status::of_fault(fault).number(),
    };
    let Ok(made) = Heap::new(heap.alloc, &config) else {
        return Status::NoMemory.number();
    };
    let own = OwnHeap {
        heap: made,
        config,
        pacer: None,
        cycles: Cycles::NONE,
    };
    match heap.hold_own(own) {
        Ok(()) => Status::Done.number(),
        Err(_) => Status::NoMemory.number(),
    }
}

/// Gives up the heap, or the member with its turn. The memory of a shared heap is given back with its last member. If the handle
/// holds nothing, nothing is done.
#[unsafe(no_mangle)]
pub extern "C" fn metronome_destroy(heap: &mut Metronome)
    ensures { Destroys (held_in heap.old) (held_in heap.new) }
{
    if heap.is_open() {
        heap.take().end();
    }
}
