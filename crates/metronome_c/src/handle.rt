//! The handle of a heap, which C holds.
ghost use Rattle.std.specs.Prelude.{◌≡◌, Option, Some, None, IsSome};
ghost use Rattle.std.specs.Coded.{coded_option};
ghost use Rattle.std.specs.Borrow.{sem};
ghost use Rattle.std.specs.Box.Ownership.{box_owns};
ghost use Rattle.metronome_c.specs.contracts.held.Held.{the_row};
ghost use Rattle.metronome_c.specs.Kept.{kept};

use crate::held::Held;
use std::alloc::{Allocator, Global};
use std::marker::Model;

/// A box as its pointer.
pub(crate) struct Loose<T, A: Allocator> {
    pub(crate) at: *mut T,
    pub(crate) alloc: A,
    pub(crate) ghost value: { T },
}

impl<T, A: Allocator> Model for Loose<T, A> {
    ghost also_owns = { λ l. box_owns (A.dealloc_token l.alloc) T.row l.at l.value };
}

impl<T: Drop, A: Allocator> Loose<T, A> {
    /// Returns a box as its pointer.
    pub(crate) fn from_box(value: Box<T, A>) -> Loose<T, A>
        ensures { result.value ≡ value.value }
    {
        let (at, alloc) = Box::into_raw_with_allocator(value);
        Loose { at, alloc }
    }

    /// Returns the box again.
    pub(crate) fn into_box(self) -> Box<T, A>
        ensures { result.value ≡ self.value }
    {
        let Loose { at, alloc } = self;
        unsafe { Box::from_raw(alloc, at) }
    }
}

/// A heap as C holds it: a pointer to a box that is owned, or nothing.
#[repr(C)]
#[derive(Drop)]
pub struct Handle {
    at: *mut u8,
    alloc: Global,
    pub ghost value: { Option (the_row.Denot) } by { coded_option the_row.coded },
}

impl Model for Handle {
    ghost also_owns = { λ h. kept h.alloc h.at h.value };
}

// SAFETY: a handle owns the box of its heap, which any thread may give back, and a heap may go to another thread.
unsafe impl Send for Handle {}

impl Handle {
    ghost use Rattle.metronome_c.specs.Lending.{LendsHeap};

    /// Returns a handle that holds no heap.
    pub(crate) fn empty(alloc: Global) -> Handle
        ensures { result.value ≡ None }
    {
        Handle {
            at: std::ptr::null_mut(),
            alloc,
        }
    }

    /// Returns a handle that holds this heap.
    pub(crate) fn shut(value: Loose<Held, Global>) -> Handle
        ensures { result.value ≡ Some value.value }
    {
        let Loose { at, alloc } = value;
        Handle {
            at: at as *mut u8,
            alloc,
        }
    }

    /// Returns the heap.
    pub(crate) fn open(self) -> Loose<Held, Global>
        requires { IsSome self.value }
        ensures { self.value ≡ Some result.value }
    {
        let Handle { at, alloc } = self;
        Loose {
            at: at as *mut Held,
            alloc,
        }
    }

    /// Lends the heap where it is. It is held again once the borrow ends.
    #[inline(always)]
    pub(crate) fn lend(&mut self) -> &mut Held
        requires { IsSome self.old.value }
        ensures* writes_back { sem 𝓛 (LendsHeap self.entry result) }
        ensures value { self.old.value ≡ Some result.now }
    {
        unsafe { &mut *(self.at as *mut Held) }
    }
}
