//! The struct that C holds: a heap of its own, a member of a heap that threads share, or nothing.
ghost use Rattle.std.specs.Prelude.{◌≡◌, ◌==◌, Some, None, IsSome, MatchResult, Ok};
ghost use Rattle.std.specs.Option.{is_some};
ghost use Rattle.std.specs.Fn.{FnOnceReturnsAt, FnOnceReturnsAtMut};
ghost use Rattle.metronome_c.specs.declared.held.Held.TheVariants as holds;
ghost use Rattle.metronome_c.specs.declared.metronome.TheConstants.{OWN_CHECK_WORD, SHARED_CHECK_WORD};
ghost use Rattle.metronome_c.specs.Either.{AsksEither, Looks};
ghost use Rattle.metronome_c.specs.Either.{holds_own, holds_shared};

use crate::handle::{Handle, Loose};
use crate::held::Held;
use crate::own_heap::OwnHeap;
use crate::seated::Seated;
use crate::status::Status;
use graph_heap::NoMemory;
use heap_shared::Member;
use machine::Heap;
use std::alloc::{AllocFailed, Global};
use std::mem::replace;

/// The check word of a handle that holds a heap of its own. That of a closed one is 0, and a struct with any other word is no
/// handle, unless it is that of a member.
pub(crate) const OWN_CHECK_WORD: u64 = 5_567_949_226_808_069_965;

/// The check word of a handle that holds a member of a shared heap.
pub(crate) const SHARED_CHECK_WORD: u64 = 5_567_949_226_874_585_428;

/// A heap of its own, a member of a shared heap, or nothing, as C holds it. The check word tells which. All zeros hold nothing.
#[repr(C)]
#[derive(Drop)]
pub struct Metronome {
    pub handle: Handle,
    pub(crate) alloc: Global,
    pub check: u64,
    ghost own: { (check == OWN_CHECK_WORD) ≡ holds_own handle.value },
    ghost shared: { (check == SHARED_CHECK_WORD) ≡ holds_shared handle.value },
}

impl Metronome {
    ghost use Rattle.metronome_c.specs.Opened.{absence, held_in};

    /// Returns a struct that holds nothing.
    pub(crate) fn closed(alloc: Global) -> Metronome
        ensures value { result.handle.value ≡ None }
        ensures check { result.check ≡ 0 }
    {
        Metronome {
            handle: Handle::empty(alloc),
            alloc,
            check: 0,
        }
    }

    /// Returns whether it holds a heap of its own.
    #[inline(always)]
    pub(crate) fn is_own(&self) -> bool
        ensures { result ≡ holds_own self.now.handle.value }
    {
        self.check == OWN_CHECK_WORD
    }

    /// Returns whether it holds a member of a shared heap.
    #[inline(always)]
    pub(crate) fn is_shared(&self) -> bool
        ensures { result ≡ holds_shared self.now.handle.value }
    {
        self.check == SHARED_CHECK_WORD
    }

    /// Returns whether it holds either.
    #[inline(always)]
    pub(crate) fn is_open(&self) -> bool
        ensures { result ≡ is_some self.now.handle.value }
    {
        self.is_own() || self.is_shared()
    }

    /// Returns whether its check word is that of a closed handle.
    pub(crate) fn is_closed(&self) -> bool
        ensures { result ≡ (self.now.check == 0) }
    {
        self.check == 0
    }

    /// Returns why it holds nothing, if it holds nothing.
    pub(crate) fn why_empty(&self) -> Status
        ensures { result ≡ absence (self.now.check == 0) }
    {
        if self.check == 0 {
            Status::Closed
        } else {
            Status::BadHandle
        }
    }

    /// Holds this heap. If there is no memory for its box, nothing changes.
    pub(crate) fn hold_own(&mut self, own: OwnHeap) -> Result<(), NoMemory>
        ensures { MatchResult result (λ _. self.new.handle.value ≡ Some (holds.Own own)) (λ _. self.new ≡ self.old) }
    {
        let Ok(boxed) = Box::new(self.alloc, Held::Own(own)) else {
            return Err(NoMemory);
        };
        *self = Metronome {
            handle: Handle::shut(Loose::from_box(boxed)),
            alloc: self.alloc,
            check: OWN_CHECK_WORD,
        };
        Ok(())
    }

    /// Holds this member. If there is no memory for its box, the member comes back, and nothing changes.
    pub(crate) fn hold_shared(&mut self, member: Member) -> Result<(), Member>
        ensures { MatchResult result (λ _. self.new.handle.value ≡ Some (holds.Shared member))
            (λ back. (back ≡ member) × (self.new ≡ self.old)) }
    {
        let boxed = match Box::new(self.alloc, Held::Shared(Seated::new(member))) {
            Ok(boxed) => boxed,
            Err(AllocFailed { value }) => return Err(value.into_member()),
        };
        *self = Metronome {
            handle: Handle::shut(Loose::from_box(boxed)),
            alloc: self.alloc,
            check: SHARED_CHECK_WORD,
        };
        Ok(())
    }

    /// Returns its content. Nothing is left.
    pub(crate) fn take(&mut self) -> Held
        requires { IsSome self.old.handle.value }
        ensures value { self.old.handle.value ≡ Some result }
        ensures left { self.new.handle.value ≡ None }
        ensures check { self.new.check ≡ 0 }
    {
        let closed = Metronome::closed(self.alloc);
        let Metronome { handle, .. } = replace(self, closed);
        Box::into_inner(handle.open().into_box())
    }

    /// Asks the heap of its own, or the member, if there is either.
    #[inline(always)]
    pub(crate) fn ask<T, F: FnOnce(&mut OwnHeap) -> T + Drop, G: FnOnce(&mut Member) -> T + Drop>(
        &mut self,
        own: F,
        shared: G,
    ) -> Result<T, Status>
        requires own { F.IsAlwaysCallable own }
        requires shared { G.IsAlwaysCallable shared }
        ensures { AsksEither (FnOnceReturnsAtMut F.FnOnce own) (FnOnceReturnsAtMut G.FnOnce shared) (held_in self.old) result
            (held_in self.new) }
    {
        if self.is_own() {
            return match self.handle.lend() {
                Held::Own(heap) => Ok(own(heap)),
                Held::Shared(_) => unreachable!(),
            };
        }
        if !self.is_shared() {
            return Err(self.why_empty());
        }
        match self.handle.lend() {
            Held::Own(_) => unreachable!(),
            Held::Shared(seated) => Ok(shared(seated.member())),
        }
    }

    /// Looks at the heap, if it has the turn.
    pub(crate) fn inspect<T, F: FnOnce(&Heap) -> T + Drop>(&mut self, look: F) -> Result<T, Status>
        requires { F.IsAlwaysCallable look }
        ensures same { held_in self.new ≡ held_in self.old }
        ensures looks { Looks (FnOnceReturnsAt F.FnOnce look) (held_in self.old) result }
    {
        if self.is_own() {
            return match self.handle.lend() {
                Held::Own(own) => Ok(look(&own.heap)),
                Held::Shared(_) => unreachable!(),
            };
        }
        if !self.is_shared() {
            return Err(self.why_empty());
        }
        match self.handle.lend() {
            Held::Own(_) => unreachable!(),
            Held::Shared(seated) => match seated.member().inspect(look) {
                Some(found) => Ok(found),
                None => Err(Status::Outside),
            },
        }
    }
}
