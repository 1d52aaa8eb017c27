//! Values that proofs alone read.
#![tactic(auto)]

ghost use Rattle.std.specs.Prelude.{◌≡◌};
ghost use Rattle.std.specs.Borrow.{ftrue};

use std::marker::{Model, PhantomData};

/// A value that only contracts read. It takes no memory, so it costs nothing at run time.
#[derive(Drop)]
pub struct Ghost<T> {
    of: PhantomData<T>,
    pub ghost value: { T },
}

impl<T> Model for Ghost<T> {
    ghost also_owns = { λ _. ftrue };
}

// SAFETY: it is no memory.
unsafe impl<T> Send for Ghost<T> {}

impl<T> Ghost<T> {
    /// Returns the value that the proof of the caller picks.
    #[inline(always)]
    pub fn new() -> Ghost<T>
        ghost value: { T }
        ensures { result.value ≡ value }
    {
        Ghost { of: PhantomData }
    }
}
