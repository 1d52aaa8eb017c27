//! The bytes that went through a reader or a writer, for proofs alone.
ghost use Rattle.std.specs.Prelude.{◌≡◌, ℕ, ◌+◌, List, [], ◌++◌};
ghost use Rattle.std.specs.Borrow.{ftrue};

use std::marker::{Model, PhantomData};

/// The bytes that went through so far, and how many calls failed. It takes no memory, and its methods do nothing:
/// only contracts read it.
#[derive(Drop)]
pub struct Transcript {
    marker: PhantomData<u8>,
    pub ghost bytes: { List ℕ },
    pub ghost failures: { ℕ },
}

impl Model for Transcript {
    ghost also_owns = { λ _. ftrue };
}

impl Transcript {
    /// Returns a transcript of nothing.
    pub(crate) fn new() -> Transcript
        ensures { (result.bytes ≡ []) × (result.failures ≡ 0) }
    {
        Transcript {
            marker: PhantomData,
        }
    }

    /// Notes that these bytes went through.
    pub(crate) fn note(&mut self, _bytes: &[u8])
        ensures { (self.new.bytes ≡ self.old.bytes ++ _bytes.now) × (self.new.failures ≡ self.old.failures) }
    {}

    /// Notes that a call failed.
    pub(crate) fn note_failure(&mut self)
        ensures { (self.new.bytes ≡ self.old.bytes) × (self.new.failures ≡ self.old.failures + 1) }
    {}
}
