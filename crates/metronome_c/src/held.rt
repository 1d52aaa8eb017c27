//! The content of a handle's box.
ghost use Rattle.std.specs.Prelude.{◌≡◌, Some, true};
ghost use Rattle.metronome_c.specs.declared.held.Held.TheVariants as holds;
ghost use Rattle.metronome_c.specs.Either.{holds_shared};

use crate::own_heap::OwnHeap;
use crate::seated::Seated;
use heap_shared::Member;

/// A heap of its own, or a member of a heap that threads share.
pub enum Held {
    Own(OwnHeap),
    Shared(Seated),
}

impl Drop for Held {
    fn drop(self) {
        match self {
            Held::Own(_own) => {}
            Held::Shared(_seated) => {}
        }
    }
}

impl Held {
    /// Returns the member that it holds.
    pub(crate) fn into_member(self) -> Member
        requires { holds_shared (Some self) ≡ true }
        ensures { self ≡ holds.Shared result }
    {
        match self {
            Held::Shared(seated) => seated.into_member(),
            Held::Own(_) => unreachable!(),
        }
    }

    /// Gives up a heap of its own, or a member. A member gives its turn back first, if it has it: one that has the turn can't be
    /// given up. The memory of a shared heap goes with its last member.
    pub(crate) fn end(self) {
        match self {
            Held::Own(_own) => {}
            Held::Shared(seated) => {
                let mut member = seated.into_member();
                member.leave();
                member.end();
            }
        }
    }
}
