//! A member of a shared heap, as the box of a handle has it.
ghost use Rattle.std.specs.Prelude.{◌≡◌};
ghost use Rattle.std.specs.Borrow.{sem};

use heap_shared::Member;
use std::marker::Model;
use std::mem::ManuallyDrop;

/// A member in a box. A box becomes a pointer only if its value may be dropped, and a member may not. So this holds one that
/// `into_member` gives back, and nothing drops it.
#[derive(Drop)]
pub struct Seated {
    member: ManuallyDrop<Member>,
}

impl Model for Seated {
    ghost use Rattle.heap_shared.specs.Members.{MemberView};
    ghost use Rattle.std.specs.Mem.{manually_drop_value};

    ghost Value = { MemberView };

    ghost view = { λ s. manually_drop_value s.member };
}

impl Seated {
    ghost use Rattle.metronome_c.specs.Lending.{LendsMember};

    /// Returns a box's content that holds this member.
    pub(crate) fn new(member: Member) -> Seated
        ensures { result ≡ member }
    {
        // SAFETY: the member is given back by `into_member`.
        let member = unsafe { ManuallyDrop::new_unchecked(member) };
        Seated { member }
    }

    /// Returns the member.
    pub(crate) fn into_member(self) -> Member
        ensures { result ≡ self }
    {
        let Seated { member } = self;
        ManuallyDrop::into_inner(member)
    }

    /// Lends the member where it is.
    #[inline(always)]
    pub(crate) fn member(&mut self) -> &mut Member
        ensures* writes_back { sem 𝓛 (LendsMember self.entry result) }
        ensures value { result.now ≡ self.old }
    {
        let kept = &mut self.member;
        &mut *kept
    }
}
