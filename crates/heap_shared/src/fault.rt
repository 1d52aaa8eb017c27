//! The reasons why a member is refused.
use thiserror::Error;

/// A reason why a member doesn't get the turn.
#[derive(Clone, Copy, Debug, PartialEq, Eq, Error)]
pub enum NoTurn {
    /// Another member has it.
    #[error("the turn is taken")]
    Taken,
    /// The member has it already.
    #[error("inside a turn")]
    Inside,
}

/// A reason why a command isn't done.
#[derive(Clone, Copy, Debug, PartialEq, Eq, Error)]
pub enum NotDone {
    /// The member doesn't have the turn.
    #[error("outside a turn")]
    Outside,
    /// The mutator isn't one of the member's.
    #[error("not the member's mutator")]
    NotYours,
    /// The new object has more words than the heap's plan has for a whole cycle.
    #[error("object above the words of a cycle")]
    AbovePlan,
}

/// A reason why the collector doesn't work ahead.
#[derive(Clone, Copy, Debug, PartialEq, Eq, Error)]
pub enum NotPrepared {
    /// The member doesn't have the turn.
    #[error("outside a turn")]
    Outside,
    /// The heap keeps no plan.
    #[error("no plan")]
    NoPlan,
    /// The words are more than the heap's plan has for a whole cycle.
    #[error("words above those of a cycle")]
    AbovePlan,
}

/// A reason why there is no entry at a place.
#[derive(Clone, Copy, Debug, PartialEq, Eq, Error)]
pub enum NoEntry {
    /// The place is the one behind the last entry.
    #[error("not there yet")]
    NotYet,
    /// The entry there isn't one of the last, which the ring has room for.
    #[error("not kept")]
    Gone,
}

/// A reason why there is no other member.
#[derive(Clone, Copy, Debug, PartialEq, Eq, Error)]
pub enum NoMember {
    /// The member has the turn.
    #[error("inside a turn")]
    Inside,
    /// The mutators aren't the member's.
    #[error("not the member's mutators")]
    NotYours,
    /// Memory was refused.
    #[error("no memory")]
    NoMemory,
}
