//! The outcomes of calls, and their numbers.
ghost use Rattle.std.specs.Prelude.{◌≡◌};
ghost use Rattle.metronome_c.specs.Asking.{status_of};
ghost use Rattle.metronome_c.specs.Status as statuses;
ghost use Rattle.metronome_c.specs.Status.{status_number, status_numbered, fault_status};
ghost use Rattle.metronome_c.specs.Status.{no_turn_status, not_done_status, no_member_status};

use graph_heap::Refusal;
use heap_shared::{NoMember, NoTurn, NotDone};
use size_classes::{ConfigFault, Key};

/// How a call ends.
#[derive(Clone, Copy, Debug, PartialEq, Eq)]
pub enum Status {
    Done,
    Refused(Refusal),
    NoMemory,
    /// A cycle is running already.
    Busy,
    /// The budget of a quantum isn't `LEAST_BUDGET` to `MOST_BUDGET`.
    BudgetOutOfRange,
    /// The handle holds no heap.
    Closed,
    /// The handle holds a heap already.
    Open,
    /// `collector_ticks` times `rate` isn't `LEAST_BUDGET` to `MOST_BUDGET`.
    ScheduleOutOfRange,
    /// The value that was given as a handle is none: nothing ever closed it.
    BadHandle,
    SettingOutOfRange(Key),
    /// The program was built for another version of this interface.
    OtherVersion,
    /// Another handle has the turn.
    Taken,
    /// The handle has the turn already.
    Inside,
    /// The handle doesn't have the turn.
    Outside,
    /// The mutator is another handle's.
    NotYours,
    /// No plan fits in a heap of the settings, or in this heap as it is.
    NoPlan,
    /// The object has more words than the plan has for a whole cycle.
    AbovePlan,
    /// There is no such mutator. A call that checks a slot tells it apart from a slot that isn't there.
    NoMutator,
    /// All slots are used. No call returns it, but code over the calls does.
    SlotsUsed,
    /// The root is one of another mutator. No call returns it, but code over the calls does.
    OtherMutator,
    /// The call is for shared heaps, and this one isn't shared.
    NotShared,
    /// The call is for heaps that aren't shared, and this one is.
    IsShared,
    /// The call is for shared heaps at which no event was done yet.
    InUse,
}

/// Returns the place of a key among the settings, from 0.
fn key_number(key: Key) -> u32
    ensures { result ≡ statuses.key_number key }
{
    key as u32
}

impl Status {
    /// Those before the settings out of their ranges, in the order of their numbers.
    pub const BEFORE_SETTINGS: [Status; 18] = [
        Status::Done,
        Status::Refused(Refusal::BadSlot),
        Status::Refused(Refusal::NullSlot),
        Status::Refused(Refusal::BadIndex),
        Status::Refused(Refusal::WrongKind),
        Status::Refused(Refusal::TooLarge),
        Status::Refused(Refusal::IdentitiesSpent),
        Status::Refused(Refusal::NoSpace),
        Status::Refused(Refusal::BadStatic),
        Status::NoMemory,
        Status::Busy,
        Status::BudgetOutOfRange,
        Status::Refused(Refusal::NotLive),
        Status::Refused(Refusal::AlreadyLive),
        Status::Closed,
        Status::Open,
        Status::ScheduleOutOfRange,
        Status::BadHandle,
    ];

    /// Those behind the settings out of their ranges, in the order of their numbers.
    pub const BEHIND_SETTINGS: [Status; 13] = [
        Status::OtherVersion,
        Status::Taken,
        Status::Inside,
        Status::Outside,
        Status::NotYours,
        Status::NoPlan,
        Status::AbovePlan,
        Status::NoMutator,
        Status::SlotsUsed,
        Status::OtherMutator,
        Status::NotShared,
        Status::IsShared,
        Status::InUse,
    ];

    /// Returns the number by which C is told.
    pub fn number(self) -> u32
        ensures { result ≡ status_number self }
    {
        match self {
            Status::Done => 0,
            Status::Refused(refusal) => u32::from(refusal.number()),
            Status::NoMemory => 9,
            Status::Busy => 11,
            Status::BudgetOutOfRange => 12,
            Status::Closed => 16,
            Status::Open => 17,
            Status::ScheduleOutOfRange => 18,
            Status::BadHandle => 19,
            Status::SettingOutOfRange(key) => 20 + key_number(key),
            Status::OtherVersion => 40,
            Status::Taken => 41,
            Status::Inside => 42,
            Status::Outside => 43,
            Status::NotYours => 44,
            Status::NoPlan => 46,
            Status::AbovePlan => 47,
            Status::NoMutator => 48,
            Status::SlotsUsed => 49,
            Status::OtherMutator => 50,
            Status::NotShared => 51,
            Status::IsShared => 52,
            Status::InUse => 53,
        }
    }

    /// Returns the status of a number, if it is one of a status.
    pub fn numbered(number: u32) -> Option<Status>
        ensures { result ≡ status_numbered number }
    {
        let settings = Key::ALL.iter().map(|key| Status::SettingOutOfRange(*key));
        Status::BEFORE_SETTINGS
            .iter()
            .copied()
            .chain(settings)
            .chain(Status::BEHIND_SETTINGS.iter().copied())
            .find(|status| status.number() == number)
    }

    /// Returns the status of success, or why there is none.
    pub(crate) fn of_outcome(outcome: Result<(), Status>) -> Status
        ensures { result ≡ status_of outcome }
    {
        match outcome {
            Ok(()) => Status::Done,
            Err(why) => why,
        }
    }

    /// Returns the status of a fault of a configuration.
    pub fn of_fault(fault: ConfigFault) -> Status
        ensures { result ≡ fault_status fault }
    {
        match fault {
            ConfigFault::OutOfRange(key) => Status::SettingOutOfRange(key),
            _ => Status::ScheduleOutOfRange,
        }
    }

    /// Returns the status of why a member doesn't get the turn.
    pub fn of_no_turn(why: NoTurn) -> Status
        ensures { result ≡ no_turn_status why }
    {
        match why {
            NoTurn::Taken => Status::Taken,
            NoTurn::Inside => Status::Inside,
        }
    }

    /// Returns the status of why a member's command isn't done.
    pub fn of_not_done(why: NotDone) -> Status
        ensures { result ≡ not_done_status why }
    {
        match why {
            NotDone::Outside => Status::Outside,
            NotDone::NotYours => Status::NotYours,
            NotDone::AbovePlan => Status::AbovePlan,
        }
    }

    /// Returns the status of why there is no other member.
    pub fn of_no_member(why: NoMember) -> Status
        ensures { result ≡ no_member_status why }
    {
        match why {
            NoMember::Inside => Status::Inside,
            NoMember::NotYours => Status::NotYours,
            NoMember::NoMemory => Status::NoMemory,
        }
    }

    /// Returns the text for a user.
    pub fn text(self) -> &'static str
        ensures { result.now ≡ statuses.status_text self }
    {
        match self {
            Status::Done => "done",
            Status::Refused(Refusal::BadSlot) => "no such mutator or slot",
            Status::Refused(Refusal::NullSlot) => "the slot holds null",
            Status::Refused(Refusal::BadIndex) => "no such cell",
            Status::Refused(Refusal::WrongKind) => "the object has no such cells",
            Status::Refused(Refusal::TooLarge) => "too large an object, or too many cells",
            Status::Refused(Refusal::IdentitiesSpent) => "all identities are spent",
            Status::Refused(Refusal::NoSpace) => "no space",
            Status::Refused(Refusal::BadStatic) => "no such static",
            Status::Refused(Refusal::NotLive) => "the mutator isn't live",
            Status::Refused(Refusal::AlreadyLive) => "the mutator is live already",
            Status::NoMemory => "no memory",
            Status::Busy => "a cycle is on already",
            Status::BudgetOutOfRange => "the budget is out of range",
            Status::Closed => "the heap is closed",
            Status::Open => "the heap is open already",
            Status::ScheduleOutOfRange => "collector_ticks times rate is out of range",
            Status::BadHandle => "this is no handle",
            Status::SettingOutOfRange(key) => setting_text(key),
            Status::OtherVersion => "the program was built for another version",
            Status::Taken => "another handle has the turn",
            Status::Inside => "the handle has the turn",
            Status::Outside => "the handle doesn't have the turn",
            Status::NotYours => "the mutator is another handle's",
            Status::NoPlan => "no plan fits",
            Status::AbovePlan => "the object is above the plan",
            Status::NoMutator => "no such mutator",
            Status::SlotsUsed => "all slots are used",
            Status::OtherMutator => "the root is another mutator's",
            Status::NotShared => "the heap isn't shared",
            Status::IsShared => "the heap is shared",
            Status::InUse => "the heap is in use",
        }
    }
}

/// Returns the text for a setting that is out of its range.
fn setting_text(key: Key) -> &'static str
    ensures { result.now ≡ statuses.setting_text key }
{
    match key {
        Key::Pages => "pages is out of range",
        Key::Mutators => "mutators is out of range",
        Key::Slots => "slots is out of range",
        Key::Statics => "statics is out of range",
        Key::Identities => "identities is out of range",
        Key::DefragBelow => "defrag_below is out of range",
        Key::DefragPages => "defrag_pages is out of range",
        Key::CollectorTicks => "collector_ticks is out of range",
        Key::MutatorTicks => "mutator_ticks is out of range",
        Key::Rate => "rate is out of range",
        Key::Live => "live is out of range",
    }
}
