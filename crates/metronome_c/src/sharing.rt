//! Shared heaps: they are made, with their members, which take turns. No call waits for a turn.
ghost use Rattle.std.specs.Prelude.{◌≡◌, ◌≢◌, Err, None};
ghost use Rattle.heap_shared.specs.Members.{Places};
ghost use Rattle.metronome_c.specs.declared.status.Status.TheVariants.{Inside, Closed, OtherVersion};
ghost use Rattle.metronome_c.specs.Asking.{told_or, told_by};
ghost use Rattle.metronome_c.specs.Lifetime.{Creates};
ghost use Rattle.metronome_c.specs.Opened.{held_in};
ghost use Rattle.metronome_c.specs.Status.{no_turn_status, status_number};
ghost use Rattle.metronome_c.specs.Sharing.{IsFirst, CreatesKept, EntersTurn, LeavesTurn, TellsShared, Sits, AddsTo, left_told};

use crate::figures::{found_in, found_or, tell};
use crate::held::Held;
use crate::metronome::Metronome;
use crate::planning::MetronomeFlow;
use crate::status::Status;
use crate::text::VERSION;
use heap_shared::{Member, NoMember, NoTurn, SharedConfig};
use paced::Plan;
use size_classes::{Config, Settings};

/// Makes a heap of these settings for threads to share, and its first member, which calls for all mutators. The heap keeps the
/// last `log` events. All memory for them is taken here. The handle and the version are as for `metronome_create_for`.
#[unsafe(no_mangle)]
pub extern "C" fn metronome_create_shared_for(
    heap: &mut Metronome,
    settings: &Settings,
    log: usize,
    version: u32,
) -> u32
    ensures same { version ≡ 3 → Creates (IsFirst log None) (held_in heap.old) settings.now (held_in heap.new) result }
    ensures other { version ≢ 3 → (held_in heap.new ≡ held_in heap.old) × (result ≡ status_number OtherVersion) }
{
    if version != VERSION {
        return Status::OtherVersion.number();
    }
    create_shared(heap, settings, log, None)
}

/// Does the same as `metronome_create_shared_for`, for a heap that keeps a plan.
#[unsafe(no_mangle)]
pub extern "C" fn metronome_create_shared_kept_for(
    heap: &mut Metronome,
    settings: &Settings,
    log: usize,
    flow: &MetronomeFlow,
    version: u32,
) -> u32
    ensures same { version ≡ 3 → CreatesKept log flow.now (held_in heap.old) settings.now (held_in heap.new) result }
    ensures other { version ≢ 3 → (held_in heap.new ≡ held_in heap.old) × (result ≡ status_number OtherVersion) }
{
    if version != VERSION {
        return Status::OtherVersion.number();
    }
    if !flow.suits_settings(settings) {
        return Status::NoPlan.number();
    }
    create_shared(heap, settings, log, Some(flow.plan()))
}

/// Makes a shared heap of these settings, and its first member, if the handle is closed. The heap keeps this plan, if one is
/// given. The caller must check that the plan fits.
fn create_shared(heap: &mut Metronome, settings: &Settings, log: usize, plan: Option<Plan>) -> u32
    ensures { Creates (IsFirst log plan) (held_in heap.old) settings.now (held_in heap.new) result }
{
    if heap.is_open() {
        return Status::Open.number();
    }
    if !heap.is_closed() {
        return Status::BadHandle.number();
    }
    let config = match Config::check_for_library(settings) {
        Ok(config) => config,
        Err(fault) => return Status::of_fault(fault).number(),
    };
    let asked = SharedConfig {
        config,
        ring: log,
        plan,
    };
    let Ok(made) = Member::with_ring(heap.alloc, &asked) else {
        return Status::NoMemory.number();
    };
    match heap.hold_shared(made) {
        Ok(()) => Status::Done.number(),
        Err(member) => {
            member.end();
            Status::NoMemory.number()
        }
    }
}

/// Makes another member of the same shared heap, for a closed handle. It calls for the mutators of the handle's member from a
/// number on, and that member keeps those below.
#[unsafe(no_mangle)]
pub extern "C" fn metronome_sit(heap: &mut Metronome, made: &mut Metronome, from: u32) -> u32
    ensures { Sits (held_in heap.old) (held_in made.old) from (held_in heap.new) (held_in made.new) result }
{
    if heap.is_own() {
        return Status::NotShared.number();
    }
    if !heap.is_shared() {
        return heap.why_empty().number();
    }
    if made.is_open() {
        return Status::Open.number();
    }
    if !made.is_closed() {
        return Status::BadHandle.number();
    }
    match heap.handle.lend() {
        Held::Own(_) => unreachable!(),
        Held::Shared(seated) => sit_at(seated.member(), made, from),
    }
}

/// Makes another member beside one, for a closed handle.
fn sit_at(member: &mut Member, made: &mut Metronome, from: u32) -> u32
    requires { held_in made.old ≡ Err Closed }
    ensures { AddsTo member.old from member.new (held_in made.new) result }
{
    let given = match member.another(from) {
        Ok(given) => given,
        Err(why) => return Status::of_no_member(why).number(),
    };
    match made.hold_shared(given) {
        Ok(()) => Status::Done.number(),
        Err(back) => {
            member.rejoin(back);
            Status::of_no_member(NoMember::NoMemory).number()
        }
    }
}

/// Returns the outcome of a call to take the turn.
fn entered(told: Result<(), NoTurn>) -> Result<(), Status>
    ensures { result ≡ told_by no_turn_status told }
{
    match told {
        Ok(()) => Ok(()),
        Err(why) => Err(Status::of_no_turn(why)),
    }
}

/// Returns the outcome of a call to give the turn back.
fn left(had: bool) -> Result<(), Status>
    ensures { result ≡ left_told had }
{
    if had { Ok(()) } else { Err(Status::Outside) }
}

/// Takes the turn, if no other handle has it.
#[unsafe(no_mangle)]
pub extern "C" fn metronome_enter(heap: &mut Metronome) -> u32
    ensures { EntersTurn (held_in heap.old) (held_in heap.new) result }
{
    let found = heap.ask(|_own| Err(Status::Inside), |member| entered(member.enter()));
    Status::of_outcome(found_in(found)).number()
}

/// Gives the turn back.
#[unsafe(no_mangle)]
pub extern "C" fn metronome_exit(heap: &mut Metronome) -> u32
    ensures { LeavesTurn (held_in heap.old) (held_in heap.new) result }
{
    let found = heap.ask(|_own| Err(Status::NotShared), |member| left(member.leave()));
    Status::of_outcome(found_in(found)).number()
}

/// Stores the length of the log of a shared heap, as it wraps at 2^63, while the handle doesn't have the turn.
#[unsafe(no_mangle)]
pub extern "C" fn metronome_place(heap: &mut Metronome, place: &mut u64) -> u32
    ensures { TellsShared Places (told_or Inside) (held_in heap.old) (held_in heap.new) (place.old, place.new) result }
{
    let found = heap.ask(
        |_own| Err(Status::NotShared),
        |member| found_or(member.place(), Status::Inside),
    );
    tell(place, found_in(found))
}
