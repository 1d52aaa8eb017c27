//! Says why a command that names a slot is refused as one that names no slot.
ghost use Rattle.std.specs.Prelude.{◌≡◌};
ghost use Rattle.graph_heap.specs.Graph.{Graph};
ghost use Rattle.heap_model.specs.Agreement.{Agrees};
ghost use Rattle.metronome_c.specs.Checking as checking;
ghost use Rattle.metronome_c.specs.Checking.{reply_status, slot_status, ChecksSlot};
ghost use Rattle.metronome_c.specs.Opened.{held_in};

use crate::metronome::Metronome;
use crate::status::Status;
use graph_heap::{Command, Refusal, Reply};
use machine::Heap;

/// Returns the status of a slot of a mutator: that with which its clearing would be refused. If there is no such mutator, the
/// status says so: to join is then refused as of a slot that isn't there, though it names none.
fn status_of_slot(heap: &Heap, mutator: u32, slot: u32) -> Status
    ensures { (g : Graph) → Agrees heap.now g → result ≡ slot_status heap.now g mutator slot }
{
    if is_bad_slot(heap.answer(mutator, &Command::Join)) {
        return Status::NoMutator;
    }
    status_of_reply(heap.answer(mutator, &Command::Clear { dst: slot }))
}

/// Returns whether a command is refused because there is no such mutator or slot.
fn is_bad_slot(reply: Reply) -> bool
    ensures { result ≡ checking.is_bad_slot reply }
{
    matches!(reply, Reply::Refused(Refusal::BadSlot))
}

/// Returns the status of a reply.
fn status_of_reply(reply: Reply) -> Status
    ensures { result ≡ reply_status reply }
{
    match reply {
        Reply::Refused(refusal) => Status::Refused(refusal),
        _ => Status::Done,
    }
}

/// Returns whether a mutator is there and live, and has a slot of this number. Nothing is done.
#[unsafe(no_mangle)]
pub extern "C" fn metronome_check_slot(heap: &mut Metronome, mutator: u32, slot: u32) -> u32
    ensures { ChecksSlot (held_in heap.old) mutator slot (held_in heap.new) result }
{
    let status = match heap.inspect(|inner| status_of_slot(inner, mutator, slot)) {
        Ok(status) => status,
        Err(why) => why,
    };
    status.number()
}
