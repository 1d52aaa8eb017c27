//! Work ahead of new objects, where a plan is kept.
ghost use Rattle.std.specs.Prelude.{◌≡◌};
ghost use Rattle.metronome_c.specs.Asking.{told_by};
ghost use Rattle.metronome_c.specs.Opened.{held_in};
ghost use Rattle.metronome_c.specs.Preparing.{Prepares, not_prepared_status};

use crate::figures::{found_in, tell};
use crate::metronome::Metronome;
use crate::status::Status;
use heap_shared::NotPrepared;

/// Returns how many calls are left, or the status of why a member didn't prepare.
fn prepared(told: Result<u64, NotPrepared>) -> Result<u64, Status>
    ensures { result ≡ told_by not_prepared_status told }
{
    match told {
        Ok(left) => Ok(left),
        Err(NotPrepared::Outside) => Err(Status::Outside),
        Err(NotPrepared::NoPlan) => Err(Status::NoPlan),
        Err(NotPrepared::AbovePlan) => Err(Status::AbovePlan),
    }
}

/// Does at most one quantum of the plan's budget, or begins a cycle, ahead of new objects that take `words` words of blocks in all.
/// Stores in *left how many such calls are left at most. If that is 0, these objects cost no work until the program begins a cycle.
#[unsafe(no_mangle)]
pub extern "C" fn metronome_prepare(heap: &mut Metronome, words: u64, left: &mut u64) -> u32
    ensures { Prepares (held_in heap.old) words (held_in heap.new) (left.old, left.new) result }
{
    let found = heap.ask(
        |own| own.prepare(words),
        |member| prepared(member.prepare(words)),
    );
    tell(left, found_in(found))
}
