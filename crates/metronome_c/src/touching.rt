//! Pages are touched before they are used.
ghost use Rattle.std.specs.Prelude.{◌≡◌};
ghost use Rattle.metronome_c.specs.Opened.{held_in};
ghost use Rattle.metronome_c.specs.Touching.{Touches, touched_told};

use crate::figures::found_in;
use crate::metronome::Metronome;
use crate::status::Status;

/// Returns the outcome of a member's call to touch pages.
fn touched(told: Option<bool>) -> Result<(), Status>
    ensures { result ≡ touched_told told }
{
    match told {
        Some(true) => Ok(()),
        Some(false) => Err(Status::InUse),
        None => Err(Status::Outside),
    }
}

/// Touches the first pages, this many or all. Pages of a shared heap are touched before its first event alone.
#[unsafe(no_mangle)]
pub extern "C" fn metronome_touch(heap: &mut Metronome, pages: usize) -> u32
    ensures { Touches (held_in heap.old) pages (held_in heap.new) result }
{
    let found = heap.ask(
        |own| own.touch(pages),
        |member| touched(member.touch(pages)),
    );
    Status::of_outcome(found_in(found)).number()
}
