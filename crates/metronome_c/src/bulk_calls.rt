//! Calls that do a list of commands, one after the other.
ghost use Rattle.std.specs.Prelude.{◌≡◌, ◌+◌, ◌<◌, ◌≤◌, length};
ghost use Rattle.graph_heap.specs.declared.command.TheConstants.{PLAIN_CELLS as most_cells};
ghost use Rattle.graph_heap.specs.declared.command.Shape.TheVariants as shapes;
ghost use Rattle.paced.specs.Pacing.{shape_words};
ghost use Rattle.bulk.specs.Lists.{clears, moves, gets, puts, copies, makes};
ghost use Rattle.metronome_c.specs.BulkCalls.{progress_told, too_many, DoesEach, MakesEach, ReadsEach, ReadsWords};
ghost use Rattle.metronome_c.specs.Opened.{held_in};

use crate::figures::found_in;
use crate::held::Held;
use crate::metronome::Metronome;
use crate::replying::told;
use crate::status::Status;
use bulk::Progress;
use graph_heap::{PLAIN_CELLS, Refusal, Shape};

/// How far a list of commands was done: the number of commands that were done, and the status of the next one, which was
/// refused. If all were done, it is the status of success.
#[repr(C)]
#[derive(Clone, Copy, Debug, PartialEq, Eq)]
pub struct MetronomeProgress {
    pub done: u32,
    pub status: u32,
}

impl MetronomeProgress {
    /// Returns how far a list was done, or why none of it was, as C sees it.
    #[inline(always)]
    pub(crate) fn from_outcome(progress: Result<Progress, Status>) -> MetronomeProgress
        ensures { result ≡ progress_told progress }
    {
        let (done, status) = match progress {
            Ok(Progress { done, refused }) => match refused {
                Some(refusal) => (done, Status::Refused(refusal)),
                None => (done, Status::Done),
            },
            Err(why) => (0, why),
        };
        MetronomeProgress {
            done,
            status: status.number(),
        }
    }

    /// Returns the answer to a call that names more than 252 cells.
    #[cold]
    fn too_many() -> MetronomeProgress
        ensures { result ≡ too_many }
    {
        MetronomeProgress::from_outcome(Err(Status::Refused(Refusal::TooLarge)))
    }
}

/// Sets each of `count` slots to null, from the first on.
#[unsafe(no_mangle)]
pub extern "C" fn metronome_clear_slots(
    heap: &mut Metronome,
    mutator: u32,
    first: u32,
    count: u32,
) -> MetronomeProgress
    ensures { DoesEach (held_in heap.old) mutator (clears first count) (held_in heap.new) result }
{
    MetronomeProgress::from_outcome(found_in(heap.ask(
        |own| own.clear_slots(mutator, first, count),
        |member| told(member.clear_slots(mutator, first, count)),
    )))
}

/// Copies slot src to slot dst, and then sets src to null, unless it is dst.
#[unsafe(no_mangle)]
pub extern "C" fn metronome_move(
    heap: &mut Metronome,
    mutator: u32,
    dst: u32,
    src: u32,
) -> MetronomeProgress
    ensures { DoesEach (held_in heap.old) mutator (moves dst src) (held_in heap.new) result }
{
    MetronomeProgress::from_outcome(found_in(heap.ask(
        |own| own.move_slot(mutator, dst, src),
        |member| told(member.move_slot(mutator, dst, src)),
    )))
}

/// Writes at most 252 words into as many word cells of an object, from the first on. If there are more, none is written.
#[unsafe(no_mangle)]
pub extern "C" fn metronome_put_words_from(
    heap: &mut Metronome,
    mutator: u32,
    obj: u32,
    first: u32,
    words: &[u64],
) -> MetronomeProgress
    ensures few { length words.now ≤ most_cells
        → DoesEach (held_in heap.old) mutator (puts obj first words.now) (held_in heap.new) result }
    ensures many { most_cells < length words.now → (held_in heap.new ≡ held_in heap.old) × (result ≡ too_many) }
{
    if words.len() > PLAIN_CELLS as usize {
        return MetronomeProgress::too_many();
    }
    MetronomeProgress::from_outcome(found_in(heap.ask(
        |own| own.put_words(mutator, obj, first, words),
        |member| told(member.put_words(mutator, obj, first, words)),
    )))
}

/// Reads as many word cells of an object as there is room for, at most 252, from the first on. If there is room for more, none
/// is read.
#[unsafe(no_mangle)]
pub extern "C" fn metronome_get_words_into(
    heap: &mut Metronome,
    mutator: u32,
    obj: u32,
    first: u32,
    words: &mut [u64],
) -> MetronomeProgress
    ensures few { length words.old ≤ most_cells → ReadsEach (held_in heap.old) mutator
        (gets obj first (length words.old)) (held_in heap.new) (words.old, words.new) result }
    ensures many { most_cells < length words.old
        → (held_in heap.new ≡ held_in heap.old) × (words.new ≡ words.old) × (result ≡ too_many) }
{
    let room = words.len();
    if room > PLAIN_CELLS as usize {
        return MetronomeProgress::too_many();
    }
    MetronomeProgress::from_outcome(heap.read_words(mutator, obj, first, words))
}

/// Copies at most 252 reference cells of an object, from the first on, to as many of another one or of the same. Each is loaded
/// into slot `through`, and stored from there. If there are more, none is copied.
#[unsafe(no_mangle)]
pub extern "C" fn metronome_copy_refs(
    heap: &mut Metronome,
    mutator: u32,
    through: u32,
    from: u32,
    from_first: u32,
    to: u32,
    to_first: u32,
    count: u32,
) -> MetronomeProgress
    ensures few { count ≤ most_cells → DoesEach (held_in heap.old) mutator
        (copies through from from_first to to_first count) (held_in heap.new) result }
    ensures many { most_cells < count → (held_in heap.new ≡ held_in heap.old) × (result ≡ too_many) }
{
    if count > PLAIN_CELLS {
        return MetronomeProgress::too_many();
    }
    MetronomeProgress::from_outcome(found_in(heap.ask(
        |own| own.copy_refs(mutator, through, from, from_first, to, to_first, count),
        |member| told(member.copy_refs(mutator, through, from, from_first, to, to_first, count)),
    )))
}

/// Makes an object of reference cells and word cells in slot dst. Then it stores what slots hold in its first reference cells,
/// and words in its first word cells, at most 252 together. If there are more, nothing is done.
#[unsafe(no_mangle)]
pub extern "C" fn metronome_new_from(
    heap: &mut Metronome,
    mutator: u32,
    dst: u32,
    refs: u32,
    words: u32,
    slots: &[u32],
    contents: &[u64],
) -> MetronomeProgress
    ensures few { length slots.now + length contents.now ≤ most_cells
        → MakesEach (held_in heap.old) (shape_words (shapes.Plain refs words)) mutator
        (makes dst (shapes.Plain refs words) slots.now contents.now) (held_in heap.new) result }
    ensures many { most_cells < length slots.now + length contents.now
        → (held_in heap.new ≡ held_in heap.old) × (result ≡ too_many) }
{
    let most = PLAIN_CELLS as usize;
    if slots.len() > most || contents.len() > most - slots.len() {
        return MetronomeProgress::too_many();
    }
    let shape = Shape::Plain { refs, words };
    MetronomeProgress::from_outcome(found_in(heap.ask(
        |own| own.new_with(mutator, dst, shape, slots, contents),
        |member| told(member.new_with(mutator, dst, shape, slots, contents)),
    )))
}

impl Metronome {
    /// Reads words of an object of the heap, if there is one, as `bulk::get_words` does.
    #[inline(always)]
    fn read_words(
        &mut self,
        mutator: u32,
        obj: u32,
        first: u32,
        words: &mut [u64],
    ) -> Result<Progress, Status>
        requires { length words.old ≤ most_cells }
        ensures { ReadsWords (held_in self.old) mutator (gets obj first (length words.old)) (held_in self.new)
            (words.old, words.new) result }
    {
        if self.is_own() {
            return match self.handle.lend() {
                Held::Own(own) => Ok(bulk::get_words(&mut own.heap, mutator, obj, first, words)),
                Held::Shared(_) => unreachable!(),
            };
        }
        if !self.is_shared() {
            return Err(self.why_empty());
        }
        match self.handle.lend() {
            Held::Own(_) => unreachable!(),
            Held::Shared(seated) => told(seated.member().get_words(mutator, obj, first, words)),
        }
    }
}
