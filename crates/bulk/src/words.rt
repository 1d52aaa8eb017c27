//! Reads and writes words of an object in a row.
ghost use Rattle.std.specs.Prelude.{◌≡◌, ◌≤◌, length, take, drop};
ghost use Rattle.bulk.specs.InOrder.{DoesFrontBy, DoesWithBy, words_told};
ghost use Rattle.bulk.specs.Lists.{gets, puts};

use crate::commands::Commands;
use crate::progress::{Progress, refusal_in};
use graph_heap::PLAIN_CELLS;

/// Reads word cells of the object in slot obj, from the first on, until the slice is full: at most 252. The progress
/// counts the words read. They stand at the front of the slice, and the rest of it stays. The first cell that the object
/// doesn't have is refused as BadIndex. A number of 2^32 or more counts as 2^32 - 1, which no cell has.
pub fn get_words<H: Commands>(
    heap: &mut H,
    mutator: u32,
    obj: u32,
    first: u32,
    words: &mut [u64],
) -> Progress
    requires { length words.old ≤ PLAIN_CELLS }
    ensures reads { DoesWithBy (H.does mutator) heap.old (gets obj first (length words.old))
        (words_told (take result.done words.new)) result heap.new }
    ensures rest { drop result.done words.new ≡ drop result.done words.old }
{
    let room = words.len() as u32;
    let mut done = 0;
    while done < room {
        let rest = &mut words[done as usize..];
        match heap.get_run(mutator, obj, first.saturating_add(done), rest) {
            Ok(count) => done += count,
            Err(refusal) => return Progress::stopped(done, refusal),
        }
    }
    Progress::whole(room)
}

/// Writes at most 252 words into as many word cells of the object in slot obj, from the first on. The progress counts the
/// words written. The first cell that the object doesn't have is refused as BadIndex. A number of 2^32 or more counts as
/// 2^32 - 1, which no cell has.
#[inline(always)]
pub fn put_words<H: Commands>(
    heap: &mut H,
    mutator: u32,
    obj: u32,
    first: u32,
    words: &[u64],
) -> Progress
    requires { length words.now ≤ PLAIN_CELLS }
    ensures { DoesFrontBy (H.does mutator) heap.old (puts obj first words.now) result heap.new }
{
    let count = words.len() as u32;
    let mut done = 0;
    while done < count {
        let rest = &words[done as usize..];
        match heap.put_run(mutator, obj, first.saturating_add(done), rest) {
            Ok(more) => done += more,
            Err(why) => return Progress::stopped(done, why),
        }
    }
    Progress::whole(count)
}

/// Writes words by single commands. For one or two words that takes less than a run.
#[inline(always)]
pub(crate) fn put_each<H: Commands>(
    heap: &mut H,
    mutator: u32,
    obj: u32,
    first: u32,
    words: &[u64],
) -> Progress
    requires { length words.now ≤ PLAIN_CELLS }
    ensures { DoesFrontBy (H.does mutator) heap.old (puts obj first words.now) result heap.new }
{
    let count = words.len() as u32;
    for i in 0..count {
        let word = words[i as usize];
        if let Some(refusal) = refusal_in(heap.put(mutator, obj, first.saturating_add(i), word)) {
            return Progress::stopped(i, refusal);
        }
    }
    Progress::whole(count)
}

/// Writes the first words of a new object, by single commands or by runs, whichever takes less.
#[inline(always)]
pub(crate) fn fill_words<H: Commands>(
    heap: &mut H,
    mutator: u32,
    obj: u32,
    words: &[u64],
) -> Progress
    requires { length words.now ≤ PLAIN_CELLS }
    ensures { DoesFrontBy (H.does mutator) heap.old (puts obj 0 words.now) result heap.new }
{
    if words.len() < 3 {
        return put_each(heap, mutator, obj, 0, words);
    }
    put_many(heap, mutator, obj, words)
}

/// Writes the first words of a new object by runs.
#[inline(never)]
fn put_many<H: Commands>(heap: &mut H, mutator: u32, obj: u32, words: &[u64]) -> Progress
    requires { length words.now ≤ PLAIN_CELLS }
    ensures { DoesFrontBy (H.does mutator) heap.old (puts obj 0 words.now) result heap.new }
{
    put_words(heap, mutator, obj, 0, words)
}
