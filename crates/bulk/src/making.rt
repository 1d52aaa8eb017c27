//! Makes a new object with its first contents.
ghost use Rattle.std.specs.Prelude.{◌+◌, ◌≤◌, length};
ghost use Rattle.bulk.specs.InOrder.{DoesFront, FollowsBy};
ghost use Rattle.bulk.specs.Lists.{fills, makes};

use crate::commands::Commands;
use crate::progress::{Progress, refusal_in};
use crate::refs::store_slots;
use crate::words::fill_words;
use graph_heap::{PLAIN_CELLS, Reply, Shape};
use machine::Heap;

/// Makes a new object in slot dst. Then stores the references in the slots `refs` in its first reference cells, and the
/// words in its first word cells, at most 252 together. The other cells stay null and zero. If dst is among `refs`, it
/// holds the new object by then. If a store or a put is refused, the object stays in dst, with the cells written before.
pub fn new_with(
    heap: &mut Heap,
    mutator: u32,
    dst: u32,
    shape: Shape,
    refs: &[u32],
    words: &[u64],
) -> Progress
    requires { length refs.now + length words.now ≤ PLAIN_CELLS }
    ensures { DoesFront heap.old mutator (makes dst shape refs.now words.now) result heap.new }
{
    let made = heap.make(mutator, dst, shape);
    fill_made(heap, mutator, dst, made, refs, words)
}

/// Fills the first cells of a new object in slot dst, after the command that made it got the reply `made`. If that command was
/// refused, it does nothing. The progress counts it too.
#[inline(always)]
pub fn fill_made<H: Commands>(
    heap: &mut H,
    mutator: u32,
    dst: u32,
    made: Reply,
    refs: &[u32],
    words: &[u64],
) -> Progress
    requires { length refs.now + length words.now ≤ PLAIN_CELLS }
    ensures { FollowsBy (H.does mutator) heap.old made (fills dst refs.now words.now) result heap.new }
{
    if let Some(refusal) = refusal_in(made) {
        return Progress::stopped(0, refusal);
    }
    let stored = store_slots(heap, mutator, dst, refs);
    if stored.refused.is_some() {
        return stored.behind(1);
    }
    fill_words(heap, mutator, dst, words).behind(1 + stored.done)
}
