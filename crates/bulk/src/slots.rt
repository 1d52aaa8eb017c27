//! Clears and moves slots of a mutator.
ghost use Rattle.std.specs.Prelude.{◌≤◌, None};
ghost use Rattle.bulk.specs.InOrder.{DoesFrontBy};
ghost use Rattle.bulk.specs.Lists.{clears, moves};

use crate::commands::Commands;
use crate::progress::{Progress, refusal_in};

/// Sets each of `count` slots, from the first on, to null. The progress counts the slots cleared. The first slot that the
/// mutator doesn't have is refused as BadSlot; if the mutator isn't live, the first of all is refused as NotLive. A
/// number of 2^32 or more counts as 2^32 - 1, which no slot has.
#[inline(always)]
pub fn clear_slots<H: Commands>(heap: &mut H, mutator: u32, first: u32, count: u32) -> Progress
    ensures { DoesFrontBy (H.does mutator) heap.old (clears first count) result heap.new }
{
    if count == 0 {
        return Progress::whole(0);
    }
    match heap.clear_run(mutator, first, count) {
        Ok(done) => {
            if done == count {
                return Progress::whole(count);
            }
            clear_rest(heap, mutator, first, count, done)
        }
        Err(refusal) => Progress::stopped(0, refusal),
    }
}

/// Clears the slots after the first ones, which a run has cleared. It is kept apart from `clear_slots`, where one run
/// clears most rows.
#[cold]
#[inline(never)]
fn clear_rest<H: Commands>(
    heap: &mut H,
    mutator: u32,
    first: u32,
    count: u32,
    cleared: u32,
) -> Progress
    requires { cleared ≤ count }
    ensures { (h : H) → DoesFrontBy (H.does mutator) h (clears first cleared) (record { done = cleared; refused = None }) heap.old
        → DoesFrontBy (H.does mutator) h (clears first count) result heap.new }
{
    let mut done = cleared;
    while done < count {
        match heap.clear_run(mutator, first.saturating_add(done), count - done) {
            Ok(more) => done += more,
            Err(refusal) => return Progress::stopped(done, refusal),
        }
    }
    Progress::whole(count)
}

/// Copies slot src into slot dst, and then sets src to null: two commands. A slot that is moved into itself keeps its
/// reference, by one command.
pub fn move_slot<H: Commands>(heap: &mut H, mutator: u32, dst: u32, src: u32) -> Progress
    ensures { DoesFrontBy (H.does mutator) heap.old (moves dst src) result heap.new }
{
    if let Some(refusal) = refusal_in(heap.copy(mutator, dst, src)) {
        return Progress::stopped(0, refusal);
    }
    if dst == src {
        return Progress::whole(1);
    }
    match refusal_in(heap.clear(mutator, src)) {
        Some(refusal) => Progress::stopped(1, refusal),
        None => Progress::whole(2),
    }
}
