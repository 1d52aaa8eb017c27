//! Copies references between objects, and from slots into objects.
ghost use Rattle.std.specs.Prelude.{◌≤◌, length};
ghost use Rattle.bulk.specs.InOrder.{DoesFrontBy};
ghost use Rattle.bulk.specs.Lists.{copies, stores};

use crate::commands::Commands;
use crate::progress::{Progress, refusal_in};
use graph_heap::PLAIN_CELLS;

/// Copies `count` reference cells, at most 252, of the object in slot from into the object in slot to, from cell
/// `from_first` and `to_first` on. Each takes two commands: a load into slot through and a store from there, so slot
/// through holds the last reference at the end. The cells are copied in rising order: if both objects are one, and
/// `to_first` lies among the cells that are copied, cells written before are copied again. The first cell that an object
/// doesn't have is refused as BadIndex. A number of 2^32 or more counts as 2^32 - 1, which no cell has.
pub fn copy_refs<H: Commands>(
    heap: &mut H,
    mutator: u32,
    through: u32,
    from: u32,
    from_first: u32,
    to: u32,
    to_first: u32,
    count: u32,
) -> Progress
    requires { count ≤ PLAIN_CELLS }
    ensures { DoesFrontBy (H.does mutator) heap.old (copies through from from_first to to_first count) result heap.new }
{
    for i in 0..count {
        let load = heap.load(mutator, through, from, from_first.saturating_add(i));
        if let Some(refusal) = refusal_in(load) {
            return Progress::stopped(2 * i, refusal);
        }
        let store = heap.store(mutator, to, to_first.saturating_add(i), through);
        if let Some(refusal) = refusal_in(store) {
            return Progress::stopped(2 * i + 1, refusal);
        }
    }
    Progress::whole(2 * count)
}

/// Stores the references in these slots, at most 252, in the first reference cells of the object in slot obj.
#[inline(always)]
pub(crate) fn store_slots<H: Commands>(
    heap: &mut H,
    mutator: u32,
    obj: u32,
    slots: &[u32],
) -> Progress
    requires { length slots.now ≤ PLAIN_CELLS }
    ensures { DoesFrontBy (H.does mutator) heap.old (stores obj slots.now) result heap.new }
{
    let count = slots.len() as u32;
    for i in 0..count {
        if let Some(refusal) = refusal_in(heap.store(mutator, obj, i, slots[i as usize])) {
            return Progress::stopped(i, refusal);
        }
    }
    Progress::whole(count)
}
