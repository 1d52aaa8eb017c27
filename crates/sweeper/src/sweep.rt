//! One step of the sweep.
ghost use Rattle.std.specs.Prelude.{◌≡◌, ◌≢◌, ℕ, ◌+◌, ◌<◌, ◌≤◌, None, length};
ghost use Rattle.heap_model.specs.declared.phase.Phase.TheVariants as phases;
ghost use Rattle.heap_model.specs.Action.{Chain};
ghost use Rattle.heap_model.specs.Action as actions;
ghost use Rattle.heap_model.specs.Pages.{page_at};
ghost use Rattle.nodes.specs.Pages.{blocks_on};
ghost use Rattle.nodes.specs.Acting.{Acts};
ghost use Rattle.nodes.specs.Grey.{AreLinked};
ghost use Rattle.nodes.specs.HeapFields.{state_of, AreHeapFields};
ghost use Rattle.sweeper.specs.Sweeping as sweeping;
ghost use Rattle.sweeper.specs.Sweeping.{swept_at, place_after, cost_of, SweepsOne};

use heap_model::cost::{CLOSE, LOOK, TURN};
use heap_model::phase::{Moving, Phase};
use nodes::{HeapFields, Nodes};

/// The effect of an action of the sweeper.
#[derive(Clone, Copy, Debug, PartialEq, Eq)]
pub enum Swept {
    /// It looked at a block, which stays.
    Looked,
    /// It freed a block.
    Freed,
    /// It closed a page.
    Closed,
    /// Nothing: all pages are closed.
    Nothing,
}

/// Does one action of the sweeper. It looks at a block of a page, and frees it if it is allocated and not marked. If no
/// block of the page is left, it closes the page. If all pages are closed, it does nothing.
#[inline(always)]
pub fn sweep_one(heap: &mut HeapFields, page: u32, block: u32) -> Swept
    requires heap { AreHeapFields heap.old }
    requires phase { heap.old.phase ≡ phases.Sweeping page block }
    ensures answer { result ≡ swept_at (state_of heap.old) page block }
    ensures acts { SweepsOne heap.old result heap.new }
    ensures same { heap.new ≡ record heap.old {
      nodes = heap.new.nodes;
      phase = place_after page block result;
      units = heap.old.units + cost_of result;
    } }
    ensures linked { AreLinked heap.new.nodes heap.new.grey }
{
    if heap.nodes.pages() <= page as usize {
        return Swept::Nothing;
    }
    if heap.nodes.blocks(page as usize) <= block as usize {
        heap.nodes.close_page(page as usize);
        let next = Phase::Sweeping {
            page: page + 1,
            block: 0,
        };
        heap.charge(CLOSE, next);
        return Swept::Closed;
    }
    let next = Phase::Sweeping {
        page,
        block: block + 1,
    };
    if is_garbage(heap, page as usize, block as usize) {
        heap.nodes.give(page as usize, block as usize);
        heap.charge(LOOK, next);
        return Swept::Freed;
    }
    heap.charge(LOOK, next);
    Swept::Looked
}

/// Looks at the next blocks of a page, as far as there is room: an allocated block without the colour that means marked
/// is freed. If no block is left, it closes the page, and the free pages right after it, as far as there is room. If
/// all pages are closed, it ends the sweep.
pub fn sweep_next(heap: &mut HeapFields, page: u32, block: u32, room: u32)
    requires heap { AreHeapFields heap.old }
    requires phase { heap.old.phase ≡ phases.Sweeping page block }
    requires room { 0 < room }
    ensures acts { Acts heap.old room heap.new }
    ensures grey { heap.new.grey ≡ heap.old.grey }
    ensures linked { AreLinked heap.new.nodes heap.new.grey }
{
    if page as usize >= heap.nodes.pages() {
        let next = after_sweep(heap);
        return heap.charge(TURN, next);
    }
    let left = heap
        .nodes
        .blocks(page as usize)
        .saturating_sub(block as usize);
    if 0 < left && left < room as usize {
        return sweep_rest(heap, page, block, left as u32);
    }
    if left == 0 {
        return close_pages(heap, page, block, room);
    }
    if room == 1 {
        sweep_one(heap, page, block);
        return;
    }
    sweep_blocks(heap, page, block, room);
}

/// Closes a page whose blocks are all swept, and the free pages right after it for which there is room. It stands apart, so
/// that the loops over blocks have the registers that they need.
#[inline(never)]
fn close_pages(heap: &mut HeapFields, page: u32, block: u32, room: u32)
    requires heap { AreHeapFields heap.old }
    requires phase { heap.old.phase ≡ phases.Sweeping page block }
    requires page { page < length heap.old.nodes.pages }
    requires looked { blocks_on (page_at heap.old.nodes.pages page) ≤ block }
    requires room { 0 < room }
    ensures acts { Acts heap.old room heap.new }
    ensures grey { heap.new.grey ≡ heap.old.grey }
    ensures linked { AreLinked heap.new.nodes heap.new.grey }
{
    // No block of the page is left, so this closes it.
    sweep_one(heap, page, block);
    let first = page as usize + 1;
    let end = heap.nodes.pages().min(page as usize + room as usize);
    let next = free_until(&heap.nodes, first, end) as u32;
    let place = Phase::Sweeping {
        page: next,
        block: 0,
    };
    heap.charge((next - page - 1) * CLOSE, place);
}

/// Returns whether a block of a page is allocated and isn't marked.
fn is_garbage(heap: &HeapFields, page: usize, block: usize) -> bool
    requires { page < length heap.now.nodes.pages }
    ensures { result ≡ sweeping.is_garbage (state_of heap.now) (page_at heap.now.nodes.pages page) page block }
{
    match heap.nodes.allocated_block(page, block) {
        Some(address) => !heap.nodes.has_colour(address, heap.mark_parity),
        None => false,
    }
}

/// Returns the first page from one on, up to another, that isn't free; the other if all are free.
fn free_until(nodes: &Nodes, from: usize, end: usize) -> usize
    requires from { from ≤ end }
    requires within { end ≤ length nodes.now.pages }
    ensures within { (from ≤ result) × (result ≤ end) }
    ensures free { (k : ℕ) → from ≤ k → k < result → page_at nodes.now.pages k ≡ None }
    ensures first { result < end → page_at nodes.now.pages result ≢ None }
{
    // Each page behind those that were touched is free.
    let last = end.min(nodes.pages_touched());
    let mut page = from;
    while page < last && nodes.class(page).is_none() {
        page += 1;
    }
    if page < last { page } else { end }
}

/// Looks at `count` blocks of a page, from the next one on.
fn sweep_blocks(heap: &mut HeapFields, page: u32, block: u32, count: u32)
    requires heap { AreHeapFields heap.old }
    requires phase { heap.old.phase ≡ phases.Sweeping page block }
    requires page { page < length heap.old.nodes.pages }
    requires some { 0 < count }
    requires within { block + count ≤ blocks_on (page_at heap.old.nodes.pages page) }
    ensures acts { Chain (state_of heap.old) count (state_of heap.new) }
    ensures same { heap.new ≡ record heap.old {
      nodes = heap.new.nodes;
      phase = phases.Sweeping page (block + count);
      units = heap.old.units + count;
    } }
    ensures linked { AreLinked heap.new.nodes heap.new.grey }
{
    let colour = heap.mark_parity;
    heap.nodes
        .sweep(page as usize, block as usize, count as usize, colour);
    let block = block + count;
    heap.charge(count * LOOK, Phase::Sweeping { page, block });
}

/// Looks at the rest of a page's blocks, and closes the page.
fn sweep_rest(heap: &mut HeapFields, page: u32, block: u32, count: u32)
    requires heap { AreHeapFields heap.old }
    requires phase { heap.old.phase ≡ phases.Sweeping page block }
    requires page { page < length heap.old.nodes.pages }
    requires some { 0 < count }
    requires all { block + count ≡ blocks_on (page_at heap.old.nodes.pages page) }
    ensures acts { Chain (state_of heap.old) (count + 1) (state_of heap.new) }
    ensures grey { heap.new.grey ≡ heap.old.grey }
    ensures linked { AreLinked heap.new.nodes heap.new.grey }
{
    let marked = heap.mark_parity;
    heap.nodes
        .sweep_and_close(page as usize, block as usize, count as usize, marked);
    let place = Phase::Sweeping {
        page: page + 1,
        block: 0,
    };
    heap.charge(count * LOOK + CLOSE, place);
}

/// Returns the phase after a sweep: moving begins if pages may be emptied, and fewer are free than the configuration asks
/// for.
fn after_sweep(heap: &HeapFields) -> Phase
    ensures { result ≡ actions.after_sweep (state_of heap.now) }
{
    if 0 < heap.config.defrag_pages && heap.nodes.free_pages() < heap.config.defrag_below as usize {
        return Phase::Moving(Moving::Pass {
            class: 0,
            page: 0,
            candidate: None,
            chosen: 0,
        });
    }
    Phase::Idle
}
