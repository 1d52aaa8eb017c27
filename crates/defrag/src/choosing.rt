//! One look of a pass.
ghost use Rattle.std.specs.Prelude.{◌≡◌, ◌-◌, ◌<◌, ◌≤◌, length, Some};
ghost use Rattle.size_classes.specs.declared.class.TheConstants.{CLASSES};
ghost use Rattle.heap_model.specs.Action.{candidate_after, emptier, is_chosen};
ghost use Rattle.heap_model.specs.Action.{Action, AtPass};
ghost use Rattle.heap_model.specs.declared.cost.TheConstants.{LOOK};
ghost use Rattle.heap_model.specs.declared.phase.Phase.TheVariants as phases;
ghost use Rattle.heap_model.specs.declared.phase.Moving.TheVariants as moves;
ghost use Rattle.nodes.specs.Acting.{Acts};
ghost use Rattle.nodes.specs.Grey.{AreLinked};
ghost use Rattle.nodes.specs.HeapFields.{state_of, AreHeapFields};
ghost use Rattle.defrag.specs.Candidates.{candidate_after_pages};
ghost use Rattle.defrag.specs.Chosen.{chosen_after};

use heap_model::cost::{LOOK, TURN};
use heap_model::phase::{Candidate, Moving, Phase};
use nodes::{HeapFields, Nodes};
use size_classes::{CLASSES, Class};

/// The effect of a look of a pass.
#[derive(Clone, Copy, Debug, PartialEq, Eq)]
pub enum Chosen {
    /// The page isn't the last one, and the pass goes on.
    Looked,
    /// The last page was looked at, and this page is chosen.
    Page(u32),
    /// The last page was looked at, and none is chosen.
    NoPage,
}

/// Does the next steps of a pass: looks at the class's next pages before the last, as far as there is room. If none is
/// left, it looks at the last one. After the last class it ends moving.
pub fn pass_next(
    heap: &mut HeapFields,
    class: u32,
    page: u32,
    candidate: Option<Candidate>,
    chosen: u32,
    room: u32,
)
    requires heap { AreHeapFields heap.old }
    requires phase { heap.old.phase ≡ phases.Moving (moves.Pass class page candidate chosen) }
    requires room { 0 < room }
    ensures acts { Acts heap.old room heap.new }
    ensures grey { heap.new.grey ≡ heap.old.grey }
    ensures linked { AreLinked heap.new.nodes heap.new.grey }
{
    if class >= CLASSES as u32 {
        return heap.charge(TURN, Phase::Idle);
    }
    let left = heap.nodes.pages().saturating_sub(page as usize + 1);
    if left == 0 {
        choose_one(heap, class, page, candidate, chosen);
        return;
    }
    let count = left.min(room as usize) as u32;
    let next = page + count;
    let place = Moving::Pass {
        class,
        page: next,
        candidate: look_on(&heap.nodes, Class::new(class as u8), page, next, candidate),
        chosen,
    };
    heap.charge(count * LOOK, Phase::Moving(place));
}

/// Does one look of a pass: looks at a page of a class, with the best page so far. After a look at the last page it
/// chooses the best one, if its blocks find a place on the class's other pages. Else the next class gets a pass.
pub fn choose_one(
    heap: &mut HeapFields,
    class: u32,
    page: u32,
    candidate: Option<Candidate>,
    chosen: u32,
) -> Chosen
    requires heap { AreHeapFields heap.old }
    requires pass { AtPass (state_of heap.old) class page candidate chosen }
    requires class { class < CLASSES }
    requires page { page < length heap.old.nodes.pages }
    requires chosen { chosen < heap.old.config.defrag_pages }
    ensures answer { result ≡ chosen_after heap.old.nodes.pages class page candidate }
    ensures acts { Action (state_of heap.old) LOOK (state_of heap.new) }
    ensures grey { heap.new.grey ≡ heap.old.grey }
    ensures linked { AreLinked heap.new.nodes heap.new.grey }
{
    let number = Class::new(class as u8);
    let candidate = consider(&heap.nodes, number, page, candidate);
    if (page as usize) + 1 < heap.nodes.pages() {
        let place = Moving::Pass {
            class,
            page: page + 1,
            candidate,
            chosen,
        };
        heap.charge(LOOK, Phase::Moving(place));
        return Chosen::Looked;
    }
    match candidate {
        Some(found) if is_chosen(&heap.nodes, number, found) => {
            heap.nodes.leave(found.page as usize);
            let place = Moving::Emptying {
                class,
                page: found.page,
                block: 0,
                chosen: chosen + 1,
            };
            heap.charge(LOOK, Phase::Moving(place));
            Chosen::Page(found.page)
        }
        _ => {
            let place = Moving::Pass {
                class: class + 1,
                page: 0,
                candidate: None,
                chosen,
            };
            heap.charge(LOOK, Phase::Moving(place));
            Chosen::NoPage
        }
    }
}

/// Returns the candidate after looks at the pages from one up to another.
fn look_on(
    nodes: &Nodes,
    class: Class,
    from: u32,
    end: u32,
    best: Option<Candidate>,
) -> Option<Candidate>
    requires from { from ≤ end }
    requires within { end ≤ length nodes.now.pages }
    ensures { result ≡ candidate_after_pages nodes.now.pages class from best (end - from) }
{
    // No page behind those that were touched is of a class, so it is no candidate.
    let touched = end.min(nodes.pages_touched() as u32);
    let last = touched.max(from);
    let mut candidate = best;
    for page in from..last {
        candidate = consider(nodes, class, page, candidate);
    }
    candidate
}

/// Returns the candidate after a look at a page.
fn consider(nodes: &Nodes, class: Class, page: u32, best: Option<Candidate>) -> Option<Candidate>
    requires { page < length nodes.now.pages }
    ensures { result ≡ candidate_after nodes.now.pages class page best }
{
    if !nodes.is_choosable(class, page as usize) {
        return best;
    }
    let allocated = nodes.held(page as usize);
    Some(emptier(best, Candidate { page, allocated }))
}

/// Returns the candidate with fewer allocated blocks, the first on a tie.
fn emptier(best: Option<Candidate>, candidate: Candidate) -> Candidate
    ensures { Some result ≡ emptier best candidate }
{
    match best {
        Some(other) if other.allocated <= candidate.allocated => other,
        _ => candidate,
    }
}

/// Returns whether the blocks of a candidate find a place on the class's other pages.
fn is_chosen(nodes: &Nodes, class: Class, candidate: Candidate) -> bool
    ensures { result ≡ is_chosen nodes.now.pages class (Some candidate) }
{
    let page = candidate.page as usize;
    if page >= nodes.pages() || !nodes.is_choosable(class, page) {
        return false;
    }
    let elsewhere = nodes
        .free_blocks(class)
        .saturating_sub(nodes.free_on(class, page));
    nodes.held(page) as usize <= elsewhere
}
