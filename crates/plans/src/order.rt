//! Numbers of pages in rising order, each once.
ghost use Rattle.std.specs.Prelude.{ℕ, List, [], ◌∷◌, ◌++◌};
ghost use Rattle.plans.specs.Order.{IsNext};

use size_classes::MOST_HEAP_PAGES;

/// Returns the least number of pages above a bound, once this number is looked at, of those that a heap may have.
fn nearest(next: Option<u32>, pages: u32, above: u32) -> Option<u32>
    ensures { (numbers : List ℕ) → IsNext numbers above next → IsNext (numbers ++ pages ∷ []) above result }
{
    if pages <= above {
        return next;
    }
    if MOST_HEAP_PAGES < pages {
        return next;
    }
    match next {
        Some(least) => Some(least.min(pages)),
        None => Some(pages),
    }
}

/// Returns the least of some numbers of pages above a bound, of those that a heap may have; None if there is none.
pub(crate) fn next_of(numbers: &[u32], above: u32) -> Option<u32>
    ensures { IsNext numbers.now above result }
{
    let mut next = None;
    for pages in numbers {
        next = nearest(next, *pages, above);
    }
    next
}
