//! Requests that the collector refuses, which change nothing.
use super::*;
use graph_heap::{NoMemory, Reply, Shape};
use heap_model::phase::Phase;
use machine::{BudgetOutOfRange, Busy, Heap, Spent};
use std::alloc::{AllocError, AllocGlobal};
use std::fmt::Display;
use std::test::Fail;

/// The heap is in this phase, has spent this many units, and slot 0 holds its one object.
fn unchanged(rt: &impl Abort, heap: &mut Heap, phase: Phase, units: u64) {
    let described = Reply::Described(1, Shape::Plain { refs: 0, words: 1 });
    assert_eq!(rt; heap.phase(), phase);
    assert_eq!(rt; heap.units(), units);
    assert_eq!(rt; heap.step(0, Command::Describe { a: 0 }), described);
}

/// Budgets that are out of range are refused, and so is a beginning while a cycle is running.
fn refuses(rt: &impl Abort, heap: &mut Heap, phase: Phase, units: u64) {
    unchanged(rt, heap, phase, units);
    for budget in [0, 255, 1_000_001, u32::MAX] {
        assert_eq!(rt;
            heap.quantum(budget),
            Err(BudgetOutOfRange),
            "{budget} {phase:?}"
        );
        unchanged(rt, heap, phase, units);
    }
    if phase != Phase::Idle {
        assert_eq!(rt; heap.begin(), Err(Busy), "{phase:?}");
        unchanged(rt, heap, phase, units);
    }
}

/// Spends budgets: of each this many units, and afterwards the heap is in this phase, has spent this many units in all,
/// and refuses as before.
fn spends(rt: &impl Abort, heap: &mut Heap, rows: &[(u32, u32, Phase, u64)]) {
    for (budget, units, phase, all) in rows {
        let spent = Spent {
            units: *units,
            phase: *phase,
        };
        assert_eq!(rt; heap.quantum(*budget), Ok(spent));
        refuses(rt, heap, *phase, *all);
    }
}

#[test]
fn refusals_change_nothing(rt: HostRuntime) -> Result<(), NoMemory> {
    let mut heap = Heap::new(rt.alloc(), &config_of(&rt, &MANY_SLOTS))?;
    assert_eq!(rt; heap.step(0, plain(0, 0, 1)), Reply::Made(1));
    refuses(&rt, &mut heap, Phase::Idle, 0);
    spends(&rt, &mut heap, &[(256, 0, Phase::Idle, 0)]);
    assert_eq!(rt; heap.begin(), Ok(()));
    refuses(&rt, &mut heap, Phase::Roots { next: 0 }, 0);
    let rows = [
        (256, 256, Phase::Roots { next: 256 }, 256),
        (257, 257, Phase::Marking { part: 0, cell: 0 }, 513),
        (
            256,
            256,
            Phase::Sweeping {
                page: 0,
                block: 254,
            },
            769,
        ),
        (1_000_000, 160, Phase::Idle, 929),
        (1_000_000, 0, Phase::Idle, 929),
    ];
    spends(&rt, &mut heap, &rows);
    Ok(())
}

/// Returns the text of a refusal.
fn text_of(rt: &impl AllocGlobal, refusal: &impl Display) -> Result<String, AllocError> {
    format!(in rt.alloc(); "{refusal}")
}

#[test]
fn refusals_have_their_texts(rt: HostRuntime) -> Result<(), Fail> {
    assert_eq!(rt; text_of(&rt, &Busy)?.as_bytes(), "busy".as_bytes());
    let budget = text_of(&rt, &BudgetOutOfRange)?;
    assert_eq!(rt; budget.as_bytes(), "budget out of range".as_bytes());
    Ok(())
}
