//! Cycles and quanta of a heap, which a pacer counts if there is one.
ghost use Rattle.std.specs.Prelude.{◌≡◌, ◌*◌, [], ◌∷◌};
ghost use Rattle.std.specs.Option.{option_map};
ghost use Rattle.machine.specs.Collecting.{Begins, Spends};
ghost use Rattle.machine.specs.Recorded.{begin_done, quantum_done};
ghost use Rattle.paced.specs.Cycles.{CountsCycles};
ghost use Rattle.paced.specs.Rooms.{first_pacer};
ghost use Rattle.heap_shared.specs.Ring.{KeepsBy};

use machine::{BudgetOutOfRange, Busy, Heap, Spent};
use paced::{Cycles, Pacer, Plan};
use size_classes::Config;

/// Begins a cycle, unless one is running.
pub(crate) fn begin(
    pacer: &mut Option<Pacer>,
    heap: &mut Heap,
    cycles: &mut Cycles,
) -> Result<(), Busy>
    ensures begins { Begins heap.old heap.new result }
    ensures cycles { CountsCycles heap.old cycles.old (begin_done result ∷ []) heap.new cycles.new }
    ensures keeps { KeepsBy pacer.old heap.old (begin_done result ∷ []) pacer.new heap.new }
    ensures figures { option_map (λ p. p.figures) pacer.new ≡ option_map (λ p. p.figures) pacer.old }
{
    match pacer {
        Some(pacer) => pacer.begin(heap, cycles),
        None => cycles.begin(heap),
    }
}

/// Spends units of a budget on the cycle that is running.
pub(crate) fn quantum(
    pacer: &mut Option<Pacer>,
    heap: &mut Heap,
    cycles: &mut Cycles,
    budget: u32,
) -> Result<Spent, BudgetOutOfRange>
    ensures spends { Spends heap.old budget heap.new result }
    ensures cycles { CountsCycles heap.old cycles.old (quantum_done budget result ∷ []) heap.new cycles.new }
    ensures keeps { KeepsBy pacer.old heap.old (quantum_done budget result ∷ []) pacer.new heap.new }
    ensures figures { option_map (λ p. p.figures) pacer.new ≡ option_map (λ p. p.figures) pacer.old }
{
    match pacer {
        Some(pacer) => pacer.quantum(heap, cycles, budget),
        None => cycles.quantum(heap, budget),
    }
}

/// Returns the pacer of a new heap, if a plan is asked for.
pub(crate) fn asked(config: &Config, plan: Option<Plan>) -> Option<Pacer>
    ensures { result ≡ option_map (λ p. first_pacer (config.now.collector_ticks * config.now.rate) p) plan }
{
    match plan {
        Some(plan) => Some(Pacer::new(config, plan)),
        None => None,
    }
}
