//! The collector: a cycle is begun, and goes on by quanta.
ghost use Rattle.std.specs.Prelude.{◌≡◌};
ghost use Rattle.metronome_c.specs.Opened.{held_in};
ghost use Rattle.metronome_c.specs.Collecting.{BeginsCycle, SpendsBudget, begun_told, spent_told};

use crate::figures::{found_in, tell};
use crate::metronome::Metronome;
use crate::phase::phase_number;
use crate::status::Status;
use machine::{BudgetOutOfRange, Busy, Spent};

/// The outcome of a quantum: the units that it spent, and the phase in which it ended.
#[repr(C)]
#[derive(Clone, Copy, Debug, PartialEq, Eq)]
pub struct QuantumSpent {
    pub units: u32,
    pub phase: u32,
}

/// Returns the outcome of a call to begin a cycle, if there was a turn.
pub(crate) fn begun(told: Option<Result<(), Busy>>) -> Result<(), Status>
    ensures { result ≡ begun_told told }
{
    match told {
        Some(Ok(())) => Ok(()),
        Some(Err(_)) => Err(Status::Busy),
        None => Err(Status::Outside),
    }
}

/// Returns the outcome of a quantum, if there was a turn.
pub(crate) fn spent(told: Option<Result<Spent, BudgetOutOfRange>>) -> Result<QuantumSpent, Status>
    ensures { result ≡ spent_told told }
{
    match told {
        Some(Ok(did)) => Ok(QuantumSpent {
            units: did.units,
            phase: phase_number(did.phase),
        }),
        Some(Err(_)) => Err(Status::BudgetOutOfRange),
        None => Err(Status::Outside),
    }
}

/// Begins a cycle.
#[unsafe(no_mangle)]
pub extern "C" fn metronome_begin(heap: &mut Metronome) -> u32
    ensures { BeginsCycle (held_in heap.old) (held_in heap.new) result }
{
    let found = heap.ask(|own| own.begin(), |member| begun(member.begin()));
    Status::of_outcome(found_in(found)).number()
}

/// Spends units of a budget on the cycle that is running.
#[unsafe(no_mangle)]
pub extern "C" fn metronome_quantum(
    heap: &mut Metronome,
    budget: u32,
    outcome: &mut QuantumSpent,
) -> u32
    ensures { SpendsBudget (held_in heap.old) budget (held_in heap.new) (outcome.old, outcome.new) result }
{
    let found = heap.ask(
        |own| own.quantum(budget),
        |member| spent(member.quantum(budget)),
    );
    tell(outcome, found_in(found))
}
