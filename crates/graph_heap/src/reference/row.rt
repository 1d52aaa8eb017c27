//! The places of slots and statics in the row of roots.
ghost use Rattle.std.specs.Prelude.{◌≡◌, ◌<◌, IfOk};
ghost use Rattle.graph_heap.specs.Graph.{root_cells};
ghost use Rattle.graph_heap.specs.Effect.{slot_at, static_at};

use crate::command::{Limits, Refusal};

/// Returns the place of a slot in the row of roots, or BadSlot.
pub fn slot_of(limits: &Limits, mutator: u32, slot: u32) -> Result<usize, Refusal>
    ensures place { result ≡ slot_at limits.now mutator slot }
    ensures within { IfOk result (λ i. i < root_cells limits.now) }
{
    if mutator < limits.mutators && slot < limits.slots {
        Ok(mutator as usize * limits.slots as usize + slot as usize)
    } else {
        Err(Refusal::BadSlot)
    }
}

/// Returns the place of a static in the row of roots, or BadStatic.
pub fn static_of(limits: &Limits, k: u32) -> Result<usize, Refusal>
    ensures place { result ≡ static_at limits.now k }
    ensures within { IfOk result (λ i. i < root_cells limits.now) }
{
    if k < limits.statics {
        Ok(limits.mutators as usize * limits.slots as usize + k as usize)
    } else {
        Err(Refusal::BadStatic)
    }
}
