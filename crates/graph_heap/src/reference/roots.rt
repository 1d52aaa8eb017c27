//! The roots of the slow heap: the slots of the mutators, and the statics.
ghost use Rattle.std.specs.Prelude.{◌≡◌, ◌+◌, ◌*◌, ◌<◌, ◌^◌, length, slice_set, replicate, IfOk, OnOk};
ghost use Rattle.std.specs.BTreeMap.{values};
ghost use Rattle.graph_heap.specs.Graph.{root_cells, nulled};
ghost use Rattle.graph_heap.specs.Effect.{slot_at, static_at};
ghost use Rattle.graph_heap.specs.Roots.{slots_below, null_slots, held_at};

use super::row::{slot_of, static_of};
use crate::command::{Limits, Refusal};
use crate::no_memory::NoMemory;
use crate::stored::set_cell;
use std::alloc::Global;
use std::collections::BTreeMap;
use std::marker::Model;

/// The roots of the slow heap: the slots in an ordered map by mutator and number, and the statics in a list. Contracts
/// see them as the row of the graph heap's roots.
#[derive(Drop)]
pub struct Roots {
    limits: Limits,
    slots: BTreeMap<(u32, u32), u64>,
    statics: Vec<u64>,
}

impl Model for Roots {
    ghost use Rattle.graph_heap.specs.Roots.{Row, row_in, IsWhole};

    ghost Value = { Row };

    ghost view = { row_in };

    ghost invariant = { IsWhole };
}

impl Roots {
    /// Makes the roots within these limits, which all hold null.
    pub fn new(alloc: Global, limits: &Limits) -> Result<Roots, NoMemory>
        ensures { IfOk result (λ r. r ≡ record { limits = limits.now; cells = replicate (root_cells limits.now) 0 }) }
    {
        let mut slots = BTreeMap::new(alloc);
        for mutator in 0..limits.mutators {
            add_slots(&mut slots, mutator, limits.slots)?;
        }
        Ok(Roots {
            limits: *limits,
            slots,
            statics: vec![in alloc; 0; limits.statics as usize]?,
        })
    }

    /// Returns their limits.
    pub fn limits(&self) -> &Limits
        ensures limits { result.now ≡ self.now.limits }
        ensures row { length self.now.cells ≡ root_cells self.now.limits }
    {
        &self.limits
    }

    /// Returns the identity in a slot of a mutator, or 0 for null.
    pub fn slot(&self, mutator: u32, slot: u32) -> Result<u64, Refusal>
        ensures { result ≡ held_at self.now (slot_at self.now.limits mutator slot) }
    {
        slot_of(&self.limits, mutator, slot)?;
        Ok(self.slots[&(mutator, slot)])
    }

    /// Returns the identity in a static, or 0 for null.
    pub fn static_root(&self, k: u32) -> Result<u64, Refusal>
        ensures { result ≡ held_at self.now (static_at self.now.limits k) }
    {
        static_of(&self.limits, k)?;
        Ok(self.statics[k as usize])
    }

    /// Writes the root at a place of the row, if it is there.
    pub fn set(&mut self, cell: usize, id: u64)
        ensures { self.new ≡ record self.old { cells = slice_set self.old.cells cell id } }
    {
        let slots = self.slots.len();
        if cell >= slots {
            set_cell(self.statics.as_mut_slice(), cell - slots, id);
        } else if let Some(root) = self.slots.get_mut(&slot_in_row(self.limits, cell)) {
            *root = id;
        }
    }

    /// Writes null to `count` roots, from one on.
    pub fn set_null(&mut self, first: usize, count: usize)
        requires { first + count < 2 ^ 64 }
        ensures { self.new ≡ record self.old { cells = nulled self.old.cells first count } }
    {
        for i in 0..count {
            self.set(first + i, 0);
        }
    }

    /// Returns the row: the slots of mutator 0, of mutator 1 and so on, and then the statics.
    pub fn row(&self, alloc: Global) -> Result<Vec<u64>, NoMemory>
        ensures { IfOk result (λ row. row.items ≡ self.now.cells) }
    {
        let mut row = slot_values(alloc, &self.slots)?;
        row.extend_from_slice(self.statics.as_slice())?;
        Ok(row)
    }
}

/// Adds the slots of the next mutator, which hold null.
fn add_slots(
    slots: &mut BTreeMap<(u32, u32), u64>,
    mutator: u32,
    count: u32,
) -> Result<(), NoMemory>
    requires { slots.old.entries ≡ null_slots (slots_below mutator count) }
    ensures { OnOk result (slots.new.entries ≡ null_slots (slots_below (mutator + 1) count)) }
{
    for slot in 0..count {
        slots.insert((mutator, slot), 0)?;
    }
    Ok(())
}

/// Returns the identities in slots, in the order of the slots.
fn slot_values(alloc: Global, slots: &BTreeMap<(u32, u32), u64>) -> Result<Vec<u64>, NoMemory>
    ensures { IfOk result (λ held. held.items ≡ values slots.now) }
{
    let mut held = Vec::new(alloc);
    for id in slots.values() {
        held.push(*id)?;
    }
    Ok(held)
}

/// Returns the mutator and the number of the slot at a place of the row.
fn slot_in_row(limits: Limits, cell: usize) -> (u32, u32)
    requires { cell < limits.mutators * limits.slots }
    ensures mutator { result.0 < limits.mutators }
    ensures slot { result.1 < limits.slots }
    ensures place { result.0 * limits.slots + result.1 ≡ cell }
{
    let slots = limits.slots as usize;
    ((cell / slots) as u32, (cell % slots) as u32)
}
