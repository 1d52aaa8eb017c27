//! Slots and statics in one row.
ghost use Rattle.std.specs.Prelude.{◌≡◌, ◌<◌, ◌≤◌, ◌^◌, length, replicate, slice_index, slice_set, IfOk, OnOk};
ghost use Rattle.graph_heap.specs.Graph.{root_cells, live_first};
ghost use Rattle.graph_heap.specs.Effect.{slot_at, static_at, admitted_to};
ghost use Rattle.size_classes.specs.Config.{limits_of};
ghost use Rattle.roots.specs.Used.{used_in};

use graph_heap::{Limits, NoMemory, Refusal, admit, live_row, set_live};
use size_classes::Config;
use std::alloc::Global;
use std::marker::Model;

/// The root cells of a heap: mutator by mutator slot by slot, and then the statics. Each holds a
/// reference, 0 for null. Beside them stands which mutators are live. Contracts see the limits, the cells and
/// the live mutators.
#[derive(Drop)]
pub struct Roots {
    limits: Limits,
    cells: Vec<u64>,
    live: Vec<bool>,
}

impl Model for Roots {
    ghost use Rattle.roots.specs.RootTable.{RootTable, IsRootTable};

    ghost Value = { RootTable };

    ghost view = { λ r. record { limits = r.limits; cells = r.cells.items; live = r.live.items } };

    ghost invariant = { λ r. IsRootTable (record { limits = r.limits; cells = r.cells.items; live = r.live.items }) };
}

impl Roots {
    /// Makes null roots, with the first `live` mutators live. Refused only for lack of memory.
    pub fn new(alloc: Global, config: &Config) -> Result<Roots, NoMemory>
        ensures limits { IfOk result (λ r. r.limits ≡ limits_of config.now) }
        ensures cells { IfOk result (λ r. r.cells ≡ replicate (root_cells r.limits) 0) }
        ensures live { IfOk result (λ r. r.live ≡ live_first r.limits) }
    {
        let cells = vec![in alloc; 0; config.root_cells() as usize]?;
        let limits = config.limits();
        let live = live_row(alloc, &limits)?;
        Ok(Roots {
            limits,
            cells,
            live,
        })
    }

    /// Returns the limits of the commands.
    pub fn limits(&self) -> Limits
        ensures limits { result ≡ self.now.limits }
        ensures identities { result.identities < 2 ^ 63 }
    {
        self.limits
    }

    /// Tests whether a mutator may give a command: Join (`joins`) is for a mutator that isn't live, all others are for
    /// one that is. Refusals: BadSlot if there is no such mutator, then NotLive, AlreadyLive.
    #[inline(always)]
    pub fn admit(&self, mutator: u32, joins: bool) -> Result<(), Refusal>
        ensures admitted { result ≡ admitted_to self.now.limits self.now.live mutator joins }
        ensures below { OnOk result (mutator < self.now.limits.mutators) }
    {
        admit(&self.limits, self.live.as_slice(), mutator, joins)
    }

    /// Sets whether a mutator is live; the others stay.
    pub fn set_live(&mut self, mutator: u32, live: bool)
        requires { mutator < self.old.limits.mutators }
        ensures { self.new ≡ record self.old { live = slice_set self.old.live mutator live } }
    {
        set_live(self.live.as_mut_slice(), mutator, live);
    }

    /// Returns the place of a slot of a mutator in the row, or BadSlot.
    #[inline(always)]
    pub fn slot(&self, mutator: u32, slot: u32) -> Result<usize, Refusal>
        ensures place { result ≡ slot_at self.now.limits mutator slot }
        ensures within { IfOk result (λ cell. cell < length self.now.cells) }
    {
        if mutator < self.limits.mutators && slot < self.limits.slots {
            Ok(mutator as usize * self.limits.slots as usize + slot as usize)
        } else {
            Err(Refusal::BadSlot)
        }
    }

    /// Returns the place of a static in the row, or BadStatic.
    #[inline(always)]
    pub fn static_cell(&self, k: u32) -> Result<usize, Refusal>
        ensures place { result ≡ static_at self.now.limits k }
        ensures within { IfOk result (λ cell. cell < length self.now.cells) }
    {
        if k < self.limits.statics {
            let slots = self.limits.mutators as usize * self.limits.slots as usize;
            Ok(slots + k as usize)
        } else {
            Err(Refusal::BadStatic)
        }
    }

    /// Returns the reference in a cell.
    #[inline(always)]
    pub fn get(&self, cell: usize) -> u64
        requires { cell < length self.now.cells }
        ensures { result ≡ slice_index self.now.cells cell }
    {
        self.cells()[cell]
    }

    /// Writes a cell; the others stay.
    #[inline(always)]
    pub fn set(&mut self, cell: usize, reference: u64)
        requires { cell < length self.old.cells }
        ensures { self.new ≡ record self.old { cells = slice_set self.old.cells cell reference } }
    {
        self.cells[cell] = reference;
    }

    /// Returns all cells.
    pub fn cells(&self) -> &[u64]
        ensures { result.now ≡ self.now.cells }
    {
        self.cells.as_slice()
    }

    /// Returns how many cells aren't null.
    pub fn used(&self) -> usize
        ensures used { result ≡ used_in self.now.cells }
        ensures within { result ≤ length self.now.cells }
    {
        self.cells.iter().filter(|cell| **cell != 0).count()
    }
}
