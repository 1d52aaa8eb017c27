//! The plan of each command: its reply and its one write, found by reading alone. The tests stand in the order of the
//! refusals.
ghost use Rattle.std.specs.Prelude.{◌≡◌, ◌<◌, Ok, Err, length, slice_index, IfOk, IfErr};
ghost use Rattle.graph_heap.specs.Graph.{Graph};
ghost use Rattle.graph_heap.specs.Effect.{slot_at};
ghost use Rattle.heap_model.specs.Agreement.{Agrees};
ghost use Rattle.machine.specs.Plan.{write_to, Compares, IsPlan};
ghost use Rattle.machine.specs.Reading.{HoldsBy, Names};

use super::Heap;
use crate::plan::{Kind, Planned, Target, Write};
use graph_heap::{Command, Refusal, Reply, Shape};
use nodes::Referent;
use size_classes::parts_of;

mod commands;

/// The plan of a command, or its refusal.
pub(super) type Plan = Result<Planned, Refusal>;

/// Plans a new object.
#[inline(always)]
pub(super) fn make(heap: &Heap, mutator: u32, dst: u32, shape: Shape) -> Plan
    ensures { IsPlan heap.now mutator (Command.New dst shape) result }
{
    let cell = heap.fields.roots.slot(mutator, dst)?;
    let parts = parts_of(&shape).ok_or(Refusal::TooLarge)?;
    if heap.fields.next > heap.fields.roots.limits().identities {
        return Err(Refusal::IdentitiesSpent);
    }
    if !heap.fields.nodes.room(&parts) {
        return Err(Refusal::NoSpace);
    }
    Ok(Planned {
        reply: Reply::Made(heap.fields.next),
        write: Write::New { cell, shape },
    })
}

/// Plans to load a reference cell into a slot.
#[inline(always)]
pub(super) fn load(heap: &Heap, mutator: u32, dst: u32, obj: u32, i: u32) -> Plan
    ensures { IsPlan heap.now mutator (Command.Load dst obj i) result }
{
    let cell = heap.fields.roots.slot(mutator, dst)?;
    let root = heap.fields.roots.slot(mutator, obj)?;
    let at = heap.find(root, Kind::Ref, i)?;
    let value = heap.referent_in_cell(at);
    Ok(Planned {
        reply: Reply::Ref(value.identity),
        write: Write::Root {
            cell,
            reference: value.reference,
        },
    })
}

/// Plans to store the reference in slot `src` in a reference cell.
#[inline(always)]
pub(super) fn store(heap: &Heap, mutator: u32, obj: u32, i: u32, src: u32) -> Plan
    ensures { IsPlan heap.now mutator (Command.Store obj i src) result }
{
    let root = heap.fields.roots.slot(mutator, obj)?;
    let value = heap.referent_in_slot(mutator, src)?;
    let at = heap.find(root, Kind::Ref, i)?;
    Ok(Planned::done(Write::Ref {
        at,
        reference: value.reference,
    }))
}

/// Plans to compare a reference cell with slot `expect`, and to store the reference in slot `new` if they are the
/// same.
#[inline(always)]
pub(super) fn compare_store(
    heap: &Heap,
    mutator: u32,
    obj: u32,
    i: u32,
    expect: u32,
    new: u32,
) -> Plan
    ensures { IsPlan heap.now mutator (Command.CompareStore obj i expect new) result }
{
    let root = heap.fields.roots.slot(mutator, obj)?;
    let expected = heap.referent_in_slot(mutator, expect)?;
    let source = heap.fields.roots.slot(mutator, new)?;
    let at = heap.find(root, Kind::Ref, i)?;
    Ok(heap.compared(heap.referent_in_cell(at), expected, source, Target::Ref(at)))
}

/// Plans to read a word cell.
#[inline(always)]
pub(super) fn get(heap: &Heap, mutator: u32, obj: u32, i: u32) -> Plan
    ensures { IsPlan heap.now mutator (Command.Get obj i) result }
{
    let root = heap.fields.roots.slot(mutator, obj)?;
    let at = heap.find(root, Kind::Word, i)?;
    Ok(Planned::reply(Reply::Word(heap.word_in(at))))
}

/// Plans to write a word cell.
#[inline(always)]
pub(super) fn put(heap: &Heap, mutator: u32, obj: u32, i: u32, word: u64) -> Plan
    ensures { IsPlan heap.now mutator (Command.Put obj i word) result }
{
    let root = heap.fields.roots.slot(mutator, obj)?;
    let at = heap.find(root, Kind::Word, i)?;
    Ok(Planned::done(Write::Word { at, word }))
}

/// Plans to compare a word cell with a word, and to write another if they are the same.
#[inline(always)]
pub(super) fn compare_put(heap: &Heap, mutator: u32, obj: u32, i: u32, old: u64, new: u64) -> Plan
    ensures { IsPlan heap.now mutator (Command.ComparePut obj i old new) result }
{
    let root = heap.fields.roots.slot(mutator, obj)?;
    let at = heap.find(root, Kind::Word, i)?;
    let word = heap.word_in(at);
    if word != old {
        return Ok(Planned::reply(Reply::KeptWord(word)));
    }
    Ok(Planned {
        reply: Reply::Stored,
        write: Write::Word { at, word: new },
    })
}

/// Plans to copy the reference in slot `src` to slot `dst`.
#[inline(always)]
pub(super) fn copy(heap: &Heap, mutator: u32, dst: u32, src: u32) -> Plan
    ensures { IsPlan heap.now mutator (Command.Copy dst src) result }
{
    let cell = heap.fields.roots.slot(mutator, dst)?;
    let value = heap.referent_in_slot(mutator, src)?;
    Ok(Planned::done(Write::Root {
        cell,
        reference: value.reference,
    }))
}

/// Plans to set a slot to null.
#[inline(always)]
pub(super) fn clear(heap: &Heap, mutator: u32, dst: u32) -> Plan
    ensures { IsPlan heap.now mutator (Command.Clear dst) result }
{
    let cell = heap.fields.roots.slot(mutator, dst)?;
    Ok(Planned::done(Write::Root { cell, reference: 0 }))
}

/// Plans to load static `k` into a slot.
#[inline(always)]
pub(super) fn load_static(heap: &Heap, mutator: u32, dst: u32, k: u32) -> Plan
    ensures { IsPlan heap.now mutator (Command.LoadStatic dst k) result }
{
    let cell = heap.fields.roots.slot(mutator, dst)?;
    let source = heap.fields.roots.static_cell(k)?;
    let referent = heap.referent(source);
    Ok(Planned {
        reply: Reply::Ref(referent.identity),
        write: Write::Root {
            cell,
            reference: referent.reference,
        },
    })
}

/// Plans to store the reference in slot `src` in static `k`.
#[inline(always)]
pub(super) fn store_static(heap: &Heap, mutator: u32, k: u32, src: u32) -> Plan
    ensures { IsPlan heap.now mutator (Command.StoreStatic k src) result }
{
    let value = heap.referent_in_slot(mutator, src)?;
    let cell = heap.fields.roots.static_cell(k)?;
    Ok(Planned::done(Write::Root {
        cell,
        reference: value.reference,
    }))
}

/// Plans to compare static `k` with slot `expect`, and to store the reference in slot `new` if they are the same.
#[inline(always)]
pub(super) fn compare_static(heap: &Heap, mutator: u32, k: u32, expect: u32, new: u32) -> Plan
    ensures { IsPlan heap.now mutator (Command.CompareStatic k expect new) result }
{
    let expected = heap.referent_in_slot(mutator, expect)?;
    let source = heap.fields.roots.slot(mutator, new)?;
    let cell = heap.fields.roots.static_cell(k)?;
    Ok(heap.compared(heap.referent(cell), expected, source, Target::Root(cell)))
}

/// Plans to compare two slots, by the identities that they hold.
#[inline(always)]
pub(super) fn same(heap: &Heap, mutator: u32, a: u32, b: u32) -> Plan
    ensures { IsPlan heap.now mutator (Command.Same a b) result }
{
    let first = heap.referent_in_slot(mutator, a)?;
    let second = heap.referent_in_slot(mutator, b)?;
    Ok(Planned::reply(Reply::Is(first.identity == second.identity)))
}

/// Plans to reply the identity and the shape of the object in slot `a`.
#[inline(always)]
pub(super) fn describe(heap: &Heap, mutator: u32, a: u32) -> Plan
    ensures { IsPlan heap.now mutator (Command.Describe a) result }
{
    let root = heap.fields.roots.slot(mutator, a)?;
    let found = heap.object(root)?;
    Ok(Planned::reply(Reply::Described(found.id, found.shape)))
}

/// Plans to make a mutator live.
#[inline(always)]
pub(super) fn join(heap: &Heap, mutator: u32) -> Plan
    requires { mutator < heap.now.limits.mutators }
    ensures { IsPlan heap.now mutator Command.Join result }
{
    Ok(Planned::done(Write::Join { mutator }))
}

/// Plans to null a mutator's slots; it is then no longer live.
#[inline(always)]
pub(super) fn leave(heap: &Heap, mutator: u32) -> Plan
    requires { mutator < heap.now.limits.mutators }
    ensures { IsPlan heap.now mutator Command.Leave result }
{
    Ok(Planned::done(Write::Leave { mutator }))
}

impl Heap {
    /// Returns the referent of a mutator's slot.
    #[inline(always)]
    fn referent_in_slot(&self, mutator: u32, slot: u32) -> Result<Referent, Refusal>
        ensures names { (g : Graph) → Agrees self.now g → IfOk result (HoldsBy self.now g mutator slot) }
        ensures refused { IfErr result (λ e. slot_at self.now.limits mutator slot ≡ Err e) }
    {
        let root = self.fields.roots.slot(mutator, slot)?;
        Ok(self.referent(root))
    }

    /// Plans a comparison with the reference that a target is expected to hold. If they are the same, the target gets
    /// the reference in root `source`.
    #[inline(always)]
    fn compared(
        &self,
        referent: Referent,
        expected: Referent,
        source: usize,
        target: Target,
    ) -> Planned
        requires { source < length self.now.roots }
        ensures { (g : Graph) → Agrees self.now g → (s : Referent) × Names self.now g (slice_index g.roots source) s
            × Compares referent.identity expected.identity (write_to target s.reference) result }
    {
        if referent.identity != expected.identity {
            return Planned::reply(Reply::Kept(referent.identity));
        }
        Planned {
            reply: Reply::Stored,
            write: target.write(self.referent(source).reference),
        }
    }
}
