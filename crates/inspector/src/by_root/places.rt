//! Roots and their names.
ghost use Rattle.std.specs.Prelude.{◌≡◌, IfOk, string_bytes};
ghost use Rattle.inspector.specs.Roots as roots;
ghost use Rattle.inspector.specs.Roots.{root_name};

use graph_heap::Limits;
use std::alloc::{AllocError, Global};

/// A root: a slot of a mutator, or a static, counted from 0.
#[derive(Clone, Copy, Debug, PartialEq, Eq)]
pub enum Root {
    /// A mutator, and a slot of it.
    Slot(u64, u64),
    Static(u64),
}

/// Returns the root at a place of the row of roots.
pub fn root_at(limits: &Limits, place: usize) -> Root
    ensures { result ≡ roots.root_at limits.now place }
{
    let slots = limits.slots as usize;
    let all = limits.mutators as usize * slots;
    if place < all {
        let (mutator, slot) = (place / slots, place % slots);
        Root::Slot(mutator as u64, slot as u64)
    } else {
        Root::Static((place - all) as u64)
    }
}

/// Returns the name of a root.
pub(crate) fn root_name(alloc: Global, root: Root) -> Result<String, AllocError>
    ensures { IfOk result (λ name. string_bytes name ≡ root_name root) }
{
    match root {
        Root::Slot(mutator, slot) => format!(in alloc; "slot {mutator} {slot}"),
        Root::Static(number) => format!(in alloc; "static {number}"),
    }
}
