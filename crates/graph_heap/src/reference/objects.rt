//! The objects of the slow heap, by their identities.
ghost use Rattle.std.specs.Prelude.{◌≡◌, ◌<◌, ◌^◌, ◌∷◌, ◌++◌, [], length, OnOk, OnErr};
ghost use Rattle.graph_heap.specs.Graph.{new_object, put_ref, put_word};
ghost use Rattle.graph_heap.specs.Effect.{object_at, ref_at, word_at, Sees};
ghost use Rattle.graph_heap.specs.Stored.{object_in};

use crate::command::{Refusal, Shape};
use crate::no_memory::NoMemory;
use crate::stored::{StoredObject, made_of, ref_of, set_ref_of, set_word_of, word_of};
use std::alloc::Global;
use std::collections::BTreeMap;
use std::marker::Model;

/// The objects of the slow heap, in an ordered map by their identities, which are 1, 2 and so on. Contracts see them
/// as the list of the graph heap's objects.
#[derive(Drop)]
pub struct Objects {
    by_identity: BTreeMap<u64, StoredObject>,
}

impl Model for Objects {
    ghost use Rattle.std.specs.Prelude.{List};
    ghost use Rattle.graph_heap.specs.Graph.{Object};
    ghost use Rattle.graph_heap.specs.Stored.{objects_in, AreNumbered};

    ghost Value = { List Object };

    ghost view = { objects_in };

    ghost invariant = { AreNumbered };
}

impl Objects {
    /// Makes none.
    pub fn none(alloc: Global) -> Objects
        ensures { result ≡ [] }
    {
        Objects {
            by_identity: BTreeMap::new(alloc),
        }
    }

    /// Returns how many there are.
    pub fn len(&self) -> usize
        ensures count { result ≡ length self.now }
        ensures few { result < 2 ^ 63 }
    {
        self.by_identity.len()
    }

    /// Returns the object of an identity. Null is refused.
    pub fn get(&self, id: u64) -> Result<&StoredObject, Refusal>
        ensures { Sees (λ o. object_in o.now) result (object_at self.now id) }
    {
        match self.by_identity.get(&id) {
            Some(object) => Ok(object),
            None => Err(Refusal::NullSlot),
        }
    }

    /// Returns the identity in a reference cell, or 0 for null.
    pub fn ref_at(&self, id: u64, i: u32) -> Result<u64, Refusal>
        ensures { result ≡ ref_at self.now id i }
    {
        ref_of(self.get(id)?, i)
    }

    /// Returns the word in a word cell.
    pub fn word_at(&self, id: u64, i: u32) -> Result<u64, Refusal>
        ensures { result ≡ word_at self.now id i }
    {
        word_of(self.get(id)?, i)
    }

    /// Adds an object, with null references and zero words, under the next identity. Memory is got first.
    pub fn add(&mut self, alloc: Global, shape: Shape) -> Result<(), NoMemory>
        ensures ok { OnOk result (self.new ≡ self.old ++ new_object shape ∷ []) }
        ensures err { OnErr result (self.new ≡ self.old) }
    {
        let object = made_of(alloc, shape)?;
        let id = self.by_identity.len() as u64 + 1;
        self.by_identity.insert(id, object)?;
        Ok(())
    }

    /// Writes a reference cell, if it is there.
    pub fn set_ref(&mut self, id: u64, i: u32, value: u64)
        ensures { self.new ≡ put_ref self.old id i value }
    {
        if let Some(object) = self.by_identity.get_mut(&id) {
            set_ref_of(object, i, value);
        }
    }

    /// Writes a word cell, if it is there.
    pub fn set_word(&mut self, id: u64, i: u32, value: u64)
        ensures { self.new ≡ put_word self.old id i value }
    {
        if let Some(object) = self.by_identity.get_mut(&id) {
            set_word_of(object, i, value);
        }
    }
}
