//! The objects that a search has found.
ghost use Rattle.std.specs.Prelude.{◌≡◌, ℕ, ◌<◌, ◌≤◌, [], length, IfOk, OnOk, IfSome, IsNone};
ghost use Rattle.graph_heap.specs.Distance.{found_at, AreOnce};
ghost use Rattle.graph_heap.specs.Search.{Takes, Adds, IsAt, IsNowhere, holders};

use crate::no_memory::NoMemory;
use crate::reachability::found::{Found, Holder};
use std::alloc::Global;
use std::marker::Model;

/// The objects that a search has found so far, in the order in which it found them, nearest to the roots first.
#[derive(Drop)]
pub struct Search {
    found: Vec<Found>,
    /// At place n - 1, for the object of identity n: its place among those found, counted from 1, or 0 if it wasn't
    /// found.
    places: Vec<usize>,
}

impl Model for Search {
    ghost use Rattle.graph_heap.specs.Search.{Findings, findings_in, IsIndexed};

    ghost Value = { Findings };

    ghost view = { findings_in };

    ghost invariant = { IsIndexed };
}

impl Search {
    /// Makes a search of this many objects that has found none yet.
    pub(crate) fn none(alloc: Global, objects: usize) -> Result<Search, NoMemory>
        ensures { IfOk result (λ s. s ≡ record { found = []; objects = objects }) }
    {
        Ok(Search {
            found: Vec::new(alloc),
            places: vec![in alloc; 0; objects]?,
        })
    }

    /// Adds an object, if there is one of this identity and it wasn't found before.
    fn add(&mut self, found: Found) -> Result<(), NoMemory>
        ensures { OnOk result (Takes found self.old self.new) }
    {
        let id = found.id;
        if id == 0 || id as usize > self.places.len() {
            return Ok(());
        }
        let place = id as usize - 1;
        if self.places[place] != 0 {
            return Ok(());
        }
        self.found.push(found)?;
        let end = self.found.len();
        self.places[place] = end;
        Ok(())
    }

    /// Adds the objects that cells hold, this far from the roots. The cells are those of an object, or else they are
    /// roots.
    pub(crate) fn add_all(
        &mut self,
        cells: &[u64],
        distance: u64,
        object: Option<u64>,
    ) -> Result<(), NoMemory>
        ensures { OnOk result (Adds cells.now distance (holders object) (length cells.now) self.old self.new) }
    {
        for cell in 0..cells.len() {
            self.add(Found {
                id: cells[cell],
                distance,
                holder: holder(object, cell),
            })?;
        }
        Ok(())
    }

    /// Returns the object that was found at a place, from 0, if there are that many.
    pub(crate) fn at(&self, place: usize) -> Option<Found>
        ensures found { IfSome result (λ f. (place < length self.now.found) × (f ≡ found_at self.now.found place)) }
        ensures none { IsNone result → length self.now.found ≤ place }
        ensures few { length self.now.found ≤ self.now.objects }
        ensures once { AreOnce self.now.found }
    {
        if place < self.found.len() {
            Some(self.found[place])
        } else {
            None
        }
    }

    /// Returns the find of an object.
    pub(crate) fn one(&self, id: u64) -> Found
        requires { (k : ℕ) × IsAt self.now.found id k }
        ensures { (k : ℕ) → IsAt self.now.found id k → found_at self.now.found k ≡ result }
    {
        let place = self.places[id as usize - 1];
        self.found[place - 1]
    }

    /// Returns the objects, nearest to the roots first.
    pub fn found(&self) -> &[Found]
        ensures { result.now ≡ self.now.found }
    {
        self.found.as_slice()
    }

    /// Returns the place of an object among those found, from 0: None if it wasn't found.
    pub fn place(&self, id: u64) -> Option<usize>
        ensures some { IfSome result (λ k. IsAt self.now.found id k) }
        ensures none { IsNone result → IsNowhere self.now.found id }
        ensures once { AreOnce self.now.found }
    {
        if id == 0 || id as usize > self.places.len() {
            return None;
        }
        let place = self.places[id as usize - 1];
        if place == 0 {
            return None;
        }
        Some(place - 1)
    }
}

/// Returns the holder that is a cell of an object, or else a root.
pub fn holder(object: Option<u64>, cell: usize) -> Holder
    ensures { result ≡ holders object cell }
{
    match object {
        Some(object) => Holder::Cell { object, cell },
        None => Holder::Root(cell),
    }
}
