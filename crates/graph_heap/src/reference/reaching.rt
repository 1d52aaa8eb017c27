//! Questions about the objects of the slow heap: which can be reached, their shapes, and the shape that a command asks
//! for.
ghost use Rattle.std.specs.Prelude.{◌≡◌, ◌↔◌, true, length, IfOk, IsOkAnd, OnErr, IsTrue};
ghost use Rattle.graph_heap.specs.Graph as graph;
ghost use Rattle.graph_heap.specs.Effect.{effect_of, settled, TellsMade};
ghost use Rattle.graph_heap.specs.History.{IsEntryOf, after_entry};
ghost use Rattle.graph_heap.specs.Reaching.{AreReached, new_shape};

use super::{Reference, had_room_of};
use crate::command::{Change, Entry, Shape};
use crate::no_memory::NoMemory;
use crate::reachability::search;

impl Reference {
    /// Returns the identities of the objects that can be reached, each once.
    pub fn reached(&self) -> Result<Vec<u64>, NoMemory>
        ensures { IfOk result (λ ids. AreReached self.now ids.items) }
    {
        let search = search(self.alloc, self)?;
        let mut ids = Vec::new(self.alloc);
        for found in search.found() {
            ids.push(found.id)?;
        }
        Ok(ids)
    }

    /// Returns how many objects there are.
    pub fn count(&self) -> usize
        ensures { result ≡ length self.now.objects }
    {
        self.objects.len()
    }

    /// Returns the shape of an object. Null, and an identity that isn't given yet, has no cells.
    pub fn shape(&self, id: u64) -> Shape
        ensures { result ≡ (graph.object_of self.now.objects id).shape }
    {
        match self.objects.get(id) {
            Ok(object) => object.shape,
            Err(_) => Shape::Plain { refs: 0, words: 0 },
        }
    }

    /// Does the step of an entry, as `accepts` does, and returns whether it is one. Also returns the shape of the
    /// object that the command requests, if the command is refused for no other reason than lack of space.
    #[tactic(auto, unfolding(crate::specs::Effect::reply_of, crate::specs::Effect::next_of))]
    pub fn accepts_asking(&mut self, entry: &Entry) -> Result<(bool, Option<Shape>), NoMemory>
        ensures asked { IfOk result (λ told. told.1
            ≡ new_shape (settled (effect_of true self.old entry.now.mutator entry.now.command)).1) }
        ensures exact { IfOk result (λ told. IsTrue told.0 ↔ IsEntryOf self.old entry.now) }
        ensures yes { IsOkAnd result (λ told. IsTrue told.0) → self.new ≡ after_entry self.old entry.now }
        ensures no { IsOkAnd result (λ told. ¬ IsTrue told.0) → self.new ≡ self.old }
        ensures err { OnErr result (self.new ≡ self.old) }
        // Memory is refused only if the entry is a step that makes an object.
        ensures made { OnErr result (IsEntryOf self.old entry.now × TellsMade entry.now.reply) }
    {
        let (reply, change) = self.reply_and_change(true, entry.mutator, &entry.command);
        let asked = shape_made(&change);
        if !had_room_of(&entry.reply) {
            return Ok((self.accepts(entry)?, asked));
        }
        if reply != entry.reply {
            return Ok((false, asked));
        }
        self.apply(&change)?;
        Ok((true, asked))
    }
}

/// Returns the shape of the object that a change makes.
fn shape_made(change: &Change) -> Option<Shape>
    ensures { result ≡ new_shape change.now }
{
    match *change {
        Change::New { shape, .. } => Some(shape),
        _ => None,
    }
}
