//! A slow heap, which replies as the graph heap does.
ghost use Rattle.std.specs.Prelude.{true, ◌≡◌, ◌↔◌, IfOk, IsOkAnd, OnOk, OnErr, IsTrue};
ghost use Rattle.graph_heap.specs.Shape as shapes;
ghost use Rattle.graph_heap.specs.Graph.{changed, opening};
ghost use Rattle.graph_heap.specs.Effect as effect;
ghost use Rattle.graph_heap.specs.Effect.{admitted_effect, effect_of, fitting, settled, reply_of, next_of, AddsObject, TellsMade};
ghost use Rattle.graph_heap.specs.Reference.{referent_at};
ghost use Rattle.graph_heap.specs.History as history;
ghost use Rattle.graph_heap.specs.History.{IsEntryOf, after_entry};

mod edges;
mod objects;
mod reaching;
mod roots;
mod row;

use crate::admission::{admit, live_row, set_live};
use crate::command::{
    ARRAY_CELLS, Change, Command, Entry, Limits, PLAIN_CELLS, Refusal, Reply, Shape,
};
use crate::dispatch;
use crate::no_memory::NoMemory;
use objects::Objects;
use roots::Roots;
use row::{slot_of, static_of};
use std::alloc::Global;
use std::marker::Model;

/// The effect of a command: its reply and its change, or why it is refused.
type CommandEffect = Result<(Reply, Change), Refusal>;

/// The slow heap: objects by identity, which never move and are never freed; slots by mutator and number; and statics.
/// Contracts see it as the graph heap.
#[derive(Drop)]
pub struct Reference {
    objects: Objects,
    roots: Roots,
    live: Vec<bool>,
    alloc: Global,
}

impl Model for Reference {
    ghost use Rattle.graph_heap.specs.Graph.{Graph};
    ghost use Rattle.graph_heap.specs.Reference.{graph_in, TellsLive};

    ghost Value = { Graph };

    ghost view = { graph_in };

    ghost invariant = { TellsLive };
}

fn fits(shape: Shape) -> bool
    ensures { result ≡ shapes.fits shape }
{
    match shape {
        Shape::Plain { refs, words } => refs as u64 + words as u64 <= PLAIN_CELLS as u64,
        Shape::RefArray(n) | Shape::WordArray(n) => n <= ARRAY_CELLS,
    }
}

fn fitting_of(shape: Shape) -> Result<Shape, Refusal>
    ensures { result ≡ fitting shape }
{
    if fits(shape) {
        Ok(shape)
    } else {
        Err(Refusal::TooLarge)
    }
}

impl Reference {
    fn next_identity(&self) -> Result<u64, Refusal>
        ensures next { result ≡ effect.next_identity self.now }
    {
        let count = self.objects.len() as u64;
        if count < self.limits().identities {
            Ok(count + 1)
        } else {
            Err(Refusal::IdentitiesSpent)
        }
    }

    /// Does a change. Memory is got first.
    fn apply(&mut self, change: &Change) -> Result<(), NoMemory>
        ensures ok { OnOk result (self.new ≡ changed self.old change.now) }
        ensures err { OnErr result (self.new ≡ self.old) }
        ensures made { OnErr result (AddsObject change.now) }
    {
        match *change {
            Change::Nothing => {}
            Change::Root { cell, id } => self.roots.set(cell, id),
            Change::Ref { id, i, value } => self.objects.set_ref(id, i, value),
            Change::Word { id, i, value } => self.objects.set_word(id, i, value),
            Change::New { cell, id, shape } => {
                self.objects.add(self.alloc, shape)?;
                self.roots.set(cell, id);
            }
            Change::Join { mutator } => set_live(self.live.as_mut_slice(), mutator, true),
            Change::Leave { mutator } => {
                let slots = self.limits().slots as usize;
                self.roots.set_null(mutator as usize * slots, slots);
                set_live(self.live.as_mut_slice(), mutator, false);
            }
        }
        Ok(())
    }

    /// Returns the effect of a command on the graph heap, with room for a new object or without.
    fn plan(&self, room: bool, mutator: u32, command: &Command) -> CommandEffect
        ensures { result ≡ effect_of room self.now mutator command.now }
    {
        let joins = command.is_join();
        admit(self.limits(), self.live.as_slice(), mutator, joins)?;
        self.admitted_effect(room, mutator, command)
    }

    /// Returns the effect of a command of a mutator that was admitted.
    fn admitted_effect(&self, room: bool, mutator: u32, command: &Command) -> CommandEffect
        ensures { result ≡ admitted_effect room self.now mutator command.now }
    {
        dispatch!(Reference, self, mutator, *command, room)
    }

    /// Returns the reply and the change of a command.
    #[tactic(auto, unfolding(crate::specs::Effect::reply_of, crate::specs::Effect::next_of))]
    fn reply_and_change(&self, room: bool, mutator: u32, command: &Command) -> (Reply, Change)
        ensures settled { result ≡ settled (effect_of room self.now mutator command.now) }
        ensures reply { result.0 ≡ reply_of room self.now mutator command.now }
        ensures change { changed self.now result.1 ≡ next_of room self.now mutator command.now }
        ensures made { AddsObject result.1 → TellsMade result.0 }
    {
        match self.plan(room, mutator, command) {
            Ok(x) => x,
            Err(n) => (Reply::Refused(n), Change::Nothing),
        }
    }

    /// Returns the identity in a slot of a mutator, or 0 for null.
    fn referent(&self, mutator: u32, slot: u32) -> Result<u64, Refusal>
        ensures { result ≡ referent_at self.now mutator slot }
    {
        self.roots.slot(mutator, slot)
    }

    fn make(&self, mutator: u32, dst: u32, shape: Shape, room: bool) -> CommandEffect
        ensures { result ≡ admitted_effect room self.now mutator (Command.New dst shape) }
    {
        let cell = slot_of(self.limits(), mutator, dst)?;
        fitting_of(shape)?;
        let id = self.next_identity()?;
        if !room {
            return Err(Refusal::NoSpace);
        }
        Ok((Reply::Made(id), Change::New { cell, id, shape }))
    }

    fn load(&self, mutator: u32, dst: u32, obj: u32, i: u32) -> CommandEffect
        ensures { result ≡ admitted_effect true self.now mutator (Command.Load dst obj i) }
    {
        let cell = slot_of(self.limits(), mutator, dst)?;
        let object = self.referent(mutator, obj)?;
        let id = self.objects.ref_at(object, i)?;
        Ok((Reply::Ref(id), Change::Root { cell, id }))
    }

    fn store(&self, mutator: u32, obj: u32, i: u32, src: u32) -> CommandEffect
        ensures { result ≡ admitted_effect true self.now mutator (Command.Store obj i src) }
    {
        let id = self.referent(mutator, obj)?;
        let value = self.referent(mutator, src)?;
        self.objects.ref_at(id, i)?;
        Ok((Reply::Done, Change::Ref { id, i, value }))
    }

    fn compare_store(&self, mutator: u32, obj: u32, i: u32, expect: u32, new: u32) -> CommandEffect
        ensures { result ≡ admitted_effect true self.now mutator (Command.CompareStore obj i expect new) }
    {
        let id = self.referent(mutator, obj)?;
        let expected = self.referent(mutator, expect)?;
        let value = self.referent(mutator, new)?;
        let referent = self.objects.ref_at(id, i)?;
        if referent == expected {
            Ok((Reply::Stored, Change::Ref { id, i, value }))
        } else {
            Ok((Reply::Kept(referent), Change::Nothing))
        }
    }

    fn get(&self, mutator: u32, obj: u32, i: u32) -> CommandEffect
        ensures { result ≡ admitted_effect true self.now mutator (Command.Get obj i) }
    {
        let id = self.referent(mutator, obj)?;
        let value = self.objects.word_at(id, i)?;
        Ok((Reply::Word(value), Change::Nothing))
    }

    fn put(&self, mutator: u32, obj: u32, i: u32, word: u64) -> CommandEffect
        ensures { result ≡ admitted_effect true self.now mutator (Command.Put obj i word) }
    {
        let id = self.referent(mutator, obj)?;
        self.objects.word_at(id, i)?;
        Ok((Reply::Done, Change::Word { id, i, value: word }))
    }

    fn compare_put(&self, mutator: u32, obj: u32, i: u32, old: u64, new: u64) -> CommandEffect
        ensures { result ≡ admitted_effect true self.now mutator (Command.ComparePut obj i old new) }
    {
        let id = self.referent(mutator, obj)?;
        let found = self.objects.word_at(id, i)?;
        if found == old {
            Ok((Reply::Stored, Change::Word { id, i, value: new }))
        } else {
            Ok((Reply::KeptWord(found), Change::Nothing))
        }
    }

    fn copy(&self, mutator: u32, dst: u32, src: u32) -> CommandEffect
        ensures { result ≡ admitted_effect true self.now mutator (Command.Copy dst src) }
    {
        let cell = slot_of(self.limits(), mutator, dst)?;
        let id = self.referent(mutator, src)?;
        Ok((Reply::Done, Change::Root { cell, id }))
    }

    fn clear(&self, mutator: u32, dst: u32) -> CommandEffect
        ensures { result ≡ admitted_effect true self.now mutator (Command.Clear dst) }
    {
        let cell = slot_of(self.limits(), mutator, dst)?;
        Ok((Reply::Done, Change::Root { cell, id: 0 }))
    }

    fn load_static(&self, mutator: u32, dst: u32, k: u32) -> CommandEffect
        ensures { result ≡ admitted_effect true self.now mutator (Command.LoadStatic dst k) }
    {
        let cell = slot_of(self.limits(), mutator, dst)?;
        let id = self.roots.static_root(k)?;
        Ok((Reply::Ref(id), Change::Root { cell, id }))
    }

    fn store_static(&self, mutator: u32, k: u32, src: u32) -> CommandEffect
        ensures { result ≡ admitted_effect true self.now mutator (Command.StoreStatic k src) }
    {
        let id = self.referent(mutator, src)?;
        let cell = static_of(self.limits(), k)?;
        Ok((Reply::Done, Change::Root { cell, id }))
    }

    fn compare_static(&self, mutator: u32, k: u32, expect: u32, new: u32) -> CommandEffect
        ensures { result ≡ admitted_effect true self.now mutator (Command.CompareStatic k expect new) }
    {
        let expected = self.referent(mutator, expect)?;
        let id = self.referent(mutator, new)?;
        let cell = static_of(self.limits(), k)?;
        let referent = self.roots.static_root(k)?;
        if referent == expected {
            Ok((Reply::Stored, Change::Root { cell, id }))
        } else {
            Ok((Reply::Kept(referent), Change::Nothing))
        }
    }

    fn same(&self, mutator: u32, a: u32, b: u32) -> CommandEffect
        ensures { result ≡ admitted_effect true self.now mutator (Command.Same a b) }
    {
        let first = self.referent(mutator, a)?;
        let second = self.referent(mutator, b)?;
        Ok((Reply::Is(first == second), Change::Nothing))
    }

    fn describe(&self, mutator: u32, a: u32) -> CommandEffect
        ensures { result ≡ admitted_effect true self.now mutator (Command.Describe a) }
    {
        let id = self.referent(mutator, a)?;
        let object = self.objects.get(id)?;
        Ok((Reply::Described(id, object.shape), Change::Nothing))
    }

    fn join(&self, mutator: u32) -> CommandEffect
        ensures { result ≡ admitted_effect true self.now mutator Command.Join }
    {
        Ok((Reply::Done, Change::Join { mutator }))
    }

    fn leave(&self, mutator: u32) -> CommandEffect
        ensures { result ≡ admitted_effect true self.now mutator Command.Leave }
    {
        Ok((Reply::Done, Change::Leave { mutator }))
    }
}

/// Returns whether there was room, by a reply.
pub(crate) fn had_room_of(reply: &Reply) -> bool
    ensures { result ≡ history.had_room reply.now }
{
    match *reply {
        Reply::Refused(Refusal::NoSpace) => false,
        _ => true,
    }
}

impl Reference {
    /// Makes a heap with no object and null roots, in which the first `live` mutators are live.
    pub fn new(alloc: Global, limits: &Limits) -> Result<Reference, NoMemory>
        ensures { IfOk result (λ r. r ≡ opening limits.now) }
    {
        Ok(Reference {
            objects: Objects::none(alloc),
            roots: Roots::new(alloc, limits)?,
            live: live_row(alloc, limits)?,
            alloc,
        })
    }

    /// Does a command on the graph heap, which has room, and returns the reply.
    pub fn reply(&mut self, mutator: u32, command: &Command) -> Result<Reply, NoMemory>
        ensures reply { IfOk result (λ r. r ≡ reply_of true self.old mutator command.now) }
        ensures ok { OnOk result (self.new ≡ next_of true self.old mutator command.now) }
        ensures err { OnErr result (self.new ≡ self.old) }
        // Memory is refused only if an object is to be made.
        ensures made { OnErr result (TellsMade (reply_of true self.old mutator command.now)) }
    {
        let (reply, change) = self.reply_and_change(true, mutator, command);
        self.apply(&change)?;
        Ok(reply)
    }

    /// Does the step of an entry, if the entry is one; returns whether it is.
    pub fn accepts(&mut self, entry: &Entry) -> Result<bool, NoMemory>
        ensures exact { IfOk result (λ yes. IsTrue yes ↔ IsEntryOf self.old entry.now) }
        ensures yes { IsOkAnd result (λ yes. IsTrue yes) → self.new ≡ after_entry self.old entry.now }
        ensures no { IsOkAnd result (λ yes. ¬ IsTrue yes) → self.new ≡ self.old }
        ensures err { OnErr result (self.new ≡ self.old) }
        // Memory is refused only if the entry is a step that makes an object.
        ensures made { OnErr result (IsEntryOf self.old entry.now × TellsMade entry.now.reply) }
    {
        let room = had_room_of(&entry.reply);
        let (reply, change) = self.reply_and_change(room, entry.mutator, &entry.command);
        if reply == entry.reply {
            self.apply(&change)?;
            Ok(true)
        } else {
            Ok(false)
        }
    }
}
