//! The objects of the slow heap.
ghost use Rattle.std.specs.Prelude.{◌≡◌, slice_index, slice_set, length, nat_lt, if◌then◌else◌, IfOk, Ok, Err};
ghost use Rattle.graph_heap.specs.Shape as shapes;
ghost use Rattle.graph_heap.specs.Graph.{new_object, with_ref, with_word};
ghost use Rattle.graph_heap.specs.Effect.{ref_cell, word_cell};
ghost use Rattle.graph_heap.specs.Stored.{object_in};
ghost use Rattle.graph_heap.specs.declared.command.Refusal.TheVariants as refusals;

use crate::command::{Refusal, Shape};
use crate::no_memory::NoMemory;
use std::alloc::Global;

/// An object: its shape and its cells.
#[derive(Drop)]
pub struct StoredObject {
    pub shape: Shape,
    pub refs: Vec<u64>,
    pub words: Vec<u64>,
}

pub fn takes_refs(shape: Shape) -> bool
    ensures { result ≡ shapes.takes_refs shape }
{
    match shape {
        Shape::Plain { .. } | Shape::RefArray(_) => true,
        Shape::WordArray(_) => false,
    }
}

pub fn takes_words(shape: Shape) -> bool
    ensures { result ≡ shapes.takes_words shape }
{
    match shape {
        Shape::Plain { .. } | Shape::WordArray(_) => true,
        Shape::RefArray(_) => false,
    }
}

/// Returns how many cells of an object of a shape hold references.
fn ref_cells(shape: Shape) -> u32
    ensures { result ≡ shapes.ref_cells shape }
{
    match shape {
        Shape::Plain { refs, .. } => refs,
        Shape::RefArray(n) => n,
        Shape::WordArray(_) => 0,
    }
}

/// Returns how many cells of an object of a shape hold words.
fn word_cells(shape: Shape) -> u32
    ensures { result ≡ shapes.word_cells shape }
{
    match shape {
        Shape::Plain { words, .. } => words,
        Shape::RefArray(_) => 0,
        Shape::WordArray(n) => n,
    }
}

/// Returns a new object, with null references and zero words.
pub fn made_of(alloc: Global, shape: Shape) -> Result<StoredObject, NoMemory>
    ensures { IfOk result (λ o. object_in o ≡ new_object shape) }
{
    let refs = vec![in alloc; 0; ref_cells(shape) as usize]?;
    let words = vec![in alloc; 0; word_cells(shape) as usize]?;
    Ok(StoredObject { shape, refs, words })
}

/// Returns the value in a cell of an object. `takes` says whether the object's kind has such cells: if not, WrongKind.
fn cell_of(takes: bool, cells: &[u64], i: u32) -> Result<u64, Refusal>
    ensures { result ≡ if takes then
        (if nat_lt i (length cells.now) then Ok (slice_index cells.now i) else Err refusals.BadIndex)
        else Err refusals.WrongKind }
{
    if !takes {
        return Err(Refusal::WrongKind);
    }
    let i = i as usize;
    if i < cells.len() {
        Ok(cells[i])
    } else {
        Err(Refusal::BadIndex)
    }
}

/// Returns the identity in a reference cell of an object, or 0 for null.
pub fn ref_of(object: &StoredObject, i: u32) -> Result<u64, Refusal>
    ensures { result ≡ ref_cell (object_in object.now) i }
{
    cell_of(takes_refs(object.shape), object.refs.as_slice(), i)
}

/// Returns the word in a word cell of an object.
pub fn word_of(object: &StoredObject, i: u32) -> Result<u64, Refusal>
    ensures { result ≡ word_cell (object_in object.now) i }
{
    cell_of(takes_words(object.shape), object.words.as_slice(), i)
}

/// Writes a cell, if it is there.
pub fn set_cell(cells: &mut [u64], i: usize, value: u64)
    ensures { cells.new ≡ slice_set cells.old i value }
{
    if i < cells.len() {
        cells[i] = value;
    }
}

/// Writes a reference cell of an object, if it is there.
pub fn set_ref_of(object: &mut StoredObject, i: u32, value: u64)
    ensures { object_in object.new ≡ with_ref (object_in object.old) i value }
{
    set_cell(object.refs.as_mut_slice(), i as usize, value);
}

/// Writes a word cell of an object, if it is there.
pub fn set_word_of(object: &mut StoredObject, i: u32, value: u64)
    ensures { object_in object.new ≡ with_word (object_in object.old) i value }
{
    set_cell(object.words.as_mut_slice(), i as usize, value);
}
