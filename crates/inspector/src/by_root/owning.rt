//! The root that owns an object.
ghost use Rattle.std.specs.Prelude.{◌≡◌, ◌<◌, ◌+◌, length, map, IfOk};
ghost use Rattle.graph_heap.specs.Distance.{FindsAll};
ghost use Rattle.inspector.specs.Nearest.{AreOwned};
ghost use Rattle.inspector.specs.Owning.{IsGiven, IsHanded};

use graph_heap::{Found, NoMemory, Reference, Search, search};
use std::alloc::{AllocError, Global};

/// An object that can be reached.
#[derive(Clone, Copy, Debug, PartialEq, Eq)]
pub struct Owned {
    /// Its identity.
    pub id: u64,
    /// The root that owns it, by its place in the row of roots.
    pub root: usize,
}

/// Returns the objects that were found, each with the number of roots, which is no root.
fn owned_by_none(alloc: Global, found: &[Found], roots: usize) -> Result<Vec<Owned>, AllocError>
    ensures { IfOk result (λ owned. owned.items ≡ map (λ f. record { id = f.id; root = roots }) found.now) }
{
    let mut all = Vec::new(alloc);
    for object in found {
        all.push(Owned {
            id: object.id,
            root: roots,
        })?;
    }
    Ok(all)
}

/// Gives each object that a root refers to the first such root.
fn give(graph: &Reference, search: &Search, roots: &[u64], owned: &mut [Owned])
    requires roots { roots.now ≡ graph.now.roots }
    requires all { FindsAll graph.now search.now.found }
    requires before { IsGiven graph.now search.now.found 0 owned.old }
    ensures { IsGiven graph.now search.now.found (length graph.now.roots) owned.new }
{
    for root in 0..roots.len() {
        if let Some(place) = search.place(roots[root]) {
            owned[place].root = owned[place].root.min(root);
        }
    }
}

/// Hands the root of the object at a place on to the objects that its cells refer to, if they are farther from the
/// roots, and if no root before it owns them.
fn hand_on(graph: &Reference, search: &Search, place: usize, owned: &mut [Owned])
    requires place { place < length search.now.found }
    requires all { FindsAll graph.now search.now.found }
    requires before { IsHanded graph.now search.now.found place owned.old }
    ensures { IsHanded graph.now search.now.found (place + 1) owned.new }
{
    let found = search.found();
    let from = found[place];
    let root = owned[place].root;
    for id in graph.refs(from.id) {
        if let Some(to) = search.place(*id) {
            if found[to].distance > from.distance {
                owned[to].root = owned[to].root.min(root);
            }
        }
    }
}

/// Hands the roots of all objects on, from the nearest objects to the farthest.
fn hand_on_all(graph: &Reference, search: &Search, owned: &mut [Owned])
    requires all { FindsAll graph.now search.now.found }
    requires before { IsHanded graph.now search.now.found 0 owned.old }
    ensures { IsHanded graph.now search.now.found (length search.now.found) owned.new }
{
    for place in 0..search.found().len() {
        hand_on(graph, search, place, owned);
    }
}

/// Returns the objects of a graph heap that can be reached, each once, with the root that owns it: of the roots from
/// which a shortest path leads to it, the first. It looks once more at each root, and at each reference cell of these
/// objects, in the order of a breadth-first search.
pub fn owners(alloc: Global, graph: &Reference) -> Result<Vec<Owned>, NoMemory>
    ensures { IfOk result (λ owned. AreOwned graph.now owned.items) }
{
    let search = search(alloc, graph)?;
    let roots = graph.roots()?;
    let mut owned = owned_by_none(alloc, search.found(), roots.len())?;
    give(graph, &search, roots.as_slice(), owned.as_mut_slice());
    hand_on_all(graph, &search, owned.as_mut_slice());
    Ok(owned)
}
