//! A shortest path from a root to an object.
ghost use Rattle.std.specs.Prelude.{◌↔◌, length, IfOk, IsTrue};
ghost use Rattle.graph_heap.specs.Graph.{Graph};
ghost use Rattle.graph_heap.specs.Reaching.{IsAmong};
ghost use Rattle.graph_heap.specs.Distance.{FindsAll};
ghost use Rattle.graph_heap.specs.Search.{Stands};
ghost use Rattle.graph_heap.specs.Route.{IsShortest, AreLinked, StandsAs};

use crate::no_memory::NoMemory;
use crate::reachability::findings::Search;
use crate::reachability::found::{Found, Holder};
use crate::reachability::searching::search;
use crate::reference::Reference;
use std::alloc::Global;

/// A reference cell on the way: its object's identity, and its index among the object's reference cells, from 0.
#[derive(Clone, Copy, Debug, PartialEq, Eq)]
pub struct Step {
    pub object: u64,
    pub cell: usize,
}

/// A path: a root, by its place in the row of roots, and the reference cells after it, each of them one of the
/// object that the root, or the cell before it, holds.
#[derive(Debug, Drop)]
pub struct Route {
    pub root: usize,
    pub steps: Vec<Step>,
}

/// Whether an object can be reached, and how.
#[derive(Debug, Drop)]
pub enum Standing {
    /// It can, by this path, and by none with fewer cells.
    Reached(Route),
    /// It was made, and no path leads to it.
    Unreachable,
    /// No object of this identity was made.
    NeverMade,
}

/// Returns the path to an object that was found, by the last holders: its own, then its holder's, and so on up to a root.
fn way_back(alloc: Global, search: &Search, target: Found) -> Result<Route, NoMemory>
    requires linked { AreLinked search.now.found }
    requires found { Stands search.now.found target }
    ensures { IfOk result (λ r. (g : Graph) → FindsAll g search.now.found → IsShortest g target.id r) }
{
    let mut steps = Vec::new(alloc);
    let mut found = target;
    loop {
        match found.holder {
            Holder::Root(root) => {
                steps.reverse();
                return Ok(Route { root, steps });
            }
            Holder::Cell { object, cell } => {
                steps.push(Step { object, cell })?;
                found = search.one(object);
            }
        }
    }
}

/// Returns whether the graph heap has an object of this identity.
fn is_made(graph: &Reference, id: u64) -> bool
    ensures { IsTrue result ↔ IsAmong (length graph.now.objects) id }
{
    id != 0 && id as usize <= graph.count()
}

/// Returns how an object stands in a graph heap: reached, by a shortest path (none has fewer reference cells),
/// unreachable, or never made. It searches once from the roots (`search`), and then goes back from holder to holder.
pub fn shortest_path(alloc: Global, graph: &Reference, id: u64) -> Result<Standing, NoMemory>
    ensures { IfOk result (StandsAs graph.now id) }
{
    let search = search(alloc, graph)?;
    match search.place(id) {
        Some(place) => {
            let target = search.found()[place];
            Ok(Standing::Reached(way_back(alloc, &search, target)?))
        }
        None if is_made(graph, id) => Ok(Standing::Unreachable),
        None => Ok(Standing::NeverMade),
    }
}
