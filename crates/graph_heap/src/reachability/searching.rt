//! Searching a graph heap from its roots.
ghost use Rattle.std.specs.Prelude.{IfOk};
ghost use Rattle.graph_heap.specs.Distance.{FindsAll};

use crate::no_memory::NoMemory;
use crate::reachability::findings::Search;
use crate::reference::Reference;
use std::alloc::Global;

/// Finds the objects of a graph heap that can be reached, each once, nearest to the roots first, with their distances:
/// a breadth-first search (Moore, 1959). It looks once at each root, and at each reference cell of these objects. It
/// takes a word for each root and for each object that was ever made, reached or not. Refused: NoMemory.
pub fn search(alloc: Global, graph: &Reference) -> Result<Search, NoMemory>
    ensures { IfOk result (λ s. FindsAll graph.now s.found) }
{
    let mut search = Search::none(alloc, graph.count())?;
    let roots = graph.roots()?;
    search.add_all(roots.as_slice(), 0, None)?;
    let mut next = 0;
    while let Some(found) = search.at(next) {
        search.add_all(graph.refs(found.id), found.distance + 1, Some(found.id))?;
        next += 1;
    }
    Ok(search)
}
