//! The objects that each root owns, counted.
ghost use Rattle.std.specs.Prelude.{◌≡◌, ◌+◌, ◌<◌, ◌^◌, length, IfOk};
ghost use Rattle.std.specs.List.{All};
ghost use Rattle.inspector.specs.declared.by_root.owning.Owned.{Owned as OneOwned};
ghost use Rattle.inspector.specs.ByRoot.{AreRows, AreRootRows};
ghost use Rattle.inspector.specs.Totals.{no_holding, holding_at, AreTotals};

use crate::by_root::owning::{Owned, owners};
use graph_heap::{NoMemory, Reference};
use paced::words_of_shape;
use std::alloc::{AllocError, Global};
use std::cmp::Reverse;

/// Objects, and the words of their blocks.
#[derive(Clone, Copy, Debug, PartialEq, Eq)]
pub struct Holding {
    pub objects: u64,
    /// The words of the blocks of all their parts, headers included.
    pub words: u128,
}

/// A root, by its place in the row of roots, and the objects that it owns.
#[derive(Clone, Copy, Debug, PartialEq, Eq)]
pub struct RootRow {
    pub root: usize,
    pub holding: Holding,
}

/// The objects of each root, and of all roots.
#[derive(Drop)]
struct Totals {
    each: Vec<Holding>,
    all: Holding,
}

/// The roots that own objects, those of most words first, and of as many words the first root first; and the sums.
#[derive(Drop)]
pub struct ByRoot {
    pub rows: Vec<RootRow>,
    pub all: Holding,
}

impl Holding {
    /// Returns no object.
    fn none() -> Holding
        ensures { result ≡ no_holding }
    {
        Holding {
            objects: 0,
            words: 0,
        }
    }

    /// Adds an object with this many words of blocks.
    fn with(self, words: u64) -> Holding
        requires objects { self.objects + 1 < 2 ^ 64 }
        requires words { self.words + words < 2 ^ 128 }
        ensures { result ≡ record { objects = self.objects + 1; words = self.words + words } }
    {
        Holding {
            objects: self.objects + 1,
            words: self.words + u128::from(words),
        }
    }
}

/// Counts objects, for each of this many roots and for all roots.
fn sums_of(
    alloc: Global,
    graph: &Reference,
    owned: &[Owned],
    roots: usize,
) -> Result<Totals, AllocError>
    requires { All (λ (o : OneOwned). o.root < roots) owned.now }
    ensures { IfOk result (AreTotals graph.now roots owned.now) }
{
    let mut totals = Totals {
        each: vec![in alloc; Holding::none(); roots]?,
        all: Holding::none(),
    };
    for object in owned {
        let words = words_of_shape(&graph.shape(object.id));
        totals.each[object.root] = totals.each[object.root].with(words);
        totals.all = totals.all.with(words);
    }
    Ok(totals)
}

/// Returns the rows of roots with these objects each.
fn rows_of(alloc: Global, each: &[Holding]) -> Result<Vec<RootRow>, AllocError>
    ensures { IfOk result (λ rows. AreRows (holding_at each.now) (length each.now) rows.items) }
{
    let mut rows = Vec::new(alloc);
    for root in 0..each.len() {
        let holding = each[root];
        if holding.objects > 0 {
            rows.push(RootRow { root, holding })?;
        }
    }
    rows.sort_unstable_by_key(|row| (Reverse(row.holding.words), row.root));
    Ok(rows)
}

/// Counts the objects of a graph heap that can be reached, and the words of their blocks, by the root that owns each
/// of them: of the roots from which a shortest path leads to it, the first. Takes time by the roots, and by the objects
/// and their reference cells; and memory for each root, and for each object that was ever made.
pub fn count_by_root(alloc: Global, graph: &Reference) -> Result<ByRoot, NoMemory>
    ensures { IfOk result (λ counted. AreRootRows graph.now counted.rows.items counted.all) }
{
    let owned = owners(alloc, graph)?;
    let roots = graph.roots()?.len();
    let totals = sums_of(alloc, graph, owned.as_slice(), roots)?;
    Ok(ByRoot {
        rows: rows_of(alloc, totals.each.as_slice())?,
        all: totals.all,
    })
}
