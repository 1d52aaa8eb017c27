//! The roots and the reference cells of the slow heap: the edges of its graph.
ghost use Rattle.std.specs.Prelude.{◌≡◌, length, IfOk};
ghost use Rattle.graph_heap.specs.Graph as graph;

use super::Reference;
use crate::command::Limits;
use crate::no_memory::NoMemory;

impl Reference {
    /// Returns the limits of the heap. It has as many roots as there are slots and statics.
    pub fn limits(&self) -> &Limits
        ensures limits { result.now ≡ self.now.limits }
        ensures row { length self.now.roots ≡ graph.root_cells self.now.limits }
    {
        self.roots.limits()
    }

    /// Returns the identities in the roots, 0 for null: those in the slots of mutator 0, of mutator 1 and so on,
    /// and then those in the statics.
    pub fn roots(&self) -> Result<Vec<u64>, NoMemory>
        ensures { IfOk result (λ roots. roots.items ≡ self.now.roots) }
    {
        self.roots.row(self.alloc)
    }

    /// Returns the reference cells of an object, each of which holds an identity, or 0 for null. Null, and an identity
    /// that isn't given yet, has none.
    pub fn refs(&self, id: u64) -> &[u64]
        ensures { result.now ≡ (graph.object_of self.now.objects id).refs }
    {
        match self.objects.get(id) {
            Ok(object) => object.refs.as_slice(),
            Err(_) => &[],
        }
    }
}
