//! An object that can be reached.

/// The root or the cell that holds a reference.
#[derive(Clone, Copy, Debug, PartialEq, Eq)]
pub enum Holder {
    /// A root, by its place in the row of roots, from 0: the slots of mutator 0, of mutator 1 and so on, and
    /// then the statics.
    Root(usize),
    /// A reference cell of an object, by the object's identity and the cell's index, from 0.
    Cell { object: u64, cell: usize },
}

/// An object that can be reached.
#[derive(Clone, Copy, Debug, PartialEq, Eq)]
pub struct Found {
    /// Its identity.
    pub id: u64,
    /// How many reference cells a shortest path to it goes through.
    pub distance: u64,
    /// The last holder of a shortest path: it holds the object.
    pub holder: Holder,
}
