//! The words of blocks for which a plan has room.

/// Words of blocks for which a plan has room, headers included.
#[derive(Clone, Copy, Debug, PartialEq, Eq)]
pub struct Needs {
    /// Those of live objects, whenever a cycle begins.
    pub live: u64,
    /// Those of the largest object, besides the words of each quantum.
    pub largest: u64,
}
