//! The figures of a cycle.

/// The figures of a cycle's sweep, by the heap after the quantum in which it ended, or by the history up to there.
#[derive(Clone, Copy, Debug, PartialEq, Eq)]
pub struct Sweep {
    /// How many objects were freed.
    pub freed: u128,
    /// How many blocks were freed: those of objects, and old copies.
    pub blocks: u128,
    /// How many objects were kept.
    pub kept: u64,
    /// How many pages were free when the cycle began.
    pub free_before: u64,
    /// How many pages were free when its sweep had ended.
    pub free_after: u64,
    /// How many objects were made from the cycle's beginning to the end of its sweep.
    pub made: u64,
}

/// A cycle of a run.
#[derive(Clone, Copy, Debug, PartialEq, Eq)]
pub struct Cycle {
    /// The number of the line that began it, from 1.
    pub line: u64,
    /// How many quanta found it running.
    pub quanta: u64,
    /// How many units they spent.
    pub units: u64,
    /// The most units that one of them spent.
    pub longest: u64,
    /// How many blocks were moved, once its sweep has ended.
    pub moved: Option<u64>,
    /// The figures of its sweep, once that has ended.
    pub sweep: Option<Sweep>,
}

/// The cycles of a run, the first one first.
#[derive(Debug, Drop)]
pub struct Cycles {
    pub items: Vec<Cycle>,
}
