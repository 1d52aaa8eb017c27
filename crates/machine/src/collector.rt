//! The replies of the collector.
use heap_model::phase::Phase;
use thiserror::Error;

/// A cycle is running already. Its number among the refusals is 11.
#[derive(Clone, Copy, Debug, PartialEq, Eq, Error)]
#[error("busy")]
pub struct Busy;

/// The budget of a quantum isn't `LEAST_BUDGET` to `MOST_BUDGET`. Its number among the refusals is 12.
#[derive(Clone, Copy, Debug, PartialEq, Eq, Error)]
#[error("budget out of range")]
pub struct BudgetOutOfRange;

/// The work of one quantum: the units that it spent, and the phase in which it ended.
#[derive(Clone, Copy, Debug, PartialEq, Eq)]
pub struct Spent {
    pub units: u32,
    pub phase: Phase,
}
