//! The end of the clock.
use thiserror::Error;

/// The clock would pass its limit. Its number among the refusals is 13.
#[derive(Clone, Copy, Debug, PartialEq, Eq, Error)]
#[error("clock spent")]
pub struct ClockSpent;
