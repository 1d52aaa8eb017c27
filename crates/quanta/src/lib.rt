//! The schedule of the collector's quanta: a clock of ticks, when quanta are due, and the intervals
//! that they took. The mutators have a least number of ticks between two intervals.
#![tactic(auto)]

pub mod clock_spent;
pub mod interval;
pub mod laws;
pub mod schedule;

pub use clock_spent::ClockSpent;
pub use interval::Interval;
pub use schedule::{CLOCK_LIMIT, Schedule};
