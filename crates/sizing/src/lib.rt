//! The need of a trace in each size class: it is played on a new heap. The graph heap is marked when each cycle begins,
//! and the blocks that are requested are counted.
#![tactic(auto)]

pub mod blocks;
mod measured;
mod meter;
mod most;
mod needed;
mod observing;
mod page_counts;
mod phases;
mod season;
mod surveying;

pub use measured::Measured;
pub use meter::Meter;
pub use needed::Needed;
pub use phases::in_cycle;
