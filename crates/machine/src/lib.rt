//! The heap itself. A command is planned by reading the words of the heap, and then done by one write.
#![tactic(auto)]

pub mod collector;
pub mod event;
pub mod heap;
mod laws;
mod plan;
pub mod recorded;

pub use collector::{BudgetOutOfRange, Busy, Spent};
pub use event::Event;
pub use heap::Heap;
pub use laws::{calls_are_events, courses_are_promised, moves_make_one_old, space_sufficed};
pub use recorded::{Receipt, Recorded};
