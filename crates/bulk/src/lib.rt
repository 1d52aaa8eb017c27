//! Calls that do several commands in order, up to the first that is refused. They clear a row of slots, move a slot, read
//! or write words of an object, copy references between objects, or make an object with its first contents. Each call is
//! a list of events of a heap with its history (`bulk_calls_are_events`).
#![tactic(auto)]

mod commands;
mod laws;
mod making;
mod progress;
mod refs;
mod slots;
mod words;

pub use commands::Commands;
pub use laws::bulk_calls_are_events;
pub use making::{fill_made, new_with};
pub use progress::Progress;
pub use refs::copy_refs;
pub use slots::{clear_slots, move_slot};
pub use words::{get_words, put_words};
