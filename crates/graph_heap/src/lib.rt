//! The graph heap: the commands of mutators, their replies, and a slow, plain heap that never moves or frees an object.
//! All other crates are proved against it.
#![tactic(auto)]

pub mod admission;
pub mod command;
mod laws;
pub mod no_memory;
pub mod reachability;
pub mod reference;
mod stored;

pub use admission::{admit, live_row, set_live};
pub use command::{
    ARRAY_CELLS, Change, Command, Entry, Limits, PLAIN_CELLS, Refusal, Reply, Shape,
};
pub use laws::{cells_are_bounded, one_more, one_step, shapes_stand};
pub use no_memory::NoMemory;
pub use reachability::{
    Found, Holder, Route, Search, Standing, Step, holder, present, search, shortest_path,
};
pub use reference::Reference;
