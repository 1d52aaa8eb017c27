//! A heap that threads share, with its collector: one lock, a seat for each mutator, and one pacer of the
//! collector.
#![tactic(auto)]

mod fault;
mod gate;
mod locked;
mod naming;
mod place;
mod play;
mod server;
mod workers;

pub use fault::ServerFault;
pub use gate::{Gate, OpenGate};
pub use locked::{Locked, Pacer, Seat};
pub use naming::{Begun, Calls, Ended, Naming, Opening, Units};
pub use place::{Front, HistoryLength, Opened};
pub use play::{Outcome, play_threads};
pub use server::Server;

#[cfg(test)]
mod tests;
