//! The cycles of a run, each with its figures.
mod cycle;
mod log;
mod made;
mod observing;
mod open;
mod surveying;
mod text;
mod turn;

pub use cycle::{Cycle, Cycles, Sweep};
pub use log::Log;
pub use text::{Layout, cycles_text, figures};
