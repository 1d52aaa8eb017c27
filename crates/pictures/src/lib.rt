//! A run as data: the data of a page in a browser, as JSON; the run's events; the objects that can be reached, as a
//! graph.
#![tactic(auto)]

mod allocated;
mod cycle_spans;
mod data;
mod events;
pub mod graph;
mod json;
pub mod laws;
mod measuring;
mod page_counts;
mod paths;
mod quantum_log;
mod refusals;
mod run_log;
mod sample;
mod sampler;
mod share;
mod tables;
mod writing;

pub use data::run_data;
pub use events::draw_events;
pub use json::{JsonRow, row, table};
pub use paths::path_text;
pub use sample::{MOST_SAMPLES, Phases, Sample};
pub use share::{Share, WINDOWS};
