//! The jobs of the program: from words to what each reads and writes, and its status.
#![tactic(auto)]

mod after;
mod answer_job;
mod configs;
mod demand_job;
mod explain;
mod fault;
mod files;
mod jobs;
mod measuring;
mod names;
mod notes;
mod plan_job;
mod progress;
mod room;
pub mod run;
mod tail;
mod told;
mod two_runs;

pub use fault::{Ending, RunFault};
pub use files::{HostFiles, Opener};
