//! Transcripts that are read whole: scripts, which are the commands of each mutator, and histories, which are checked
//! against a graph heap.
mod histories;
mod scripts;

pub use histories::{Checked, check_entries};
pub use scripts::read_scripts;
