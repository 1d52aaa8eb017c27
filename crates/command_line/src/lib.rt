//! The words of the command line.
#![tactic(auto)]

mod classes;
mod commands;
mod drawings;
mod fault;
mod job;
mod live;
mod pairs;
mod words;

pub use fault::WordsFault;
pub use job::{Asked, Drawing, Form, Job, LiveData, Objects, Program, Report, Sizing, Words};
pub use words::read_words;
