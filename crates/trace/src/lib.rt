//! Traces and histories as text, read from a source and written to a sink; and the player, which does the lines of a
//! trace.
#![tactic(auto)]

mod commands;
pub mod entry;
mod fault;
mod field;
mod laws;
pub mod line;
pub mod line_handler;
pub mod line_reader;
mod misread;
mod player;
mod quoted;
mod replies;
pub mod streams;
mod text;
mod text_line;
pub mod transcripts;
mod version;
pub mod write;

pub use entry::{EntryLine, read_entry};
pub use fault::{LineFault, PlayFault};
pub use laws::{one_cutting, one_more_line};
pub use line::{Line, is_skipped, read_line, read_numbered};
pub use line_handler::{InputEnd, LineHandler, each_line};
pub use line_reader::LineReader;
pub use misread::Refused;
pub use player::{
    Mark, Observed, Observer, PhaseName, Player, QuantumStart, Style, Survey, TickFault, observe,
    play, play_first, play_up_to, plays_are_promised, survey_run,
};
pub use quoted::Quoted;
pub use streams::{
    BufferedSink, FailAt, MemorySink, MemorySource, ReadFailed, ReadSource, Sink, Source,
    WriteFailed, WriteSink, write_all,
};
pub use text::{end_line, put, put_named};
pub use text_line::TextLine;
pub use version::{Version, tells_version, version_line};
pub use write::{write_command, write_entry, write_reply};
