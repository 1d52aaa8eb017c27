//! The heap for C: a handle of a heap of its own or of a member of a shared one, and one function for each call on it.
#![tactic(auto)]

mod answer;
mod block;
mod bulk_calls;
mod checking;
mod collector;
mod commands;
mod entry;
mod figures;
mod handle;
mod held;
mod keeping;
mod laws;
mod lifetime;
mod limit;
mod metronome;
mod object_words;
mod own_heap;
mod own_lists;
mod page;
mod phase;
mod planning;
mod preparing;
mod replying;
mod seated;
mod sharing;
mod sharing_laws;
mod status;
mod text;
mod touching;
