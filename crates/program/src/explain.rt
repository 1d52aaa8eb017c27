//! Writes more lines about the fault of a run, if its words ask for explanations. They are found in what the run has
//! read, as far as memory and the error stream allow.
ghost use Rattle.std.specs.Prelude.{◌≡◌, IsNone};

mod config;

use crate::fault::{Ending, RunFault};
use crate::notes::Notes;
use command_line::Words;
use config::explain_config;
use std::alloc::Global;
use std::fmt;
use std::io::{self, Write};
use trace::{EntryLine, LineFault, PlayFault, Quoted, Refused, TextLine, read_entry, write_reply};

/// The name of the file of a trace, of scripts or of a history. It is displayed in quotes, or as `standard input`.
#[derive(Clone, Copy)]
struct Origin<'a>(&'a str);

impl fmt::Display for Origin<'_> {
    fn fmt<W: fmt::Write>(&self, f: &mut fmt::Formatter<W>) -> fmt::Result {
        if self.0 == "-" {
            return f.write_str("standard input");
        }
        let quoted = Quoted(self.0.as_bytes());
        write!(f, "{quoted}")
    }
}

/// Explains how a run ended, if its words asked for that.
pub fn explain<E: Write>(
    alloc: Global,
    errors: &mut E,
    notes: Notes,
    how: &Result<Ending, RunFault>,
) -> io::Result<()>
    ensures { IsNone notes.entry.words → errors.new ≡ errors.old }
{
    let Some(words) = notes.words else {
        return Ok(());
    };
    match how {
        Ok(Ending::Done) => Ok(()),
        Ok(Ending::WrongReply) => explain_reply(errors, words, notes),
        Err(RunFault::Config(fault)) => {
            let bytes = notes.document.as_deref().unwrap_or(&[]);
            explain_config(alloc, errors, config_name(words, &notes), bytes, *fault)
        }
        Err(RunFault::Text(PlayFault::Line(number, fault))) => {
            explain_line(errors, words, &notes, *number, *fault)
        }
        Err(RunFault::Text(PlayFault::Read)) => explain_unread(errors, words, &notes),
        Err(RunFault::Text(PlayFault::Write)) => {
            writeln!(errors, "metronome: a write to standard output failed")
        }
        Err(RunFault::Words(_) | RunFault::NotComplete | RunFault::Text(PlayFault::NoMemory)) => {
            Ok(())
        }
    }
}

/// Returns the name of the configuration that was read last.
fn config_name<'a>(words: Words<'a>, notes: &Notes) -> &'a str {
    match (notes.config, words.compare) {
        (Some(_), Some(name)) => name,
        _ => words.config,
    }
}

/// Writes a line, its number and its file.
fn tell_line<E: Write>(errors: &mut E, words: Words, text: TextLine) -> io::Result<()> {
    let (number, origin) = (text.number, Origin(words.file.unwrap_or("-")));
    let line = Quoted(text.bytes);
    writeln!(errors, "metronome: line {number} of {origin} is {line}")
}

/// Writes a refused line and its fault.
fn explain_line<E: Write>(
    errors: &mut E,
    words: Words,
    notes: &Notes,
    number: u64,
    fault: LineFault,
) -> io::Result<()> {
    let (Some(tail), Some(config)) = (&notes.text, &notes.config) else {
        return Ok(());
    };
    let Some(text) = tail.line(number) else {
        return Ok(());
    };
    tell_line(errors, words, text)?;
    let refused = Refused {
        text,
        fault,
        mutators: config.mutators,
    };
    writeln!(errors, "metronome: {refused}")
}

/// Writes the first wrong entry of a history, and the reply that was due there.
fn explain_reply<E: Write>(errors: &mut E, words: Words, notes: Notes) -> io::Result<()> {
    let (Some(tail), Some(mut wrong)) = (notes.text, notes.wrong) else {
        return Ok(());
    };
    let Some(text) = tail.line(wrong.number) else {
        return Ok(());
    };
    tell_line(errors, words, text)?;
    let Some(EntryLine::Entry(entry)) = read_entry(text.version, text.bytes) else {
        return Ok(());
    };
    let Ok(reply) = wrong.before.reply(entry.mutator, &entry.command) else {
        return Ok(());
    };
    let mut out = [0; 256];
    let end = write_reply(&reply, &mut out, 0);
    let due = Quoted(&out[..end]);
    writeln!(errors, "metronome: the reply that was due is {due}")
}

/// Writes which file can't be read, and the system's error. If the configurations were read, the other file is meant. Also
/// writes that a configuration is never read from standard input, if its name is `-`.
fn explain_unread<E: Write>(errors: &mut E, words: Words, notes: &Notes) -> io::Result<()> {
    let config = config_name(words, notes);
    if notes.are_configs_read {
        let origin = Origin(words.file.unwrap_or("-"));
        write!(errors, "metronome: {origin} can't be read")?;
    } else {
        let name = Quoted(config.as_bytes());
        write!(errors, "metronome: {name} can't be read")?;
    }
    if let Some(error) = notes.error {
        write!(errors, ": {error}")?;
    }
    writeln!(errors, "")?;
    if config == "-" {
        writeln!(
            errors,
            "metronome: a configuration is never read from standard input"
        )?;
    }
    Ok(())
}
