//! The explanation of a refused line, for a user who asks for more than its fault.
mod fields;
mod odd_bytes;
mod rows;

use crate::fault::LineFault;
use crate::line::{Line, read_line};
use crate::line_reader::LONGEST;
use crate::text_line::TextLine;
use crate::version::{Version, version_line};
use fields::{Part, WrongFields};
use odd_bytes::odd_byte;
use quanta::CLOCK_LIMIT;
use std::fmt;

/// A refused line. Its text form explains the fault.
#[derive(Clone, Copy)]
pub struct Refused<'a> {
    pub text: TextLine<'a>,
    pub fault: LineFault,
    /// The number of mutators.
    pub mutators: u32,
}

impl fmt::Display for Refused<'_> {
    fn fmt<W: fmt::Write>(&self, f: &mut fmt::Formatter<W>) -> fmt::Result {
        match self.fault {
            LineFault::TooLong => write!(f, "a line has at most {LONGEST} bytes before its LF"),
            LineFault::NotEnded => {
                f.write_str("the input ends here, and each line ends in LF, the last one too")
            }
            LineFault::ClockSpent => write!(f, "the clock can't pass {CLOCK_LIMIT} ticks"),
            LineFault::NoSuchMutator => {
                let (count, last) = (self.mutators, self.mutators.saturating_sub(1));
                write!(
                    f,
                    "the configuration has mutators = {count}, which are 0 to {last}"
                )
            }
            LineFault::NotAnEvent => tell_misread(f, Part::Event, self.text),
            LineFault::NotACommand => tell_misread(f, Part::Command, self.text),
            LineFault::NotAnEntry => tell_misread(f, Part::EntryCommand, self.text),
        }
    }
}

/// Writes why a line isn't read, as one that begins with this part.
fn tell_misread<W: fmt::Write>(
    f: &mut fmt::Formatter<W>,
    part: Part,
    line: TextLine,
) -> fmt::Result {
    if line.bytes == version_line() {
        return f.write_str("the version is told by the first line, and by no other");
    }
    if let Some(odd) = odd_byte(line.bytes) {
        return write!(f, "{odd}");
    }
    let text = std::str::from_utf8(line.bytes).unwrap_or("");
    match part {
        Part::EntryCommand => tell_entry(f, line.version, text),
        Part::Command if is_for_collector(line.bytes) => f.write_str(
            "it is for the collector, and scripts have commands of mutators alone",
        ),
        _ => {
            let wrong = WrongFields { part, text };
            write!(f, "{wrong}")
        }
    }
}

/// Returns whether a line is for the collector.
fn is_for_collector(line: &[u8]) -> bool {
    matches!(
        read_line(Version::Second, line),
        Some(Line::Begin | Line::Quantum(_) | Line::Tick(_))
    )
}

/// Writes the fault of an entry: of its command, or if that is right, of its reply.
fn tell_entry<W: fmt::Write>(
    f: &mut fmt::Formatter<W>,
    version: Version,
    text: &str,
) -> fmt::Result {
    let Some((command, reply)) = text.split_once(" => ") else {
        return f.write_str("an entry is a command, ' => ' and a reply, and it has no ' => '");
    };
    let line = read_line(version, command.as_bytes());
    let wrong = if matches!(line, Some(Line::Command { .. })) {
        WrongFields {
            part: Part::Reply,
            text: reply,
        }
    } else {
        WrongFields {
            part: Part::EntryCommand,
            text: command,
        }
    };
    write!(f, "{wrong}")
}
