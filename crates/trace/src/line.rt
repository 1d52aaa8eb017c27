//! Lines of a trace.
ghost use Rattle.std.specs.Prelude.{◌≡◌, IfSome};
ghost use Rattle.trace.specs.declared.line.Line.{Line};
ghost use Rattle.trace.specs.Spelling.{is_skipped, Spells};
ghost use Rattle.trace.specs.Reading.{collector_in, line_in};
ghost use Rattle.trace.specs.Numbered.{LineRead};
ghost use Rattle.trace.specs.TextLine.{text_in};

use crate::commands::mutator_and_command;
use crate::fault::{LineFault, PlayFault};
use crate::field::{Spelled, cut};
use crate::text_line::TextLine;
use crate::version::Version;
use graph_heap::Command;
use quanta::CLOCK_LIMIT;
use size_classes::{LEAST_BUDGET, MOST_BUDGET};

/// The meaning of a line of a trace.
#[derive(Clone, Copy, Debug, PartialEq, Eq)]
pub enum Line {
    /// Nothing: the line is empty or a comment.
    Skip,
    /// A command of a mutator.
    Command { mutator: u32, command: Command },
    /// A cycle begins.
    Begin,
    /// One quantum of this budget, in units.
    Quantum(u32),
    /// This many ticks pass.
    Tick(u64),
}

/// Reads a line for the collector.
#[tactic(auto, unfolding(crate::specs::Reading::collector_in))]
fn collector_line(bytes: &[u8]) -> Option<Line>
    ensures { result ≡ collector_in bytes.now }
{
    if bytes == b"begin".as_slice() {
        return Some(Line::Begin);
    }
    let (name, rest) = cut(b' ', bytes)?;
    let n = u64::read(rest)?;
    let budgets = u64::from(LEAST_BUDGET)..=u64::from(MOST_BUDGET);
    if name == b"quantum".as_slice() && budgets.contains(&n) {
        Some(Line::Quantum(n as u32))
    } else if name == b"tick".as_slice() && 1 <= n && n <= CLOCK_LIMIT {
        Some(Line::Tick(n))
    } else {
        None
    }
}

/// Returns whether a line is skipped: it is empty, or a comment.
pub fn is_skipped(bytes: &[u8]) -> bool
    ensures { result ≡ is_skipped bytes.now }
{
    matches!(bytes, [] | [b'#', ..])
}

#[tactic(auto, unfolding(crate::specs::Reading::line_in))]
#[inline(always)]
fn meaning(version: Version, bytes: &[u8]) -> Option<Line>
    ensures { result ≡ line_in version bytes.now }
{
    if is_skipped(bytes) {
        return Some(Line::Skip);
    }
    match bytes {
        [b'0'..=b'9', ..] => {
            let (mutator, command) = mutator_and_command(version, bytes)?;
            Some(Line::Command { mutator, command })
        }
        _ => collector_line(bytes),
    }
}

/// Reads a line of a trace of a version, without its LF. The line that tells the version isn't read here. Returns
/// None if no line is spelled so.
#[inline(always)]
pub fn read_line(version: Version, bytes: &[u8]) -> Option<Line>
    // The line that is returned is spelled so, each byte of it.
    ensures found { IfSome result (λ line. Spells version bytes.now line) }
    // A line that is spelled so is returned. So the result is None only if no line is spelled so.
    ensures only { (line : Line) → Spells version bytes.now line → result ≡ Some line }
{
    meaning(version, bytes)
}

/// Reads a line of a trace. Returns None for the line that tells the version of the lines after it. A line that no
/// trace of its version may have is a fault.
#[inline(always)]
pub fn read_numbered(text: TextLine) -> Result<Option<Line>, PlayFault>
    ensures { LineRead (text_in text.entry) result }
{
    if text.tells_version() {
        return Ok(None);
    }
    match read_line(text.version, text.bytes) {
        Some(line) => Ok(Some(line)),
        None => Err(PlayFault::Line(text.number, LineFault::NotAnEvent)),
    }
}
