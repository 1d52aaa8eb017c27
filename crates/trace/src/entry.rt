//! Lines of a history.
ghost use Rattle.std.specs.Prelude.{◌≡◌, IfSome, option_map};
ghost use Rattle.trace.specs.declared.entry.EntryLine.{EntryLine};
ghost use Rattle.trace.specs.Spelling.{SpellsEntry};
ghost use Rattle.trace.specs.Reading.{before_blank_in, arrow_in, entry_in, entry_line_in};

use crate::commands::mutator_and_command;
use crate::field::{after, cut};
use crate::line::is_skipped;
use crate::replies::reply;
use crate::version::Version;
use graph_heap::Entry;

/// The meaning of a line of a history.
#[derive(Clone, Copy, Debug, PartialEq, Eq)]
pub enum EntryLine {
    /// Nothing: the line is empty or a comment.
    Skip,
    /// A command with its mutator and its reply.
    Entry(Entry),
}

/// Returns the bytes before the blank at the end, if there is one.
#[tactic(auto, unfolding(crate::specs::Reading::before_blank_in))]
fn before_blank(bytes: &[u8]) -> Option<&[u8]>
    ensures { option_map (λ b. b.now) result ≡ before_blank_in bytes.now }
{
    bytes.strip_suffix(b" ".as_slice())
}

/// Returns the bytes before the arrow ` => `, and those after it.
#[tactic(auto, unfolding(crate::specs::Reading::arrow_in))]
fn arrow(bytes: &[u8]) -> Option<(&[u8], &[u8])>
    ensures { option_map (λ c. (c.0.now, c.1.now)) result ≡ arrow_in bytes.now }
{
    let (front, back) = cut(b'=', bytes)?;
    let front = before_blank(front)?;
    let back = after(b"> ", back)?;
    Some((front, back))
}

/// Reads an entry.
#[tactic(auto, unfolding(crate::specs::Reading::entry_in))]
fn entry(version: Version, bytes: &[u8]) -> Option<Entry>
    ensures { result ≡ entry_in version bytes.now }
{
    let (front, back) = arrow(bytes)?;
    let (mutator, command) = mutator_and_command(version, front)?;
    let reply = reply(back)?;
    Some(Entry {
        mutator,
        command,
        reply,
    })
}

#[tactic(auto, unfolding(crate::specs::Reading::entry_line_in))]
fn meaning(version: Version, bytes: &[u8]) -> Option<EntryLine>
    ensures { result ≡ entry_line_in version bytes.now }
{
    if is_skipped(bytes) {
        return Some(EntryLine::Skip);
    }
    let e = entry(version, bytes)?;
    Some(EntryLine::Entry(e))
}

/// Reads a line of a history of a version, without its LF. The line that tells the version isn't read here. Returns
/// None if no line is spelled so.
pub fn read_entry(version: Version, bytes: &[u8]) -> Option<EntryLine>
    // The line that is returned is spelled so, each byte of it.
    ensures found { IfSome result (λ line. SpellsEntry version bytes.now line) }
    // A line that is spelled so is returned. So the result is None only if no line is spelled so.
    ensures only { (line : EntryLine) → SpellsEntry version bytes.now line → result ≡ Some line }
{
    meaning(version, bytes)
}
