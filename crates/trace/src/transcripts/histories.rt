//! Histories, checked against a graph heap.
ghost use Rattle.std.specs.Prelude.{◌≡◌, ◌+◌};
ghost use Rattle.trace.specs.LinesProcessed.{reads_failed};
ghost use Rattle.trace.specs.Streams.{Stays, given_by};
ghost use Rattle.trace.specs.TextLine.{text_in};
ghost use Rattle.trace.specs.Histories.{LineChecked, EntriesChecked};

use crate::{EntryLine, LineFault, LineReader, PlayFault, Source, TextLine, read_entry};
use graph_heap::Reference;

/// The outcome of checking a history.
#[derive(Clone, Copy, Debug, PartialEq, Eq)]
pub enum Checked {
    /// Each entry is a step of the graph heap at its place. This is the number of entries.
    Good(u64),
    /// The line with this number, from 1, has the first entry that isn't a step.
    Wrong(u64),
}

/// The outcome of one line.
#[derive(Clone, Copy)]
enum Outcome {
    /// It has no entry. It may tell the version.
    Skipped,
    /// Its entry is a step, and is done.
    Done,
    /// Its entry isn't a step.
    Wrong,
}

/// Checks one line, and does its entry if it is a step.
fn check_line(text: TextLine, reference: &mut Reference) -> Result<Outcome, PlayFault>
    ensures { LineChecked (text_in text.entry) reference.old reference.new result }
{
    if text.tells_version() {
        return Ok(Outcome::Skipped);
    }
    let Some(line) = read_entry(text.version, text.bytes) else {
        return Err(PlayFault::Line(text.number, LineFault::NotAnEntry));
    };
    let EntryLine::Entry(entry) = line else {
        return Ok(Outcome::Skipped);
    };
    if reference.accepts(&entry)? {
        Ok(Outcome::Done)
    } else {
        Ok(Outcome::Wrong)
    }
}

/// Plays the entries of a source's lines on a graph heap, from its present state on, to the source's end or to the
/// first entry that isn't a step. It looks at no line after that. The first line may tell the version. The graph heap
/// is left as it is after the entries before the end.
pub fn check_entries<S: Source>(
    source: &mut S,
    reference: &mut Reference,
) -> Result<Checked, PlayFault>
    ensures checked { EntriesChecked
        (given_by S.given S.ended source.old source.new) reference.old reference.new result }
    ensures reads { S.failures source.new ≡ S.failures source.old + reads_failed result }
    ensures input { reads_failed result ≡ 0 → Stays (S.input source.old) (S.input source.new) }
{
    let mut reader = LineReader::new();
    let mut good = 0;
    while reader.next_line(source)? {
        match check_line(reader.text(), reference)? {
            Outcome::Skipped => {}
            Outcome::Done => good += 1,
            Outcome::Wrong => return Ok(Checked::Wrong(reader.number())),
        }
    }
    Ok(Checked::Good(good))
}
