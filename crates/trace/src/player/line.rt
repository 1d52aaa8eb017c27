//! One line of a trace.
ghost use Rattle.std.specs.Prelude.{◌≡◌, ◌+◌, ◌≤◌, ◌++◌, OnOk, OnErr};
ghost use Rattle.trace.specs.Streams.{failed, GrowsByPart};
ghost use Rattle.trace.specs.LinesProcessed.{reads_failed, writes_failed};
ghost use Rattle.trace.specs.TextLine.{text_in};
ghost use Rattle.trace.specs.declared.version.Version.TheVariants as versions;
ghost use Rattle.trace.specs.Player.{HasBudget};
ghost use Rattle.trace.specs.Playing.{session, written_line, written_version, says_event, LinePlayed};
ghost use Rattle.trace.specs.Observing.{observed, LineObserved};

use crate::player::Player;
use crate::player::observer::Observer;
use crate::player::style::Style;
use crate::{
    Line, PlayFault, Sink, TextLine, WriteFailed, end_line, put, read_numbered, version_line,
    write_entry, write_reply,
};
use graph_heap::Entry;

/// Writes the line of an entry to a sink, in a style. The line is made in an array.
#[inline(always)]
fn tell_entry<K: Sink>(
    entry: &Entry,
    style: Style,
    out: &mut [u8; 256],
    sink: &mut K,
) -> Result<(), WriteFailed>
    ensures ok { OnOk result (K.taken sink.new ≡ K.taken sink.old ++ written_line style entry.now) }
    ensures err { OnErr result (GrowsByPart (K.taken sink.old) (K.taken sink.new) (written_line style entry.now)) }
    ensures sent { K.sent sink.old ≤ K.sent sink.new }
    ensures cause { K.failures sink.new ≡ K.failures sink.old + failed result }
{
    let end = match style {
        Style::Replies => write_reply(&entry.reply, out, 0),
        Style::Entries => {
            // Makes a copy, so that the entry isn't in memory if only its reply is written.
            let copy = *entry;
            write_entry(&copy, out)
        }
        Style::Nothing => return Ok(()),
    };
    end_line(sink, out, end)
}

/// Writes the line that tells the version to a sink, in a style. The line is made in an array.
#[inline(never)]
fn tell_version<K: Sink>(style: Style, out: &mut [u8; 256], sink: &mut K) -> Result<(), WriteFailed>
    ensures ok { OnOk result (K.taken sink.new ≡ K.taken sink.old ++ written_version versions.Second style) }
    ensures err { OnErr result (GrowsByPart (K.taken sink.old) (K.taken sink.new)
        (written_version versions.Second style)) }
    ensures sent { K.sent sink.old ≤ K.sent sink.new }
    ensures cause { K.failures sink.new ≡ K.failures sink.old + failed result }
{
    match style {
        Style::Entries => {
            let end = put(out.as_mut_slice(), 0, version_line());
            end_line(sink, out, end)
        }
        Style::Replies | Style::Nothing => Ok(()),
    }
}

/// Does a line of this number, and reports its events to the observer.
#[inline(always)]
pub fn do_line<O: Observer>(
    line: Line,
    number: u64,
    player: &mut Player,
    observer: &mut O,
) -> Result<(), PlayFault>
    requires { HasBudget line }
    ensures done { LineObserved O.has_seen O.may_be_refused line number (observed player.old observer.old)
        (observed player.new observer.new) result }
    // It makes no write that could fail, and no read.
    ensures calls { (writes_failed result ≡ 0) × (reads_failed result ≡ 0) }
{
    match line {
        Line::Skip => {}
        Line::Command { mutator, command } => {
            let receipt = player.call(mutator, command)?;
            observer.command_done(receipt.entry())?;
        }
        Line::Begin => player.begin(number, observer)?,
        Line::Quantum(budget) => player.quantum(budget, observer),
        Line::Tick(ticks) => {
            if let Err(why) = player.tick(ticks, observer) {
                return Err(why.at_line(number));
            }
        }
    }
    Ok(())
}

/// Returns whether a line is that of an event. All lines are, except skipped ones.
#[inline(always)]
pub fn is_event(line: Line) -> bool
    ensures { result ≡ says_event line }
{
    !matches!(line, Line::Skip)
}

/// Does a line, and writes its entries to a sink; the text is made in an array. Returns whether the line is that of
/// an event.
#[inline(always)]
pub fn play_line<K: Sink>(
    text: TextLine,
    style: Style,
    player: &mut Player,
    out: &mut [u8; 256],
    sink: &mut K,
) -> Result<bool, PlayFault>
    ensures played { LinePlayed style (text_in text.entry) (session player.old (K.taken sink.old))
        (session player.new (K.taken sink.new)) result }
    ensures sent { K.sent sink.old ≤ K.sent sink.new }
    ensures reads { reads_failed result ≡ 0 }
    ensures writes { K.failures sink.new ≡ K.failures sink.old + writes_failed result }
{
    let Some(line) = read_numbered(text)? else {
        tell_version(style, out, sink)?;
        return Ok(false);
    };
    if let Line::Command { mutator, command } = line {
        let receipt = player.call(mutator, command)?;
        tell_entry(receipt.entry(), style, out, sink)?;
        return Ok(true);
    }
    do_line(line, text.number, player, &mut ())?;
    Ok(is_event(line))
}
