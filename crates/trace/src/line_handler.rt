//! Going through the lines of an input.
ghost use Rattle.std.specs.Prelude.{◌≡◌, ℕ, ◌+◌, Result, OnOk};
ghost use Rattle.trace.specs.declared.fault.PlayFault.{PlayFault};
ghost use Rattle.trace.specs.LinesProcessed.{reads_failed};
ghost use Rattle.trace.specs.Streams.{Stays, given_by};
ghost use Rattle.trace.specs.TextLine.{Text, text_in};
ghost use Rattle.trace.specs.Handling.{LinesHandled};

use crate::Source;
use crate::fault::PlayFault;
use crate::line_reader::LineReader;
use crate::text_line::TextLine;
use crate::version::Version;

/// A handler of the lines of an input, which gets them one after the other.
pub trait LineHandler {
    /// The condition on the handler before the line of this number, from 1.
    ghost is_ready: { ℕ → Self → Type 0 };

    /// The effect of a line: the handler before and after it, and the outcome.
    ghost handles: { Text → Self → Self → Result (Unit {0}) PlayFault → Type 0 };

    /// Handles a line, and reads nothing.
    fn handle(&mut self, text: TextLine) -> Result<(), PlayFault>
        requires { is_ready text.number self.old }
        ensures handles { handles (text_in text.entry) self.old self.new result }
        ensures ready { OnOk result (is_ready (text.entry.number + 1) self.new) }
        ensures reads { reads_failed result ≡ 0 };
}

/// The end of an input.
#[derive(Clone, Copy, Debug, PartialEq, Eq)]
pub struct InputEnd {
    /// The number of its lines.
    pub lines: u64,
    /// The version that its first line tells.
    pub version: Version,
}

/// Hands the lines of a source to a handler, one after the other, to the source's end or the first fault. The first
/// line may tell the version.
pub fn each_line<S: Source, H: LineHandler>(
    source: &mut S,
    handler: &mut H,
) -> Result<InputEnd, PlayFault>
    requires { H.is_ready 1 handler.old }
    ensures handled { LinesHandled
        H.handles (given_by S.given S.ended source.old source.new) handler.old handler.new result }
    ensures reads { S.failures source.new ≡ S.failures source.old + reads_failed result }
    ensures input { reads_failed result ≡ 0 → Stays (S.input source.old) (S.input source.new) }
{
    let mut reader = LineReader::new();
    while reader.next_line(source)? {
        handler.handle(reader.text())?;
    }
    Ok(InputEnd {
        lines: reader.number(),
        version: reader.next_version(),
    })
}
