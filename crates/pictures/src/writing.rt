//! Documents, written line by line.
ghost use Rattle.std.specs.Prelude.{◌≡◌, ◌≤◌, ◌<◌, ◌+◌, ◌++◌, ◌∷◌, ℕ, List, [], length, take, OnOk, OnErr};
ghost use Rattle.trace.specs.Streams.{GrowsByPart, failed};
ghost use Rattle.pictures.specs.Lines.{lines_text, present};

use trace::{Sink, WriteFailed, end_line};

/// A line of a document.
pub(crate) trait DocumentLine: Copy {
    /// The line, without its LF.
    ghost line: { Self → List ℕ };

    /// Puts it at the front of an array, and returns the place after it.
    fn put(self, out: &mut [u8]) -> usize
        requires { 256 ≤ length out.old }
        ensures text { take result out.new ≡ line self }
        ensures place { result < 256 };
}

/// Writes a line.
#[tactic(auto, unfolding(crate::specs::Lines::lines_text))]
pub(crate) fn write_line<K: Sink, L: DocumentLine>(sink: &mut K, line: L) -> Result<(), WriteFailed>
    ensures ok { OnOk result (K.taken sink.new ≡ K.taken sink.old ++ lines_text L.line (line ∷ [])) }
    ensures err { OnErr result (GrowsByPart (K.taken sink.old) (K.taken sink.new) (lines_text L.line (line ∷ []))) }
    ensures cause { K.failures sink.new ≡ K.failures sink.old + failed result }
{
    let mut out = [0; 256];
    let end = line.put(out.as_mut_slice());
    end_line(sink, &mut out, end)
}

/// Writes lines, one after the other.
pub(crate) fn write_lines<K: Sink, L: DocumentLine>(
    sink: &mut K,
    lines: &[L],
) -> Result<(), WriteFailed>
    ensures ok { OnOk result (K.taken sink.new ≡ K.taken sink.old ++ lines_text L.line lines.now) }
    ensures err { OnErr result (GrowsByPart (K.taken sink.old) (K.taken sink.new) (lines_text L.line lines.now)) }
    ensures cause { K.failures sink.new ≡ K.failures sink.old + failed result }
{
    for line in lines {
        write_line(sink, *line)?;
    }
    Ok(())
}

/// Writes those of some lines that are there, one after the other.
pub(crate) fn write_present<K: Sink, L: DocumentLine>(
    sink: &mut K,
    lines: &[Option<L>],
) -> Result<(), WriteFailed>
    ensures ok { OnOk result (K.taken sink.new ≡ K.taken sink.old ++ lines_text L.line (present lines.now)) }
    ensures err { OnErr result (GrowsByPart (K.taken sink.old) (K.taken sink.new)
        (lines_text L.line (present lines.now))) }
    ensures cause { K.failures sink.new ≡ K.failures sink.old + failed result }
{
    for line in lines {
        if let Some(line) = line {
            write_line(sink, *line)?;
        }
    }
    Ok(())
}
