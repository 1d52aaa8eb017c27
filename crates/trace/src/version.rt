//! The version of a text: which commands its lines may have.
ghost use Rattle.std.specs.Prelude.{◌≡◌, ◌↔◌, IsTrue};
ghost use Rattle.trace.specs.Spelling.{version_line, TellsVersion};

/// The version of a trace, of a history or of scripts.
#[derive(Clone, Copy, Debug, PartialEq, Eq)]
pub enum Version {
    /// No mutator joins or leaves. A text that tells no version has this one.
    First,
    /// Mutators join and leave. The first line tells it.
    Second,
}

/// Returns the line that tells the second version, without LF. It is the first line of its text.
pub fn version_line() -> &'static [u8]
    ensures { result.now ≡ version_line }
{
    b"version 2"
}

/// Returns whether a line of this number, from 1, tells that the lines after it have the second version: it is the
/// first line, and is `version 2`.
pub fn tells_version(number: u64, line: &[u8]) -> bool
    ensures { IsTrue result ↔ TellsVersion number line.now }
{
    number == 1 && line == version_line()
}
