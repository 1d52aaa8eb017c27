//! A source that counts the lines read, and keeps the end of its text.
ghost use Rattle.std.specs.Prelude.{◌≡◌, ◌*◌, ◌<◌, ◌≤◌, [], true, OnOk};
ghost use Rattle.std.specs.Io.KnownBytes.{Appends};
ghost use Rattle.program.specs.Progress.{line_ends, progress_line};

use crate::tail::{Tail, count_line_ends};
use std::io::{self, Write};
use trace::{ReadFailed, Source};

/// The number of lines at which the first report comes.
const FIRST_TOLD: u64 = 65536;

/// Reports that this many lines were read.
fn tell_lines<W: Write>(errors: &mut W, lines: u64) -> io::Result<()>
    ensures { OnOk result (Appends (W.contents errors.old) (W.contents errors.new) (progress_line lines)) }
{
    writeln!(errors, "metronome: {lines} lines read")
}

/// Adds the next bytes of a text to its tail. Drops the tail if memory is refused.
fn keep(tail: &mut Option<Tail>, bytes: &[u8]) {
    let is_lost = match tail {
        Some(tail) => tail.take(bytes).is_err(),
        None => false,
    };
    if is_lost {
        *tail = None;
    }
}

/// Gives the bytes of another source. It counts their lines, if `counts` says so, and reports the number on an error
/// stream, at 65536 lines and at each doubling. It keeps the end of the bytes, if it has a tail. Neither a failed write
/// to that stream nor refused memory changes the bytes.
#[derive(Drop)]
pub struct ToldSource<S: Source + Drop, W: Write + Drop> {
    source: S,
    errors: W,
    /// Whether lines are counted.
    counts: bool,
    /// The number of line ends given, if they are counted.
    lines: u64,
    /// Half the number of lines at which the next report comes.
    half: u64,
    /// The end of the bytes given, if it is kept.
    tail: Option<Tail>,
    ghost counted: { counts ≡ true → lines ≡ line_ends (S.given source) },
}

impl<S: Source + Drop, W: Write + Drop> ToldSource<S, W> {
    /// Wraps a source that has given nothing yet.
    pub fn new(source: S, errors: W, counts: bool, tail: Option<Tail>) -> ToldSource<S, W>
        requires { S.given source ≡ [] }
        ensures source { result.source ≡ source }
        ensures errors { result.errors ≡ errors }
        ensures counts { result.counts ≡ counts }
        ensures tail { result.tail ≡ tail }
        ensures half { result.half ≡ 32768 }
    {
        ToldSource {
            source,
            errors,
            counts,
            lines: 0,
            half: FIRST_TOLD / 2,
            tail,
        }
    }

    /// If the number of lines at which a report is due was read, reports that number and doubles it.
    fn tell(&mut self) -> io::Result<()>
        ensures source { self.new.source ≡ self.old.source }
        ensures early { self.old.lines < self.old.half * 2 → self.new ≡ self.old }
        ensures next { self.old.half * 2 ≤ self.old.lines → self.new.half ≡ self.old.half * 2 }
        ensures told { self.old.half * 2 ≤ self.old.lines
            → OnOk result (Appends (W.contents self.old.errors) (W.contents self.new.errors)
            (progress_line (self.old.half * 2))) }
    {
        if self.lines / 2 < self.half {
            return Ok(());
        }
        self.half *= 2;
        tell_lines(&mut self.errors, self.half)
    }

    /// Returns the end of the bytes given, if it was kept.
    pub fn into_tail(self) -> Option<Tail>
        ensures { result ≡ self.tail }
    {
        self.tail
    }
}

impl<S: Source + Drop, W: Write + Drop> Source for ToldSource<S, W> {
    ghost given = { λ s. S.given s.source };

    ghost ended = { λ s. S.ended s.source };

    ghost failures = { λ s. S.failures s.source };

    ghost input = { λ s. S.input s.source };

    ghost few = { λ s. S.few s.source };

    ghost begins = { λ s. S.begins s.source };

    fn read(&mut self, buffer: &mut [u8]) -> Result<usize, ReadFailed> {
        let n = self.source.read(buffer)?;
        keep(&mut self.tail, &buffer[..n]);
        if self.counts {
            self.lines += count_line_ends(&buffer[..n]);
            let _ = self.tell();
        }
        Ok(n)
    }

    fn error(&self) -> Option<io::Error> {
        self.source.error()
    }
}
