//! The end of a text.
ghost use Rattle.std.specs.Prelude.{◌≡◌, ℕ, List, ◌++◌, None, OnOk};
ghost use Rattle.program.specs.Progress.{line_ends};

use std::alloc::{AllocError, Global};
use trace::line_reader::CAPACITY;
use trace::{TextLine, Version, tells_version};

/// The bytes for which memory is reserved.
const ROOM: usize = 2 * CAPACITY;

/// Counts the lines that end in these bytes.
pub fn count_line_ends(bytes: &[u8]) -> u64
    ensures { result ≡ line_ends bytes.now }
{
    bytes.iter().filter(|byte| **byte == b'\n').count() as u64
}

/// Keeps the end of a text that comes in pieces: at least as many bytes as a reader of lines holds at once. So the last
/// line that the reader returned or refused is among them.
#[derive(Drop)]
pub struct Tail {
    bytes: Vec<u8>,
    /// The number of lines that end before these bytes.
    before: u64,
    /// The version of the lines after the first, if the text doesn't begin with these bytes.
    version: Option<Version>,
}

impl Tail {
    /// Returns the tail of a text of which nothing has come yet, if there is memory for it.
    pub fn new(alloc: Global) -> Option<Tail> {
        let bytes = Vec::with_capacity(alloc, ROOM).ok()?;
        Some(Tail::whole(bytes))
    }

    /// Returns the tail that keeps all of a text.
    pub fn whole(bytes: Vec<u8>) -> Tail
        ensures { result ≡ record { bytes = bytes; before = 0; version = None } }
    {
        Tail {
            bytes,
            before: 0,
            version: None,
        }
    }

    /// Adds the next bytes of the text.
    pub fn take(&mut self, piece: &[u8]) -> Result<(), AllocError>
        // The bytes that are kept end with these.
        ensures { OnOk result ((front : List ℕ) × (self.new.bytes.items ≡ front ++ piece.now)) }
    {
        if piece.len() > ROOM.saturating_sub(self.bytes.len()) {
            self.forget();
        }
        self.bytes.extend_from_slice(piece)
    }

    /// Drops all bytes except the last ones, as many as a reader of lines holds at once.
    fn forget(&mut self) {
        self.version = Some(self.version_behind());
        let end = self.bytes.len();
        let start = end.saturating_sub(CAPACITY);
        let lines = count_line_ends(&self.bytes[..start]);
        self.before = self.before.saturating_add(lines);
        self.bytes.copy_within(start..end, 0);
        self.bytes.truncate(end - start);
    }

    /// Returns the version of the lines after the first.
    fn version_behind(&self) -> Version {
        if let Some(version) = self.version {
            return version;
        }
        let mut lines = self.bytes.split(|byte| *byte == b'\n');
        match (lines.next(), lines.next()) {
            (Some(first), Some(_)) if tells_version(1, first) => Version::Second,
            _ => Version::First,
        }
    }

    /// Returns the line of this number, counted from 1, as far as it has come; None if its beginning isn't among these
    /// bytes.
    pub fn line(&self, number: u64) -> Option<TextLine<'_>> {
        let place = number.checked_sub(self.before)?.checked_sub(1)?;
        let mut lines = self.bytes.split(|byte| *byte == b'\n');
        let bytes = lines.nth(place as usize)?;
        let version = if number == 1 {
            Version::First
        } else {
            self.version_behind()
        };
        Some(TextLine {
            bytes,
            number,
            version,
        })
    }
}
