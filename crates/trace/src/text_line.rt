//! A line of an input as text.
ghost use Rattle.std.specs.Prelude.{◌↔◌, IsTrue};
ghost use Rattle.trace.specs.TextLine.{text_in, IsVersionLine, IsNextVersion};

use crate::version::{Version, tells_version};

/// A line of an input, without its LF.
#[derive(Clone, Copy)]
pub struct TextLine<'a> {
    pub bytes: &'a [u8],
    /// Its number, counted from 1.
    pub number: u64,
    /// Its version.
    pub version: Version,
}

impl TextLine<'_> {
    /// Returns whether it tells the version of the lines after it.
    #[inline(always)]
    pub fn tells_version(&self) -> bool
        ensures { IsTrue result ↔ IsVersionLine (text_in self.now) }
    {
        tells_version(self.number, self.bytes)
    }

    /// Returns the version of the line after it.
    #[inline(always)]
    pub fn next_version(&self) -> Version
        ensures { IsNextVersion (text_in self.now) result }
    {
        if self.tells_version() {
            Version::Second
        } else {
            self.version
        }
    }
}
