//! Whose ranges settings are held to.
ghost use Rattle.std.specs.Prelude.{◌≡◌};
ghost use Rattle.size_classes.specs.Keys.{most_pages};

use crate::config::{MOST_HEAP_PAGES, MOST_PAGES};

/// Whose settings they are. A program that calls the library may ask for more pages than a configuration
/// file; all other ranges are the same.
#[derive(Clone, Copy, Debug, PartialEq, Eq)]
pub enum Ranges {
    /// The ranges of a configuration file.
    File,
    /// Those of a program that calls the library.
    Library,
}

impl Ranges {
    /// Returns the most pages that may be asked for.
    pub fn most_pages(self) -> u32
        ensures { result ≡ most_pages self }
    {
        match self {
            Ranges::File => MOST_PAGES,
            Ranges::Library => MOST_HEAP_PAGES,
        }
    }
}
