//! Worked rows: the words, the texts, and what the run writes.
pub mod collecting;
pub mod telling;

/// A row: a configuration and another text, the words of a run on them, what it writes, and its exit status.
pub struct Row {
    pub words: &'static [&'static str],
    pub config: &'static str,
    pub text: &'static str,
    pub output: &'static str,
    pub errors: &'static str,
    pub status: u8,
}

/// Four pages, for two mutators.
pub const A: &str = "pages = 4\nmutators = 2\nslots = 4\nstatics = 1\n";

/// A page, and slots for as many blocks as it has, and one.
pub const B: &str = "pages = 1\nmutators = 1\nslots = 9\n";

/// More slots than a quantum scans.
pub const C: &str = "pages = 4\nmutators = 2\nslots = 256\n";

/// Two pages.
pub const D: &str = "pages = 2\nmutators = 1\nslots = 2\n";

/// A heap that moves blocks.
pub const E: &str = "pages = 3\nmutators = 1\nslots = 12\ndefrag_below = 4\ndefrag_pages = 1\n";

/// A schedule of a quantum of 1000 units, and 64 mutators.
pub const F: &str =
    "pages = 4\nmutators = 64\nslots = 256\ncollector_ticks = 10\nmutator_ticks = 12\n\
    rate = 100\n";
