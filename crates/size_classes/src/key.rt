//! The keys of the configuration.
ghost use Rattle.std.specs.Prelude.{◌≡◌, pos};
ghost use Rattle.size_classes.specs.Keys.{name_of, row_of, is_allowed};

use crate::ranges::Ranges;
use crate::settings::Settings;
use std::fmt;

/// A key of the configuration.
#[derive(Clone, Copy, Debug, PartialEq, Eq)]
pub enum Key {
    Pages,
    Mutators,
    Slots,
    Statics,
    Identities,
    DefragBelow,
    DefragPages,
    CollectorTicks,
    MutatorTicks,
    Rate,
    /// Its range and its default come from the file's own `mutators`.
    Live,
}

/// The range of a key, and its default.
#[derive(Clone, Copy)]
pub struct KeyRange {
    pub least: i64,
    pub greatest: i64,
    /// Its value in a file that doesn't name it, or None if a file has to.
    pub default: Option<i64>,
}

impl KeyRange {
    fn new(least: i64, greatest: i64, default: Option<i64>) -> KeyRange
        ensures { result ≡ record { least = least; greatest = greatest; default = default } }
    {
        KeyRange {
            least,
            greatest,
            default,
        }
    }
}

impl Key {
    /// The keys, in the order in which they are checked.
    pub const ALL: [Key; 11] = [
        Key::Pages,
        Key::Mutators,
        Key::Slots,
        Key::Statics,
        Key::Identities,
        Key::DefragBelow,
        Key::DefragPages,
        Key::CollectorTicks,
        Key::MutatorTicks,
        Key::Rate,
        Key::Live,
    ];

    /// Returns the name by which a file gives the key.
    pub fn name(self) -> &'static str
        ensures { result.now ≡ name_of self }
    {
        match self {
            Key::Pages => "pages",
            Key::Mutators => "mutators",
            Key::Slots => "slots",
            Key::Statics => "statics",
            Key::Identities => "identities",
            Key::DefragBelow => "defrag_below",
            Key::DefragPages => "defrag_pages",
            Key::CollectorTicks => "collector_ticks",
            Key::MutatorTicks => "mutator_ticks",
            Key::Rate => "rate",
            Key::Live => "live",
        }
    }

    /// Returns the range and the default of the key, with this many mutators.
    pub fn row(self, ranges: Ranges, mutators: i64) -> KeyRange
        ensures least { result.least ≡ pos (row_of ranges mutators self).least }
        ensures greatest { result.greatest ≡ (row_of ranges mutators self).greatest }
        ensures default { result.default ≡ (row_of ranges mutators self).default }
    {
        let pages = i64::from(ranges.most_pages());
        let most = 1000000;
        let base = Settings::DEFAULTS;
        match self {
            Key::Pages => KeyRange::new(1, pages, None),
            Key::Mutators => KeyRange::new(1, 64, None),
            Key::Slots => KeyRange::new(1, 256, None),
            Key::Statics => KeyRange::new(0, 256, Some(base.statics)),
            Key::Identities => KeyRange::new(1, i64::MAX, Some(base.identities)),
            Key::DefragBelow => KeyRange::new(0, pages + 1, Some(base.defrag_below)),
            Key::DefragPages => KeyRange::new(0, pages, Some(base.defrag_pages)),
            Key::CollectorTicks => KeyRange::new(1, most, Some(base.collector_ticks)),
            Key::MutatorTicks => KeyRange::new(1, most, Some(base.mutator_ticks)),
            Key::Rate => KeyRange::new(1, most, Some(base.rate)),
            Key::Live => KeyRange::new(0, mutators, Some(mutators)),
        }
    }

    /// Returns whether a value is in its range, if there are this many mutators.
    #[tactic(auto, unfolding(crate::specs::Keys::is_between))]
    pub fn allows(self, ranges: Ranges, mutators: i64, value: i64) -> bool
        ensures { result ≡ is_allowed ranges mutators self value }
    {
        let row = self.row(ranges, mutators);
        row.least <= value && value <= row.greatest
    }
}

impl fmt::Display for Key {
    fn fmt<W: fmt::Write>(&self, f: &mut fmt::Formatter<W>) -> fmt::Result {
        f.write_str(self.name())
    }
}
