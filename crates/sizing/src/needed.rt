//! The need of a run in blocks and pages, and how many pages suffice for it.
ghost use Rattle.std.specs.Prelude.{◌≡◌, ◌≤◌, ◌*◌};
ghost use Rattle.size_classes.specs.declared.class.TheConstants.{CLASSES};
ghost use Rattle.space.specs.declared.pages.TheConstants.{MOST_CLASS_PAGES};
ghost use Rattle.space.specs.Space.{pages_for};
ghost use Rattle.fragmentation.specs.Suffice.{sparse_pages, demand_pages};
ghost use Rattle.sizing.specs.Measured.{together_in, page_demand_in};
ghost use Rattle.sizing.specs.Reckoned.{still_pages, moved_pages, moves_all, fewest_pages, needed_pages};

use crate::page_counts::gathered_of;
use size_classes::{CLASSES, Class, Config};
use space::{below, pages_of_class, spare};

/// The most that a run needed.
#[derive(Clone, Copy, Debug, PartialEq, Eq)]
pub struct Needed {
    /// In each size class, the blocks live when the cycle began whose sweep ended last, with those made since and those
    /// requested.
    pub together: [u64; CLASSES],
    /// The pages that it took if each cycle gathers every class.
    pub gathered: u64,
    /// The pages of live objects when a cycle begins.
    pub live: u64,
    /// The pages of objects made from a cycle's beginning to the end of the next cycle's sweep.
    pub made: u64,
}

/// Returns whether moving follows each sweep, and may empty as many pages as there are.
fn moves_all(config: &Config) -> bool
    ensures { result ≡ moves_all config.now }
{
    config.pages < config.defrag_below && config.pages <= config.defrag_pages
}

impl Needed {
    /// Returns the pages that its blocks take together, if this many of each class may be left sparse.
    fn pages(&self, spare: u32) -> u128
        ensures pages { result ≡ pages_for (together_in self.now) spare CLASSES }
        ensures within { result ≤ CLASSES * MOST_CLASS_PAGES }
    {
        let mut pages = 0u128;
        for number in 0..CLASSES {
            let blocks = u128::from(self.together[number]);
            pages += pages_of_class(Class::new(number as u8), blocks, spare);
        }
        pages
    }

    /// Returns the pages that its blocks take together, with one of each class that may be left.
    fn sparse(&self) -> u128
        ensures pages { result ≡ sparse_pages (together_in self.now) }
        ensures within { result ≤ CLASSES * MOST_CLASS_PAGES }
    {
        let mut pages = 0u128;
        for number in 0..CLASSES {
            pages += gathered_of(number, u128::from(self.together[number]));
        }
        pages
    }

    /// Returns how many pages suffice if blocks are never moved.
    pub fn still(&self) -> u128
        ensures pages { result ≡ still_pages self.now }
        ensures within { result ≤ CLASSES * MOST_CLASS_PAGES }
    {
        self.pages(0)
    }

    /// Returns how many pages suffice with moving as a configuration has it.
    pub fn moved(&self, config: &Config) -> u128
        ensures { result ≡ moved_pages config.now self.now }
    {
        let spare = spare(config);
        let unmoved = self.still() + u128::from(below(config));
        let sparse = self.sparse() + u128::from(spare);
        self.pages(spare).min(unmoved.min(sparse))
    }

    /// Returns how many pages suffice whatever the sizes of objects are and however these shift, if moving follows each
    /// sweep and may empty all pages.
    pub fn budgeted(&self) -> u128
        ensures { result ≡ demand_pages (page_demand_in self.now) }
    {
        u128::from(self.live) + 2 * u128::from(self.made) + CLASSES as u128
    }

    /// Returns the fewest pages that suffice, without moving or with moving after each sweep that may empty all pages; at
    /// least one.
    pub fn fewest(&self) -> u128
        ensures { result ≡ fewest_pages self.now }
    {
        let moving = u128::from(self.gathered).min(self.budgeted());
        self.still().min(moving).max(1)
    }

    /// Returns how many pages a configuration must have.
    pub fn pages_in(&self, config: &Config) -> u128
        ensures { result ≡ needed_pages config.now self.now }
    {
        let moved = self.moved(config);
        if moves_all(config) {
            moved.min(u128::from(self.gathered))
        } else {
            moved
        }
    }
}
