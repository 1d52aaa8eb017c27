//! How many blocks a program requests while the collector does a quantum's work, and the pages that they take.
ghost use Rattle.std.specs.Prelude.{◌≡◌, ◌*◌, ◌≤◌};
ghost use Rattle.space.specs.Space.{space_for};
ghost use Rattle.space.specs.Pace.{demand_of};
ghost use Rattle.space.specs.Fitting.{pace_in};

use crate::pages::{MOST_CLASS_PAGES, pages_of_class};
use size_classes::{CLASSES, Class};

/// More quanta than a cycle can take.
pub const MOST_QUANTA: u64 = 300_000_000_000_000;

/// More quanta than a cycle can take up to its sweep's end.
pub const MOST_UNMOVED_QUANTA: u64 = 10_600_000;

/// Three limits for each size class: the most blocks that live objects need when a cycle begins; those requested while a
/// cycle runs, from its beginning or a quantum to the next quantum; and those requested from the end of a cycle until the
/// next begins.
#[derive(Clone, Copy, Debug, PartialEq, Eq)]
pub struct Pace {
    pub live: [u32; CLASSES],
    pub busy: [u64; CLASSES],
    pub idle: [u64; CLASSES],
}

impl Pace {
    /// Returns how many pages it takes, if a cycle takes at most this many quanta, and this many pages may be left
    /// sparse for each class.
    pub fn pages(&self, quanta: u64, spare: u32) -> u128
        requires { quanta ≤ MOST_QUANTA }
        ensures pages { result ≡ space_for (demand_of (pace_in self.now) quanta) spare }
        ensures within { result ≤ CLASSES * MOST_CLASS_PAGES }
    {
        let mut pages = 0u128;
        for number in 0..CLASSES {
            let busy = u128::from(quanta) * u128::from(self.busy[number]);
            let allocated = 2 * busy + u128::from(self.idle[number]);
            let blocks = u128::from(self.live[number]) + allocated;
            pages += pages_of_class(Class::new(number as u8), blocks, spare);
        }
        pages
    }
}
