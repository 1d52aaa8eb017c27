//! The most that events needed, together and in pages.
ghost use Rattle.std.specs.Prelude.{IfSome, IsNone};
ghost use Rattle.sizing.specs.Season.{AsksMost, LivesMost, IsNothing, AreStated, CannotBeStated};

use crate::blocks::{Blocks, add, none, raise, table};
use crate::needed::Needed;
use crate::page_counts::{pages_of, season_pages};
use crate::season::Season;

/// The most that events needed.
#[derive(Clone, Copy, Debug, PartialEq, Eq)]
pub struct Most {
    /// In each class, the blocks live when the cycle began whose sweep ended last, with those made since and those
    /// requested.
    pub together: Blocks,
    /// The pages that a season takes if each cycle gathers every class.
    pub gathered: u128,
    /// The pages of live objects when a cycle begins.
    pub live: u128,
    /// The pages of objects made from a cycle's beginning to the end of the next cycle's sweep.
    pub made: u128,
}

impl Most {
    /// Makes the numbers before the first event: all are 0.
    pub fn new() -> Most
        ensures { IsNothing result }
    {
        Most {
            together: none(),
            gathered: 0,
            live: 0,
            made: 0,
        }
    }

    /// Counts these blocks as requested.
    pub fn ask(&mut self, season: &Season, asked: &Blocks)
        ensures { AsksMost season.now asked.now self.old self.new }
    {
        let (mut made, mut swept) = (season.since_base, season.since_swept);
        add(&mut made, asked);
        add(&mut swept, asked);
        let mut together = season.live_base;
        add(&mut together, &made);
        raise(&mut self.together, &together);
        self.gathered = self.gathered.max(season_pages(&season.before, &swept));
        self.made = self.made.max(pages_of(&made));
    }

    /// Counts this many blocks as live when a cycle begins.
    pub fn begin(&mut self, live: &Blocks)
        ensures { LivesMost live.now self.old self.new }
    {
        self.live = self.live.max(pages_of(live));
    }

    /// Returns the needs as numbers that can be stated, if each can.
    pub fn needed(&self) -> Option<Needed>
        ensures some { IfSome result (λ n. AreStated n self.now) }
        ensures none { IsNone result → CannotBeStated self.now }
    {
        Some(Needed {
            together: table(&self.together)?,
            gathered: u64::try_from(self.gathered).ok()?,
            live: u64::try_from(self.live).ok()?,
            made: u64::try_from(self.made).ok()?,
        })
    }
}
