//! The need of objects from one cycle to the next.
ghost use Rattle.std.specs.Prelude.{◌≡◌, false, true};
ghost use Rattle.heap_model.specs.Phases.{awaits_sweep_end};
ghost use Rattle.sizing.specs.Counts.{AreNone};
ghost use Rattle.sizing.specs.Season.{AddsBlocks, IsBegun, IsSwept};

use crate::blocks::{Blocks, add, none};
use heap_model::phase::Phase;

/// The blocks of each class that objects need: those live when a cycle began, and those allocated since.
#[derive(Clone, Copy, Debug, PartialEq, Eq)]
pub struct Season {
    /// Whether a cycle is running, and its sweep hasn't ended.
    pub awaiting_sweep_end: bool,
    /// The blocks live when the last cycle began.
    pub live_last: Blocks,
    /// The blocks live when the cycle began whose sweep ended last.
    pub live_base: Blocks,
    /// The blocks allocated since the last cycle began.
    pub since_last: Blocks,
    /// The blocks allocated since the cycle began whose sweep ended last.
    pub since_base: Blocks,
    /// The blocks allocated since that sweep ended.
    pub since_swept: Blocks,
    /// The blocks needed up to that sweep's end, since the cycle before began.
    pub before: Blocks,
}

impl Season {
    /// Makes the season before the first event.
    pub fn new() -> Season
        ensures awaiting_sweep_end { result.awaiting_sweep_end ≡ false }
        ensures live { AreNone result.live_last × AreNone result.live_base × AreNone result.before }
        ensures since { AreNone result.since_last × AreNone result.since_base × AreNone result.since_swept }
    {
        let nothing = none();
        Season {
            awaiting_sweep_end: false,
            live_last: nothing,
            live_base: nothing,
            since_last: nothing,
            since_base: nothing,
            since_swept: nothing,
            before: nothing,
        }
    }

    /// Counts an object that needs these blocks as allocated.
    pub fn allocate(&mut self, blocks: &Blocks)
        ensures { AddsBlocks blocks.now self.old self.new }
    {
        add(&mut self.since_last, blocks);
        add(&mut self.since_base, blocks);
        add(&mut self.since_swept, blocks);
    }

    /// Begins a cycle, while this many blocks are live.
    pub fn begin(&mut self, live: &Blocks)
        ensures { IsBegun live.now self.old self.new }
    {
        self.awaiting_sweep_end = true;
        self.live_last = *live;
        self.since_last = none();
    }

    /// Notes that the sweep of the last cycle has ended.
    fn swept(&mut self)
        ensures { IsSwept self.old self.new }
    {
        self.before = self.live_base;
        add(&mut self.before, &self.since_base);
        self.awaiting_sweep_end = false;
        self.live_base = self.live_last;
        self.since_base = self.since_last;
        self.since_swept = none();
    }

    /// Notes that quanta are done, which end in this phase: if it awaits no sweep's end, the sweep of the last cycle
    /// has ended.
    pub fn rest(&mut self, phase: Phase)
        ensures awaiting_sweep_end { awaits_sweep_end phase ≡ true → self.new ≡ self.old }
        ensures rested { self.old.awaiting_sweep_end ≡ false → self.new ≡ self.old }
        ensures swept { awaits_sweep_end phase ≡ false → self.old.awaiting_sweep_end ≡ true
            → IsSwept self.old self.new }
    {
        if self.awaiting_sweep_end && !phase.awaits_sweep_end() {
            self.swept();
        }
    }
}
