//! How many words live objects have at most in a run, and of which size classes blocks are made.
ghost use Rattle.std.specs.Prelude.{◌≡◌, ◌<◌, IfOk, OnOk};
ghost use Rattle.graph_heap.specs.Graph.{opening};
ghost use Rattle.graph_heap.specs.History.{IsEntryOf, after_entry};
ghost use Rattle.space.specs.Demand.{blocks_of};
ghost use Rattle.sizing.specs.Counts.{AreBlocks};
ghost use Rattle.sizing.specs.Meter.{AllFit};
ghost use Rattle.plans.specs.LiveMeter.{ReachedWords, MakesLast, Counts};

use graph_heap::{Entry, Limits, NoMemory, Reference};
use paced::words_of_shape;
use sizing::blocks::{Blocks, add, needed_by, none};
use std::alloc::Global;

/// The needs of a run that its plan is made for. They are the most words of live objects' blocks, headers included, and
/// how many blocks of each size class were made.
#[derive(Clone, Copy, Debug, PartialEq, Eq)]
pub struct MostLive {
    pub words: u64,
    pub blocks: Blocks,
}

/// The graph heap to which events lead, and how many words of blocks its objects had at most that could be reached.
/// Numbers of words stop at the greatest of 64 bits.
#[derive(Drop)]
pub struct LiveMeter {
    graph: Reference,
    /// Those that can be reached now have no more.
    bound: u64,
    most: u64,
}

impl LiveMeter {
    /// Makes the meter before the first event.
    pub(crate) fn new(alloc: Global, limits: &Limits) -> Result<LiveMeter, NoMemory>
        ensures { IfOk result (λ m. m ≡ record { graph = opening limits.now; bound = 0; most = 0 }) }
    {
        Ok(LiveMeter {
            graph: Reference::new(alloc, limits)?,
            bound: 0,
            most: 0,
        })
    }

    /// Returns the words of the blocks of all reachable objects.
    fn reached(&self) -> Result<u64, NoMemory>
        ensures { IfOk result (ReachedWords self.now.graph) }
    {
        let ids = self.graph.reached()?;
        let mut words = 0u64;
        for id in ids.as_slice() {
            words = words.saturating_add(words_of_shape(&self.graph.shape(*id)));
        }
        Ok(words)
    }

    /// Counts the last object, which was just made. Searches for reachable objects only if more may be live than ever
    /// before.
    fn made(&mut self) -> Result<(), NoMemory>
        ensures { OnOk result (MakesLast self.old self.new) }
    {
        let last = self.graph.shape(self.graph.count() as u64);
        self.bound = self.bound.saturating_add(words_of_shape(&last));
        if self.bound > self.most {
            self.bound = self.reached()?;
            self.most = self.most.max(self.bound);
        }
        Ok(())
    }

    /// Counts a command that was done, with this entry.
    pub(crate) fn command(&mut self, entry: &Entry) -> Result<(), NoMemory>
        ensures { OnOk result (IsEntryOf self.old.graph entry.now
            → Counts self.old (after_entry self.old.graph entry.now) self.new) }
    {
        let before = self.graph.count();
        self.graph.accepts(entry)?;
        if self.graph.count() > before {
            self.made()?;
        }
        Ok(())
    }

    /// Returns how many blocks of each size class were made.
    fn made_blocks(&self) -> Blocks
        ensures { AllFit self.now.graph → AreBlocks result (blocks_of self.now.graph.objects) }
    {
        let mut blocks = none();
        for at in 0..self.graph.count() {
            let shape = self.graph.shape(at as u64 + 1);
            add(&mut blocks, &needed_by(&shape));
        }
        blocks
    }

    /// Returns the findings so far.
    pub(crate) fn found(&self) -> MostLive
        ensures words { result.words ≡ self.now.most }
        ensures blocks { AllFit self.now.graph → AreBlocks result.blocks (blocks_of self.now.graph.objects) }
    {
        MostLive {
            words: self.most,
            blocks: self.made_blocks(),
        }
    }
}
