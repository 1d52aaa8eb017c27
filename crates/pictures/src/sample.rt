//! Samples of a heap at moments of a run.
ghost use Rattle.std.specs.Prelude.{◌≡◌, ℕ};
ghost use Rattle.pictures.specs.Samples as samples;
ghost use Rattle.pictures.specs.Samples.{sample_of, pages_used};

use crate::allocated::blocks_of;
use heap_model::phase::Phase;
use machine::Heap;

/// How many samples a run has at most.
pub const MOST_SAMPLES: usize = 4096;

/// Which phases of a cycle there are.
#[derive(Clone, Copy, Debug, PartialEq, Eq)]
pub struct Phases {
    pub roots: bool,
    pub marking: bool,
    pub sweeping: bool,
    pub moving: bool,
}

impl Phases {
    /// Returns a phase alone, or no phase, if no cycle is running.
    pub(crate) fn of(phase: Phase) -> Phases
        ensures { result ≡ samples.phases_of phase }
    {
        Phases {
            roots: matches!(phase, Phase::Roots { .. }),
            marking: matches!(phase, Phase::Marking { .. }),
            sweeping: matches!(phase, Phase::Sweeping { .. }),
            moving: matches!(phase, Phase::Moving(_)),
        }
    }

    /// Returns the phases that are among these or those.
    pub(crate) fn with(self, those: Phases) -> Phases
        ensures { result ≡ samples.all_phases self those }
    {
        Phases {
            roots: self.roots | those.roots,
            marking: self.marking | those.marking,
            sweeping: self.sweeping | those.sweeping,
            moving: self.moving | those.moving,
        }
    }

    /// Returns the number of these phases: the sum of 1 for the roots, 2 for marking, 4 for sweeping and 8 for moving.
    pub(crate) fn number(self) -> u64
        ensures { result ≡ samples.phases_number self }
    {
        u64::from(self.roots)
            + 2 * u64::from(self.marking)
            + 4 * u64::from(self.sweeping)
            + 8 * u64::from(self.moving)
    }
}

/// A sample of a heap at one or more moments of a run, one after the other.
#[derive(Clone, Copy, Debug, PartialEq, Eq)]
pub struct Sample {
    /// How many lines of the run's trace were done at the first moment.
    pub line: u64,
    /// In which phases a cycle was running.
    pub phases: Phases,
    /// The least pages in use.
    pub least_pages: u64,
    /// The most pages in use.
    pub most_pages: u64,
    /// The blocks that were allocated at the first moment, old copies too.
    pub blocks: u64,
    /// The words of these blocks.
    pub words: u64,
}

/// Returns how many pages are in use.
pub(crate) fn pages_used(heap: &Heap) -> u64
    ensures { result ≡ pages_used heap.now }
{
    heap.pages().saturating_sub(heap.free_pages()) as u64
}

impl Sample {
    /// Returns the sample of a heap now, after this many lines. It takes time that is linear in the pages.
    pub fn from_heap(heap: &Heap, line: u64) -> Sample
        ensures { result ≡ sample_of heap.now line }
    {
        let pages = pages_used(heap);
        let allocated = blocks_of(heap);
        Sample {
            line,
            phases: Phases::of(heap.phase()),
            least_pages: pages,
            most_pages: pages,
            blocks: allocated.blocks,
            words: allocated.words,
        }
    }

    /// Returns one sample of these moments and of those of a later one.
    pub(crate) fn with(self, later: Sample) -> Sample
        ensures { result ≡ samples.joined self later }
    {
        Sample {
            phases: self.phases.with(later.phases),
            least_pages: self.least_pages.min(later.least_pages),
            most_pages: self.most_pages.max(later.most_pages),
            ..self
        }
    }

    /// Returns one sample of these moments and of the present one of a heap.
    pub(crate) fn with_now(self, heap: &Heap) -> Sample
        ensures { (line : ℕ) → result ≡ samples.joined self (sample_of heap.now line) }
    {
        let pages = pages_used(heap);
        Sample {
            phases: self.phases.with(Phases::of(heap.phase())),
            least_pages: self.least_pages.min(pages),
            most_pages: self.most_pages.max(pages),
            ..self
        }
    }
}
