//! Samples of a heap along a run, at even distances.
ghost use Rattle.std.specs.Prelude.{◌≡◌, ◌<◌, ◌*◌, ◌^◌, ◌++◌, ◌∷◌, [], List, length, IfOk, OnOk};
ghost use Rattle.trace.specs.Observing.{Moment, moment};
ghost use Rattle.pictures.specs.Samples.{AreSampled};
ghost use Rattle.pictures.specs.Sampler.{ArePairs, IsAlong};

use crate::sample::{MOST_SAMPLES, Sample};
use graph_heap::NoMemory;
use machine::Heap;
use std::alloc::Global;

/// Samples of a run, and of how many moments each is.
#[derive(Drop)]
pub(crate) struct Samples {
    pub stride: u64,
    pub items: Vec<Sample>,
}

/// Samples of a run so far, the last of them, which may get further moments, and of how many moments it is.
#[derive(Drop)]
pub(crate) struct Sampler {
    samples: Samples,
    last: Sample,
    since: u64,
}

/// Joins each two samples into one. If their number is odd, the last is left out.
fn join_pairs(items: &mut Vec<Sample>)
    ensures { ArePairs items.old.items items.new.items }
{
    let pairs = items.len() / 2;
    for place in 0..pairs {
        items[place] = items[2 * place].with(items[2 * place + 1]);
    }
    items.truncate(pairs);
}

impl Samples {
    /// Joins each two samples into one, and so doubles the stride. If their number is odd, the last is left out.
    fn thin(&mut self)
        requires { self.old.stride * 2 < 2 ^ 64 }
        ensures stride { self.new.stride ≡ self.old.stride * 2 }
        ensures pairs { ArePairs self.old.items.items self.new.items.items }
    {
        join_pairs(&mut self.items);
        self.stride *= 2;
    }
}

impl Sampler {
    /// Makes a sampler with the sample of a heap before the first line.
    pub(crate) fn new(alloc: Global, heap: &Heap) -> Sampler
        ensures { IsAlong (moment 0 heap.now ∷ []) result }
    {
        Sampler {
            samples: Samples {
                stride: 1,
                items: Vec::new(alloc),
            },
            last: Sample::from_heap(heap, 0),
            since: 1,
        }
    }

    /// Samples the heap to which the event of this line led, in the last sample, or in a new one, if the last is full.
    pub(crate) fn event(&mut self, line: u64, heap: &Heap) -> Result<(), NoMemory>
        requires { (moments : List Moment) × IsAlong moments self.old × (length moments < 2 ^ 64) }
        ensures { OnOk result ((moments : List Moment) → IsAlong moments self.old
            → IsAlong (moments ++ moment line heap.now ∷ []) self.new) }
    {
        if self.since < self.samples.stride {
            self.since += 1;
            self.last = self.last.with_now(heap);
            return Ok(());
        }
        self.samples.items.push(self.last)?;
        if self.samples.items.len() == MOST_SAMPLES {
            self.samples.thin();
        }
        self.last = Sample::from_heap(heap, line);
        self.since = 1;
        Ok(())
    }

    /// Returns all samples.
    pub(crate) fn finish(self) -> Result<Samples, NoMemory>
        ensures { IfOk result (λ samples. (moments : List Moment) → IsAlong moments self
            → AreSampled moments samples.stride samples.items.items) }
    {
        let mut samples = self.samples;
        samples.items.push(self.last)?;
        Ok(samples)
    }
}
