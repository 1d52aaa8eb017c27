//! Writes the needs of a trace, and on how many pages it finds room.
ghost use Rattle.std.specs.Prelude.{◌≡◌, ◌+◌};
ghost use Rattle.trace.specs.Streams.{given_by, taken_by, Stays};
ghost use Rattle.program.specs.Faults.{failed_reads, failed_writes};
ghost use Rattle.program.specs.Demand.{NeededTold, DemandTold};

use crate::fault::{Ending, RunFault};
use crate::files::read_bytes;
use crate::measuring::measure_text;
use crate::notes::Notes;
use crate::room::find_room;
use crate::told::tell_text;
use inspector::pages_needed::needed_report;
use size_classes::Config;
use std::alloc::Global;
use trace::{Sink, Source};

/// Plays the trace of a text on a new heap. Writes its needs there, and on how many pages it finds room.
fn tell_needed<K: Sink>(
    alloc: Global,
    config: &Config,
    text: &[u8],
    sink: &mut K,
) -> Result<Ending, RunFault>
    ensures told { NeededTold config.now text.now (taken_by K.taken K.sent sink.old sink.new) result }
    ensures reads { failed_reads result ≡ 0 }
    ensures writes { K.failures sink.new ≡ K.failures sink.old + failed_writes result }
{
    let measured = measure_text(alloc, config, text)?;
    let found = find_room(alloc, config, text, &measured.needed)?;
    tell_text(needed_report(alloc, config, &measured.needed, &found), sink)
}

/// Reads a trace into memory, since it is measured more than once. Writes its needs on a heap of the configuration,
/// and on how many pages it finds room. Notes the trace.
pub fn demand_job<S: Source, K: Sink>(
    alloc: Global,
    config: &Config,
    source: &mut S,
    sink: &mut K,
    notes: &mut Notes,
) -> Result<Ending, RunFault>
    ensures done { DemandTold config.now (given_by S.given S.ended source.old source.new)
        (taken_by K.taken K.sent sink.old sink.new) result }
    ensures reads { S.failures source.new ≡ S.failures source.old + failed_reads result }
    ensures input { failed_reads result ≡ 0 → Stays (S.input source.old) (S.input source.new) }
    ensures writes { K.failures sink.new ≡ K.failures sink.old + failed_writes result }
{
    let text = read_bytes(alloc, source, None)?;
    let told = tell_needed(alloc, config, text.as_slice(), sink);
    notes.keep_text(text);
    told
}
