//! Writes reports, of which some are made as a text first.
ghost use Rattle.std.specs.Prelude.{◌≡◌, ◌+◌, Ok, Err, OnOk, OnErr};
ghost use Rattle.trace.specs.Streams.{failed, taken_by};
ghost use Rattle.trace.specs.declared.fault.PlayFault.TheVariants as texts;
ghost use Rattle.program.specs.Faults.{failed_reads, failed_writes};
ghost use Rattle.program.specs.declared.fault.Ending.TheVariants as endings;
ghost use Rattle.program.specs.declared.fault.RunFault.TheVariants as faults;
ghost use Rattle.program.specs.Told.{MadeTextTold};

use crate::fault::{Ending, RunFault};
use trace::{PlayFault, Sink, write_all};

/// Returns how a run ends that wrote a report: done, or in a failed write.
pub fn ended<E: Drop>(written: Result<(), E>) -> Result<Ending, RunFault>
    ensures ok { OnOk written (result ≡ Ok endings.Done) }
    ensures err { OnErr written (result ≡ Err (faults.Text texts.Write)) }
    ensures reads { failed_reads result ≡ 0 }
    ensures writes { failed_writes result ≡ failed written }
{
    match written {
        Ok(()) => Ok(Ending::Done),
        Err(_) => Err(RunFault::Text(PlayFault::Write)),
    }
}

/// Writes the text of a report. Returns NoMemory and writes nothing, if memory for the text was refused.
pub fn tell_text<E: Drop, K: Sink>(
    text: Result<String, E>,
    sink: &mut K,
) -> Result<Ending, RunFault>
    ensures told { MadeTextTold text (taken_by K.taken K.sent sink.old sink.new) result }
    ensures reads { failed_reads result ≡ 0 }
    ensures writes { K.failures sink.new ≡ K.failures sink.old + failed_writes result }
{
    let Ok(text) = text else {
        return Err(RunFault::Text(PlayFault::NoMemory));
    };
    ended(write_all(sink, text.as_bytes()))
}
