//! Writers of bytes.
ghost use Rattle.std.specs.Prelude.{◌≡◌, ℕ, ◌+◌, ◌<◌, ◌≤◌, ◌++◌, List, length, take, IfOk, OnOk, OnErr};
ghost use Rattle.trace.specs.Streams.{failed, GrowsByPart};

use crate::streams::fault::WriteFailed;

/// A writer of bytes. Contracts see the bytes that it has taken so far, how many of them it has sent on, and how many
/// of its calls have failed.
pub trait Sink {
    /// The bytes that it has taken so far.
    ghost taken: { Self → List ℕ };

    /// How many of these bytes it has sent on, from the first one. The others wait in it.
    ghost sent: { Self → ℕ };

    /// The number of failed calls.
    ghost failures: { Self → ℕ };

    /// Takes bytes from the front of a piece, and returns how many: at least one, if the piece isn't empty.
    fn write(&mut self, bytes: &[u8]) -> Result<usize, WriteFailed>
        ensures within { IfOk result (λ n. n ≤ length bytes.now) }
        ensures bytes { IfOk result (λ n. taken self.new ≡ taken self.old ++ take n bytes.now) }
        ensures err { OnErr result (taken self.new ≡ taken self.old) }
        ensures some { IfOk result (λ n. 0 < length bytes.now → 0 < n) }
        ensures sent { sent self.old ≤ sent self.new }
        ensures cause { failures self.new ≡ failures self.old + failed result };

    /// Sends on all bytes that wait. Callers flush before they wait for something else, and after they have written
    /// all. It fails only if some bytes wait, and then some still do.
    fn flush(&mut self) -> Result<(), WriteFailed>
        ensures taken { taken self.new ≡ taken self.old }
        ensures ok { OnOk result (sent self.new ≡ length (taken self.new)) }
        ensures err { OnErr result (sent self.new < length (taken self.new)) }
        ensures sent { sent self.old ≤ sent self.new }
        ensures cause { failures self.new ≡ failures self.old + failed result };

    /// It has sent on at most the bytes that it has taken.
    ghost within: { (sink : Self) → sent sink ≤ length (taken sink) };
}

/// Writes all bytes of a piece. After an error the sink has taken a beginning of them.
#[inline(always)]
pub fn write_all<K: Sink>(sink: &mut K, bytes: &[u8]) -> Result<(), WriteFailed>
    ensures ok { OnOk result (K.taken sink.new ≡ K.taken sink.old ++ bytes.now) }
    ensures err { OnErr result (GrowsByPart (K.taken sink.old) (K.taken sink.new) bytes.now) }
    ensures sent { K.sent sink.old ≤ K.sent sink.new }
    ensures cause { K.failures sink.new ≡ K.failures sink.old + failed result }
{
    let mut at = 0;
    while at < bytes.len() {
        at += sink.write(&bytes[at..])?;
    }
    Ok(())
}
