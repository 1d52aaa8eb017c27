//! Readers of bytes.
ghost use Rattle.std.specs.Prelude.{◌≡◌, ℕ, ◌+◌, ◌<◌, ◌≤◌, ◌^◌, ◌++◌, List, Bool, Option, length, take, IfOk, IfSome, OnOk, OnErr, IsTrue};
ghost use Rattle.trace.specs.Streams.{failed, Begins, Stays};

use crate::streams::fault::ReadFailed;
use std::io;

/// A reader of bytes. Contracts see the bytes that it has given so far, whether its input has ended, and how many of
/// its calls have failed.
pub trait Source {
    /// The bytes that it has given so far.
    ghost given: { Self → List ℕ };

    /// Whether the input has ended, so that it has given all bytes.
    ghost ended: { Self → Bool };

    /// The number of failed calls.
    ghost failures: { Self → ℕ };

    /// All bytes of the input, given or still to come, if they are known; those in memory are.
    ghost input: { Self → Option (List ℕ) };

    /// Reads into a buffer, and returns how many bytes at its front were read. If none were, and the buffer has room,
    /// the input has ended.
    fn read(&mut self, buffer: &mut [u8]) -> Result<usize, ReadFailed>
        ensures within { IfOk result (λ n. n ≤ length buffer.new) }
        // The bytes read are the next ones of the input.
        ensures bytes { IfOk result (λ n. given self.new ≡ given self.old ++ take n buffer.new) }
        ensures err { OnErr result (given self.new ≡ given self.old) }
        ensures end { IfOk result (λ n. n ≡ 0 → 0 < length buffer.new → IsTrue (ended self.new)) }
        // No byte comes after the end.
        ensures over { IsTrue (ended self.old) → IsTrue (ended self.new) × (given self.new ≡ given self.old) }
        ensures cause { failures self.new ≡ failures self.old + failed result }
        // The known input stays, unless the read fails.
        ensures input { OnOk result (Stays (input self.old) (input self.new)) };

    /// Returns the system's error for the call that failed last, if there is one. It is for users to read.
    fn error(&self) -> Option<io::Error>;

    /// A source gives at most 18446744073709551615 bytes in all.
    ghost few: { (source : Self) → length (given source) < 2 ^ 64 };

    /// The bytes given are a beginning of the input, and all of it once the input has ended.
    ghost begins: { (source : Self) → IfSome (input source) (λ all. Begins (given source) (ended source) all) };
}
