//! A sink that gathers what it takes.
ghost use Rattle.std.specs.Prelude.{◌≡◌, ◌+◌, ◌<◌, ◌≤◌, ◌++◌, [], length, OnOk, OnErr};
ghost use Rattle.std.proofs.Common.{rules, length-append};
ghost use Rattle.trace.specs.Streams.{failed};

use crate::streams::fault::WriteFailed;
use crate::streams::sink::Sink;

/// The most bytes that wait.
const CAPACITY: usize = 65536;

/// Copies the first `count` bytes of a piece, and its last `count` bytes, which are all of it together.
#[inline(always)]
fn copy_ends(out: &mut [u8], bytes: &[u8], count: usize)
    requires same { length out.old ≡ length bytes.now }
    requires part { count ≤ length bytes.now }
    requires whole { length bytes.now ≤ count + count }
    ensures { out.new ≡ bytes.now }
{
    let rest = bytes.len() - count;
    out[..count].copy_from_slice(&bytes[..count]);
    out[rest..].copy_from_slice(&bytes[rest..]);
}

/// Copies a piece of bytes. If it has 4 to 16 bytes, as most lines of replies, it is copied without a call.
#[inline(always)]
fn copy(out: &mut [u8], bytes: &[u8])
    requires { length out.old ≡ length bytes.now }
    ensures { out.new ≡ bytes.now }
{
    match bytes.len() {
        4..=7 => copy_ends(out, bytes, 4),
        8..=16 => copy_ends(out, bytes, 8),
        _ => out.copy_from_slice(bytes),
    }
}

/// A sink that gathers the bytes that it takes. It writes them to the sink below in one piece, if it has no room for
/// more and when it is flushed. At most 65536 bytes wait in it. If it is dropped, the bytes that wait are lost.
#[derive(Drop)]
pub struct BufferedSink<K: Drop> {
    below: K,
    bytes: [u8; CAPACITY],
    end: usize,
    ghost within: { end ≤ 65536 },
}

impl<K: Drop> BufferedSink<K> {
    ghost use Rattle.trace.specs.BufferedSink.{sink_below, bytes_waiting};

    /// Returns a sink that has taken nothing yet.
    pub fn new(below: K) -> BufferedSink<K>
        ensures below { sink_below result ≡ below }
        ensures waiting { bytes_waiting result ≡ [] }
    {
        BufferedSink {
            below,
            bytes: [0; CAPACITY],
            end: 0,
        }
    }

    /// Returns the sink below.
    pub fn get_ref(&self) -> &K
        ensures { result.now ≡ sink_below self.now }
    {
        &self.below
    }
}

impl<K: Sink + Drop> BufferedSink<K> {
    ghost use Rattle.trace.specs.BufferedSink.{sink_below, bytes_waiting};

    /// Writes some of the bytes that wait to the sink below.
    fn send_some(&mut self) -> Result<(), WriteFailed>
        requires { 0 < self.old.end }
        ensures taken { K.taken (sink_below self.new) ++ bytes_waiting self.new
            ≡ K.taken (sink_below self.old) ++ bytes_waiting self.old }
        ensures ok { OnOk result (self.new.end < self.old.end) }
        ensures err { OnErr result (0 < length (bytes_waiting self.new)) }
        ensures sent { length (K.taken (sink_below self.old)) ≤ length (K.taken (sink_below self.new)) }
        ensures cause { K.failures (sink_below self.new) ≡ K.failures (sink_below self.old) + failed result }
    {
        let count = self.below.write(&self.bytes[..self.end])?;
        self.bytes.copy_within(count..self.end, 0);
        self.end -= count;
        Ok(())
    }
}

impl<K: Sink + Drop> Sink for BufferedSink<K> {
    ghost use Rattle.trace.specs.BufferedSink.{sink_below, bytes_waiting};

    ghost taken = { λ s. K.taken (sink_below s) ++ bytes_waiting s };

    ghost sent = { λ s. length (K.taken (sink_below s)) };

    ghost failures = { λ s. K.failures (sink_below s) };

    ghost within = { λ s. Prim.search (rules, length-append (K.taken (sink_below s)) (bytes_waiting s)) };

    #[inline(always)]
    fn write(&mut self, bytes: &[u8]) -> Result<usize, WriteFailed> {
        let mut count = bytes.len();
        if count > CAPACITY - self.end {
            self.flush()?;
            count = count.min(CAPACITY - self.end);
        }
        copy(&mut self.bytes[self.end..self.end + count], &bytes[..count]);
        self.end += count;
        Ok(count)
    }

    #[inline(never)]
    fn flush(&mut self) -> Result<(), WriteFailed> {
        while self.end > 0 {
            self.send_some()?;
        }
        Ok(())
    }
}
