//! Readers and writers over memory.
ghost use Rattle.std.specs.Prelude.{◌≡◌, ◌<◌, ◌≤◌, ◌^◌, [], Some, take, length, nat_le, min};
ghost use Rattle.std.proofs.Common.{rules};
ghost use Rattle.trace.specs.Memory.{take_few, take_begins};

use crate::streams::fault::{ReadFailed, WriteFailed};
use crate::streams::sink::Sink;
use crate::streams::source::Source;
use crate::streams::transcript::Transcript;
use std::alloc::Global;
use std::io;

/// Copies bytes to the front of a buffer, as many as it has room for, and returns how many.
fn copy_front(from: &[u8], to: &mut [u8]) -> usize
    ensures count { result ≡ min (length from.now) (length to.old) }
    ensures bytes { take result to.new ≡ take result from.now }
{
    let n = from.len().min(to.len());
    to[..n].copy_from_slice(&from[..n]);
    n
}

/// Bytes that are read from memory.
#[derive(Drop)]
pub struct MemorySource<'a> {
    bytes: &'a [u8],
    at: usize,
    ghost within: { at ≤ length bytes.now },
    ghost few: { length bytes.now < 2 ^ 64 },
}

impl<'a> MemorySource<'a> {
    ghost use Rattle.trace.specs.MemorySource.{source_bytes, source_place};

    /// Returns a source of these bytes, of which none is read yet.
    pub fn new(bytes: &'a [u8]) -> MemorySource<'a>
        ensures bytes { source_bytes result ≡ bytes.now }
        ensures place { source_place result ≡ 0 }
    {
        // Reads the length, so that it is known to fit its type.
        let _few = bytes.len();
        MemorySource { bytes, at: 0 }
    }
}

impl<'a> Source for MemorySource<'a> {
    ghost given = { λ s. take s.at s.bytes.now };

    ghost ended = { λ s. nat_le (length s.bytes.now) s.at };

    ghost failures = { λ _. 0 };

    ghost input = { λ s. Some s.bytes.now };

    ghost few = { λ s. take_few s.at s.bytes.now s.few };

    ghost begins = { λ s. take_begins s.at s.bytes.now };

    fn read(&mut self, buffer: &mut [u8]) -> Result<usize, ReadFailed> {
        let n = copy_front(&self.bytes[self.at..], buffer);
        self.at += n;
        Ok(n)
    }

    fn error(&self) -> Option<io::Error> {
        None
    }
}

/// A sink that keeps its bytes in memory. A write fails only if memory is refused.
#[derive(Drop)]
pub struct MemorySink {
    bytes: Vec<u8>,
    transcript: Transcript,
}

impl MemorySink {
    ghost use Rattle.trace.specs.MemorySink.{sink_bytes, sink_failures};

    /// Returns a sink that has taken nothing yet.
    pub fn new(alloc: Global) -> MemorySink
        ensures bytes { sink_bytes result ≡ [] }
        ensures failures { sink_failures result ≡ 0 }
    {
        MemorySink {
            bytes: Vec::new(alloc),
            transcript: Transcript::new(),
        }
    }

    /// Returns the bytes that it has taken.
    pub fn bytes(&self) -> &[u8]
        ensures { result.now ≡ sink_bytes self.now }
    {
        self.bytes.as_slice()
    }
}

impl Sink for MemorySink {
    ghost taken = { λ s. s.bytes.items };

    ghost sent = { λ s. length s.bytes.items };

    ghost failures = { λ s. s.transcript.failures };

    ghost within = { λ s. Prim.search rules };

    fn write(&mut self, bytes: &[u8]) -> Result<usize, WriteFailed> {
        match self.bytes.extend_from_slice(bytes) {
            Ok(()) => Ok(bytes.len()),
            Err(_) => {
                self.transcript.note_failure();
                Err(WriteFailed)
            }
        }
    }

    fn flush(&mut self) -> Result<(), WriteFailed> {
        Ok(())
    }
}
