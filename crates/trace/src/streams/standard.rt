//! Readers and writers of std, as sources and sinks.
ghost use Rattle.std.specs.Prelude.{◌≡◌, ◌<◌, ◌≤◌, ◌^◌, ◌+◌, ◌++◌, [], true, false, length, take, IfOk, OnErr};
ghost use Rattle.std.specs.Option.{ForSome};
ghost use Rattle.std.specs.Io.KnownBytes.{prepend_known, WriteAppends};
ghost use Rattle.std.proofs.Common.{rules};
ghost use Rattle.trace.specs.Standard.{left_begins};
ghost use Rattle.trace.specs.Streams.{failed};

use crate::streams::fault::{ReadFailed, WriteFailed};
use crate::streams::sink::Sink;
use crate::streams::source::Source;
use crate::streams::transcript::Transcript;
use std::io::{self, Read, Write};

/// A reader of std as a source. It counts the bytes that it gives: a read that would pass 18446744073709551615 bytes
/// in all is a failed call. It has ended from the first read on that finds no byte.
#[derive(Drop)]
pub struct ReadSource<R: Read + Drop> {
    reader: R,
    count: u64,
    ended: bool,
    error: Option<io::Error>,
    transcript: Transcript,
    ghost counted: { length transcript.bytes ≡ count },
    ghost few: { length transcript.bytes < 2 ^ 64 },
    ghost over: { ended ≡ true → ForSome (R.remaining reader) (λ rest. rest ≡ []) },
}

impl<R: Read + Drop> ReadSource<R> {
    ghost use Rattle.trace.specs.ReadSource.{source_reader, source_given, source_failures, source_ended};

    /// Returns a source that has given nothing yet.
    pub fn new(reader: R) -> ReadSource<R>
        ensures reader { source_reader result ≡ reader }
        ensures given { source_given result ≡ [] }
        ensures ended { source_ended result ≡ false }
        ensures failures { source_failures result ≡ 0 }
    {
        ReadSource {
            reader,
            count: 0,
            ended: false,
            error: None,
            transcript: Transcript::new(),
        }
    }
}

impl<R: Read + Drop> Source for ReadSource<R> {
    ghost given = { λ s. s.transcript.bytes };

    ghost ended = { λ s. s.ended };

    ghost failures = { λ s. s.transcript.failures };

    ghost input = { λ s. prepend_known s.transcript.bytes (R.remaining s.reader) };

    ghost few = { λ s. s.few };

    ghost begins = { λ s. left_begins (R.remaining s.reader) s.transcript.bytes s.ended s.over };

    fn read(&mut self, buffer: &mut [u8]) -> Result<usize, ReadFailed> {
        if self.ended {
            return Ok(0);
        }
        match self.reader.read(buffer) {
            Ok(n) if n as u64 <= u64::MAX - self.count => {
                self.transcript.note(&buffer[..n]);
                self.count += n as u64;
                self.ended = n == 0 && !buffer.is_empty();
                Ok(n)
            }
            failed => {
                self.error = failed.err();
                self.transcript.note_failure();
                Err(ReadFailed)
            }
        }
    }

    fn error(&self) -> Option<io::Error> {
        self.error
    }
}

/// A writer of std as a sink. A write fails if it takes nothing of a piece that isn't empty.
#[derive(Drop)]
pub struct WriteSink<W: Write + Drop> {
    writer: W,
    transcript: Transcript,
}

impl<W: Write + Drop> WriteSink<W> {
    ghost use Rattle.trace.specs.WriteSink.{sink_writer, sink_taken, sink_failures};

    /// Returns a sink that has taken nothing yet.
    pub fn new(writer: W) -> WriteSink<W>
        ensures writer { sink_writer result ≡ writer }
        ensures taken { sink_taken result ≡ [] }
        ensures failures { sink_failures result ≡ 0 }
    {
        WriteSink {
            writer,
            transcript: Transcript::new(),
        }
    }

    /// Returns the writer.
    pub fn get_ref(&self) -> &W
        ensures { result.now ≡ sink_writer self.now }
    {
        &self.writer
    }

    /// Returns the writer.
    pub fn into_inner(self) -> W
        ensures { result ≡ sink_writer self }
    {
        self.writer
    }
}

impl<W: Write + Drop> Sink for WriteSink<W> {
    ghost use Rattle.trace.specs.WriteSink.{sink_writer, sink_taken, sink_failures};

    ghost taken = { λ s. s.transcript.bytes };

    ghost sent = { λ s. length s.transcript.bytes };

    ghost failures = { λ s. s.transcript.failures };

    ghost within = { λ s. Prim.search rules };

    fn write(&mut self, bytes: &[u8]) -> Result<usize, WriteFailed>
        ensures within { IfOk result (λ n. n ≤ length bytes.now) }
        ensures bytes { IfOk result (λ n. sink_taken self.new ≡ sink_taken self.old ++ take n bytes.now) }
        ensures err { OnErr result (sink_taken self.new ≡ sink_taken self.old) }
        ensures some { IfOk result (λ n. 0 < length bytes.now → 0 < n) }
        ensures sent { length (sink_taken self.old) ≤ length (sink_taken self.new) }
        ensures cause { sink_failures self.new ≡ sink_failures self.old + failed result }
        // If the writer shows its contents, they are the bytes that the sink has taken.
        ensures writer { WriteAppends (W.contents (sink_writer self.old))
            (W.contents (sink_writer self.new)) result bytes.now }
    {
        match self.writer.write(bytes) {
            Ok(n) if n > 0 || bytes.is_empty() => {
                self.transcript.note(&bytes[..n]);
                Ok(n)
            }
            _ => {
                self.transcript.note_failure();
                Err(WriteFailed)
            }
        }
    }

    fn flush(&mut self) -> Result<(), WriteFailed> {
        Ok(())
    }
}
