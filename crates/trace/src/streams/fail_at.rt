//! Sources and sinks that fail on purpose.
ghost use Rattle.std.specs.Prelude.{◌≡◌, ◌↔◌, ◌+◌, ◌-◌, ◌<◌, true, if◌then◌else◌, IsTrue};
ghost use Rattle.trace.specs.Streams.{failed};

use crate::streams::fault::{ReadFailed, WriteFailed};
use crate::streams::sink::Sink;
use crate::streams::source::Source;
use std::io;

/// A source or a sink for tests. One of its reads or writes fails; all other calls are passed on.
#[derive(Drop)]
pub struct FailAt<T: Drop> {
    inner: T,
    left: u64,
    failed: bool,
    ghost once: { failed ≡ true → left ≡ 0 },
}

impl<T: Drop> FailAt<T> {
    ghost use Rattle.trace.specs.FailAt.{passes_to, calls_left, own_failures};

    /// Returns a stream of which the read or write number `call` from now on, from 1, fails; if `call` is 0, none
    /// fails.
    pub fn new(inner: T, call: u64) -> FailAt<T>
        ensures inner { passes_to result ≡ inner }
        ensures left { calls_left result ≡ call }
        ensures failures { own_failures result ≡ 0 }
    {
        FailAt {
            inner,
            left: call,
            failed: false,
        }
    }

    /// Returns the stream to which calls are passed on.
    pub fn get_ref(&self) -> &T
        ensures { result.now ≡ passes_to self.now }
    {
        &self.inner
    }

    /// Counts a read or a write, and returns whether it must fail.
    fn fails_now(&mut self) -> bool
        ensures now { IsTrue result ↔ (calls_left self.old ≡ 1) }
        ensures inner { passes_to self.new ≡ passes_to self.old }
        ensures left { calls_left self.new ≡ calls_left self.old - 1 }
        ensures failures { own_failures self.new ≡ own_failures self.old + (if result then 1 else 0) }
    {
        if self.left == 0 {
            return false;
        }
        self.left -= 1;
        self.failed = self.left == 0;
        self.failed
    }
}

impl<S: Source + Drop> Source for FailAt<S> {
    ghost use Rattle.trace.specs.FailAt.{passes_to, calls_left, own_failures};

    ghost given = { λ s. S.given (passes_to s) };

    ghost ended = { λ s. S.ended (passes_to s) };

    ghost failures = { λ s. S.failures (passes_to s) + own_failures s };

    ghost input = { λ s. S.input (passes_to s) };

    ghost few = { λ s. S.few (passes_to s) };

    ghost begins = { λ s. S.begins (passes_to s) };

    fn read(&mut self, buffer: &mut [u8]) -> Result<usize, ReadFailed> {
        if self.fails_now() {
            return Err(ReadFailed);
        }
        self.inner.read(buffer)
    }

    fn error(&self) -> Option<io::Error> {
        self.inner.error()
    }
}

impl<K: Sink + Drop> Sink for FailAt<K> {
    ghost use Rattle.trace.specs.FailAt.{passes_to, calls_left, own_failures};

    ghost taken = { λ s. K.taken (passes_to s) };

    ghost sent = { λ s. K.sent (passes_to s) };

    ghost failures = { λ s. K.failures (passes_to s) + own_failures s };

    ghost within = { λ s. K.within (passes_to s) };

    fn write(&mut self, bytes: &[u8]) -> Result<usize, WriteFailed> {
        if self.fails_now() {
            return Err(WriteFailed);
        }
        self.inner.write(bytes)
    }

    fn flush(&mut self) -> Result<(), WriteFailed> {
        self.inner.flush()
    }
}
