//! Cutting the bytes of a source into lines.
ghost use Rattle.std.specs.Prelude.{true, false, ◌⊎◌, Ok, Err, ◌∷◌, ◌++◌, ◌≡◌, ◌==◌, ◌+◌, ◌-◌, ◌<◌, ◌≤◌, ◌^◌, length, take, slice_range, IfOk, IfSome, IsNone, OnOk, OnErr, IsTrue};
ghost use Rattle.trace.specs.Streams.{failed, Stays, given_by};
ghost use Rattle.memchr.specs.Find.{IsFirstByte, is_byte};
ghost use Rattle.trace.specs.Lines.{Comes, NoLf, IsLine, FirstLf};

use crate::fault::{LineFault, PlayFault};
use crate::text_line::TextLine;
use crate::version::Version;
use crate::{ReadFailed, Sink, Source};
use memchr::memchr;
use std::marker::Model;
use std::simd::prelude::*;

/// The most bytes that are read at once.
pub const CAPACITY: usize = 65536;

/// The most bytes of a line, without its LF.
pub(crate) const LONGEST: usize = 256;

/// The number of bytes that are compared at once.
const NEAR: usize = 32;

/// Returns the place of the first LF, if it is among the first 32 bytes.
#[inline(always)]
fn near_line_feed(bytes: &[u8]) -> Option<usize>
    requires { NEAR ≤ length bytes.now }
    ensures { IsFirstByte (is_byte 10) (take 32 bytes.now) result }
{
    let places = u8x32::from_slice(bytes)
        .simd_eq(u8x32::splat(b'\n'))
        .to_bitmask();
    if places == 0 {
        return None;
    }
    Some(places.trailing_zeros() as usize)
}

/// Returns the place of the first LF, if it is among the first 257 bytes, by a search of all of them.
#[inline(never)]
fn far_line_feed(bytes: &[u8]) -> Option<usize>
    ensures { IsFirstByte (is_byte 10) (take 257 bytes.now) result }
{
    let front = &bytes[..bytes.len().min(LONGEST + 1)];
    memchr(b'\n', front)
}

/// Returns the place of the first LF, if it is among the first 257 bytes. Most lines end within 32, which are
/// compared at once.
#[inline(always)]
fn line_feed(bytes: &[u8]) -> Option<usize>
    ensures found { IfSome result (λ i. FirstLf bytes.now i) }
    ensures none { IsNone result → NoLf (take 257 bytes.now) }
{
    if bytes.len() >= NEAR {
        if let Some(at) = near_line_feed(bytes) {
            return Some(at);
        }
    }
    far_line_feed(bytes)
}

/// Brings the bytes of a range to the front of a buffer.
fn to_front(buffer: &mut [u8], start: usize, end: usize)
    requires range { start ≤ end }
    requires within { end ≤ length buffer.old }
    ensures { take (end - start) buffer.new ≡ slice_range buffer.old start end }
{
    buffer.copy_within(start..end, 0);
}

/// Reads into a buffer, after the bytes at its front. Returns the number of bytes read.
fn read_after<S: Source>(source: &mut S, buffer: &mut [u8], at: usize) -> Result<usize, ReadFailed>
    requires { at < length buffer.old }
    ensures within { IfOk result (λ n. at + n ≤ length buffer.new) }
    ensures bytes { IfOk result (λ n. Comes (S.given source.old) (S.given source.new) (take at buffer.old)
        (take (at + n) buffer.new)) }
    ensures counted { IfOk result (λ n. length (S.given source.new) ≡ length (S.given source.old) + n) }
    ensures given { OnErr result (S.given source.new ≡ S.given source.old) }
    ensures kept { OnErr result (take at buffer.new ≡ take at buffer.old) }
    ensures end { IfOk result (λ n. n ≡ 0 → IsTrue (S.ended source.new)) }
    ensures cause { S.failures source.new ≡ S.failures source.old + failed result }
    ensures input { OnOk result (Stays (S.input source.old) (S.input source.new)) }
{
    source.read(&mut buffer[at..])
}

/// A reader of lines: a buffer of 65536 bytes, with the line that was handed out last and the bytes after it. It
/// hands out lines of at most 256 bytes, without their LF, with their numbers and their versions.
#[derive(Drop)]
pub struct LineReader {
    buffer: [u8; CAPACITY],
    line_start: usize,
    line_end: usize,
    start: usize,
    end: usize,
    number: u64,
    next: Version,
}

impl Model for LineReader {
    ghost use Rattle.trace.specs.LineReader.{Lines};

    ghost Value = { Lines };

    ghost use Rattle.trace.specs.Buffered.{lines_in, IsBuffered};

    ghost view = { lines_in };

    ghost invariant = { IsBuffered };
}

impl LineReader {
    ghost use Rattle.trace.specs.LinesProcessed.{reads_failed, writes_failed};
    ghost use Rattle.trace.specs.LineReader.{ReadsLine, no_lines, unflushed_as_unread};
    ghost use Rattle.trace.specs.TextLine.{text_in, IsNextVersion};

    /// Returns a reader that has read nothing yet.
    pub fn new() -> LineReader
        ensures { result ≡ no_lines }
    {
        LineReader {
            buffer: [0; CAPACITY],
            line_start: 0,
            line_end: 0,
            start: 0,
            end: 0,
            number: 0,
            next: Version::First,
        }
    }

    /// Returns the version of the line that was handed out last. All lines after the first have the same one.
    #[inline(always)]
    fn version(&self) -> Version
        ensures { result ≡ self.now.text.version }
    {
        if self.number <= 1 {
            Version::First
        } else {
            self.next
        }
    }

    /// Returns the line that was handed out last.
    #[inline(always)]
    pub fn text(&self) -> TextLine<'_>
        ensures { text_in result ≡ self.now.text }
    {
        TextLine {
            bytes: &self.buffer[self.line_start..self.line_end],
            number: self.number,
            version: self.version(),
        }
    }

    /// Returns the number of that line, from 1. It is also the number of lines handed out.
    pub fn number(&self) -> u64
        ensures { result ≡ self.now.text.number }
    {
        self.number
    }

    /// Returns the version of the next line. It is the second exactly if the first line was handed out and tells it.
    pub fn next_version(&self) -> Version
        ensures { result ≡ self.now.next }
    {
        self.next
    }

    /// Reads after the kept bytes. Returns the number of bytes read.
    fn fill<S: Source>(&mut self, source: &mut S) -> Result<usize, ReadFailed>
        requires short { length self.old.kept ≤ 256 }
        requires behind { self.old.text.number + length self.old.kept ≤ length (S.given source.old) }
        ensures bytes { Comes (S.given source.old) (S.given source.new) self.old.kept self.new.kept }
        ensures number { self.new.text.number ≡ self.old.text.number }
        ensures next { self.new.next ≡ self.old.next }
        ensures more { IfOk result (λ n. length self.new.kept ≡ length self.old.kept + n) }
        ensures nothing { result ≡ Ok 0 → self.new.kept ≡ self.old.kept }
        ensures none { OnErr result (self.new.kept ≡ self.old.kept) }
        ensures end { IfOk result (λ n. n ≡ 0 → IsTrue (S.ended source.new)) }
        ensures cause { S.failures source.new ≡ S.failures source.old + failed result }
        ensures input { OnOk result (Stays (S.input source.old) (S.input source.new)) }
        ensures small { length self.new.kept ≤ 65536 }
    {
        let kept = self.end - self.start;
        to_front(&mut self.buffer, self.start, self.end);
        self.line_start = 0;
        self.line_end = 0;
        self.start = 0;
        self.end = kept;
        let n = read_after(source, &mut self.buffer, kept)?;
        self.end += n;
        Ok(n)
    }

    /// Returns the number of kept bytes.
    fn kept(&self) -> usize
        ensures { result ≡ length self.now.kept }
    {
        self.end - self.start
    }

    /// Hands out the line with which the kept bytes begin, if its LF is among their first 257. Returns whether it
    /// did.
    #[inline(always)]
    fn cut_line(&mut self) -> bool
        ensures cut { IsTrue result → self.old.kept ≡ self.new.text.bytes ++ 10 ∷ self.new.kept }
        ensures line { IsTrue result → IsLine self.new.text.bytes }
        ensures number { IsTrue result → self.new.text.number ≡ self.old.text.number + 1 }
        ensures version { IsTrue result → self.new.text.version ≡ self.old.next }
        ensures next { IsTrue result → IsNextVersion self.new.text self.new.next }
        ensures none { result ≡ false → NoLf (take 257 self.old.kept) }
        ensures same { result ≡ false → self.new ≡ self.old }
        ensures small { length self.old.kept ≤ 65536 }
    {
        let Some(length) = line_feed(&self.buffer[self.start..self.end]) else {
            return false;
        };
        self.line_start = self.start;
        self.line_end = self.start + length;
        self.start = self.line_end + 1;
        self.number += 1;
        // Only the first line can tell a version.
        if self.number == 1 {
            self.next = self.text().next_version();
        }
        true
    }

    /// Returns the fault of the line with which the kept bytes begin.
    fn fault(&self, fault: LineFault) -> PlayFault
        requires { 0 < length self.now.kept }
        ensures { result ≡ PlayFault.Line (self.now.text.number + 1) fault }
    {
        PlayFault::Line(self.number + 1, fault)
    }

    /// Hands out the next line. Ok(false) is the end of the input. If there is an error, no line is handed out, and
    /// the bytes of it that have come are kept.
    pub fn next_line<S: Source>(&mut self, source: &mut S) -> Result<bool, PlayFault>
        // The source has given the kept bytes, and at least one byte for each line.
        requires { self.old.text.number + length self.old.kept ≤ length (S.given source.old) }
        ensures hands { ReadsLine (given_by S.given S.ended source.old source.new) self.old self.new result }
        ensures behind { self.new.text.number + length self.new.kept ≤ length (S.given source.new) }
        ensures counted { self.new.text.number < 2 ^ 64 }
        ensures cause { S.failures source.new ≡ S.failures source.old + reads_failed result }
        ensures input { reads_failed result ≡ 0 → Stays (S.input source.old) (S.input source.new) }
    {
        while !self.cut_line() {
            if self.kept() > LONGEST {
                return Err(self.fault(LineFault::TooLong));
            }
            match self.fill(source) {
                Ok(0) if self.kept() == 0 => return Ok(false),
                Ok(0) => return Err(self.fault(LineFault::NotEnded)),
                Ok(_) => {}
                Err(ReadFailed) => return Err(PlayFault::Read),
            }
        }
        Ok(true)
    }

    /// Hands out the next line, as `next_line` does. It flushes the sink before it reads the source, so that no byte
    /// waits in the sink while the source is asked for more. A failed flush ends the call as a failed read does.
    pub fn next_line_once_flushed<S: Source, K: Sink>(
        &mut self,
        source: &mut S,
        sink: &mut K,
    ) -> Result<bool, PlayFault>
        requires { self.old.text.number + length self.old.kept ≤ length (S.given source.old) }
        // Either the source was asked for nothing, or the sink has sent on all that it has taken.
        ensures asked { (source.new ≡ source.old) ⊎ (K.sent sink.new ≡ length (K.taken sink.new)) }
        ensures hands { ReadsLine
            (given_by S.given S.ended source.old source.new) self.old self.new (unflushed_as_unread result) }
        ensures behind { self.new.text.number + length self.new.kept ≤ length (S.given source.new) }
        ensures counted { self.new.text.number < 2 ^ 64 }
        ensures taken { K.taken sink.new ≡ K.taken sink.old }
        ensures sent { K.sent sink.old ≤ K.sent sink.new }
        ensures held { result ≡ Err PlayFault.Write → K.sent sink.new < length (K.taken sink.new) }
        ensures writes { K.failures sink.new ≡ K.failures sink.old + writes_failed result }
        ensures reads { S.failures source.new ≡ S.failures source.old + reads_failed result }
        ensures input { reads_failed result ≡ 0 → Stays (S.input source.old) (S.input source.new) }
    {
        if self.cut_line() {
            return Ok(true);
        }
        if self.kept() > LONGEST {
            return Err(self.fault(LineFault::TooLong));
        }
        sink.flush()?;
        self.next_line(source)
    }
}
