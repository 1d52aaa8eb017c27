//! Text in an array of bytes.
ghost use Rattle.std.specs.Prelude.{◌≡◌, ◌≤◌, ◌<◌, ◌+◌, ◌++◌, ◌∷◌, [], length, take, decimal, OnOk, OnErr};
ghost use Rattle.trace.specs.Streams.{GrowsByPart, failed};

use crate::{Sink, WriteFailed, write_all};
use itoa::Buffer;

/// Writes bytes at a place, and returns the place after them. There must be room for them. The bytes before the place
/// stay.
#[inline(always)]
pub fn put(out: &mut [u8], at: usize, bytes: &[u8]) -> usize
    requires { at + length bytes.now ≤ length out.old }
    ensures text { take result out.new ≡ take at out.old ++ bytes.now }
    ensures place { result ≡ at + length bytes.now }
{
    let end = at + bytes.len();
    out[at..end].copy_from_slice(bytes);
    end
}

/// Writes a number of any digits.
#[inline(never)]
fn put_digits(out: &mut [u8], at: usize, n: u64) -> usize
    requires { at + 20 ≤ length out.old }
    ensures text { take result out.new ≡ take at out.old ++ decimal n }
    ensures place { result ≤ at + 20 }
{
    let mut buffer = Buffer::new();
    let text = buffer.format(n);
    put(out, at, text.as_bytes())
}

/// Writes a digit.
#[inline(always)]
fn put_digit(out: &mut [u8], at: usize, digit: u64) -> usize
    requires room { at + 1 ≤ length out.old }
    requires digit { digit < 10 }
    ensures text { take result out.new ≡ take at out.old ++ ((48 + digit) ∷ []) }
    ensures place { result ≡ at + 1 }
{
    put(out, at, &[b'0' + digit as u8])
}

/// Writes a number of up to two digits.
#[tactic(auto, using(std::proofs::lemmas::Fmt::decimal_digit))]
#[inline(always)]
fn put_below_100(out: &mut [u8], at: usize, n: u64) -> usize
    requires room { at + 2 ≤ length out.old }
    requires few { n < 100 }
    ensures text { take result out.new ≡ take at out.old ++ decimal n }
    ensures place { result ≤ at + 2 }
{
    if n < 10 {
        return put(out, at, &[b'0' + n as u8]);
    }
    let next = put_digit(out, at, n / 10);
    put_digit(out, next, n % 10)
}

/// Writes a number of up to three digits.
#[inline(always)]
fn put_below_1000(out: &mut [u8], at: usize, n: u64) -> usize
    requires room { at + 3 ≤ length out.old }
    requires few { n < 1000 }
    ensures text { take result out.new ≡ take at out.old ++ decimal n }
    ensures place { result ≤ at + 3 }
{
    if n < 100 {
        return put_below_100(out, at, n);
    }
    let next = put_below_100(out, at, n / 10);
    put_digit(out, next, n % 10)
}

/// Writes a number of up to four digits.
#[inline(always)]
fn put_below_10000(out: &mut [u8], at: usize, n: u64) -> usize
    requires room { at + 4 ≤ length out.old }
    requires few { n < 10000 }
    ensures text { take result out.new ≡ take at out.old ++ decimal n }
    ensures place { result ≤ at + 4 }
{
    if n < 1000 {
        return put_below_1000(out, at, n);
    }
    let next = put_below_1000(out, at, n / 10);
    put_digit(out, next, n % 10)
}

/// Writes a number, in place if it has up to five digits.
#[inline(never)]
fn put_some_digits(out: &mut [u8], at: usize, n: u64) -> usize
    requires { at + 20 ≤ length out.old }
    ensures text { take result out.new ≡ take at out.old ++ decimal n }
    ensures place { result ≤ at + 20 }
{
    if n < 10000 {
        return put_below_10000(out, at, n);
    }
    if n >= 100000 {
        return put_digits(out, at, n);
    }
    let next = put_below_10000(out, at, n / 10);
    put_digit(out, next, n % 10)
}

/// Writes a number. Most have one digit, which is written in place.
#[tactic(auto, using(std::proofs::lemmas::Fmt::decimal_digit))]
#[inline(always)]
pub(crate) fn put_number(out: &mut [u8], at: usize, n: u64) -> usize
    requires { at + 20 ≤ length out.old }
    ensures text { take result out.new ≡ take at out.old ++ decimal n }
    ensures place { result ≤ at + 20 }
{
    if n < 10 {
        put_digit(out, at, n)
    } else {
        put_some_digits(out, at, n)
    }
}

/// Writes a word at a place, and after it a number in decimal. Returns the place after them. There must be room for
/// the word and 20 digits. The bytes before the place stay.
#[inline(always)]
pub fn put_named(out: &mut [u8], at: usize, word: &[u8], n: u64) -> usize
    requires { at + length word.now + 20 ≤ length out.old }
    ensures text { take result out.new ≡ take at out.old ++ (word.now ++ decimal n) }
    ensures place { result ≤ at + length word.now + 20 }
{
    let next = put(out, at, word);
    put_number(out, next, n)
}

/// Ends the line at the front of an array with LF, and writes all of it to a sink. There must be room for the LF.
/// After an error the sink has taken a beginning of the line.
#[inline(always)]
pub fn end_line<K: Sink>(sink: &mut K, out: &mut [u8; 256], end: usize) -> Result<(), WriteFailed>
    requires { end < 256 }
    ensures ok { OnOk result (K.taken sink.new ≡ K.taken sink.old ++ (take end out.old ++ 10 ∷ [])) }
    ensures err { OnErr result (GrowsByPart (K.taken sink.old) (K.taken sink.new) (take end out.old ++ 10 ∷ [])) }
    ensures sent { K.sent sink.old ≤ K.sent sink.new }
    ensures cause { K.failures sink.new ≡ K.failures sink.old + failed result }
{
    out[end] = b'\n';
    write_all(sink, &out[..end + 1])
}
