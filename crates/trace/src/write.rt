//! Writing words with numbers, replies and entries.
ghost use Rattle.std.specs.Prelude.{◌≡◌, ◌≤◌, ◌+◌, ◌++◌, ◌∷◌, decimal, length, take, slice_index};
ghost use Rattle.trace.specs.Spelling.{two, three, four, shape_text, command_line, reply_text, entry_line};

use crate::commands::put_command;
use crate::text::{put, put_named, put_number};
use graph_heap::{Command, Entry, Reply, Shape};

/// Writes a word, a blank and a number.
#[inline(always)]
pub(crate) fn put_one(out: &mut [u8], at: usize, word: &[u8], n: u64) -> usize
    requires { at + length word.now + 21 ≤ length out.old }
    ensures text { take result out.new ≡ take at out.old ++ (word.now ++ 32 ∷ decimal n) }
    ensures place { result ≤ at + length word.now + 21 }
{
    let next = put(out, at, word);
    put_named(out, next, b" ", n)
}

/// Writes a word, and after it two numbers.
pub(crate) fn put_two(out: &mut [u8], at: usize, word: &[u8], numbers: [u32; 2]) -> usize
    requires { at + length word.now + 42 ≤ length out.old }
    ensures text { take result out.new ≡ take at out.old
        ++ (word.now ++ 32 ∷ two (slice_index numbers 0) (slice_index numbers 1)) }
    ensures place { result ≤ at + length word.now + 42 }
{
    let [a, b] = numbers;
    let next = put_one(out, at, word, a as u64);
    put_named(out, next, b" ", b as u64)
}

/// Writes a word, and after it three numbers.
pub(crate) fn put_three(out: &mut [u8], at: usize, word: &[u8], numbers: [u32; 3]) -> usize
    requires { at + length word.now + 63 ≤ length out.old }
    ensures text { take result out.new ≡ take at out.old
        ++ (word.now ++ 32 ∷ three (slice_index numbers 0) (slice_index numbers 1) (slice_index numbers 2)) }
    ensures place { result ≤ at + length word.now + 63 }
{
    let [a, b, c] = numbers;
    let next = put_one(out, at, word, a as u64);
    put_two(out, next, b"", [b, c])
}

/// Writes a word, and after it four numbers.
pub(crate) fn put_four(out: &mut [u8], at: usize, word: &[u8], numbers: [u32; 4]) -> usize
    requires { at + length word.now + 84 ≤ length out.old }
    ensures text { take result out.new ≡ take at out.old
        ++ (word.now ++ 32 ∷ four (slice_index numbers 0) (slice_index numbers 1) (slice_index numbers 2)
        (slice_index numbers 3)) }
    ensures place { result ≤ at + length word.now + 84 }
{
    let [a, b, c, d] = numbers;
    let next = put_one(out, at, word, a as u64);
    put_three(out, next, b"", [b, c, d])
}

pub(crate) fn put_shape(out: &mut [u8], at: usize, shape: &Shape) -> usize
    requires { at + 47 ≤ length out.old }
    ensures text { take result out.new ≡ take at out.old ++ shape_text shape.now }
    ensures place { result ≤ at + 47 }
{
    match *shape {
        Shape::Plain { refs, words } => put_two(out, at, b"plain", [refs, words]),
        Shape::RefArray(n) => put_named(out, at, b"refs ", n as u64),
        Shape::WordArray(n) => put_named(out, at, b"words ", n as u64),
    }
}

/// Writes a mutator's command at a place, without LF, and returns the place after it. The bytes before the place
/// stay.
pub fn write_command(mutator: u32, command: &Command, out: &mut [u8; 256], at: usize) -> usize
    requires { at ≤ 128 }
    ensures text { take result out.new ≡ take at out.old ++ command_line mutator command.now }
    ensures short { length (command_line mutator command.now) ≤ 111 }
    ensures place { result ≡ at + length (command_line mutator command.now) }
{
    let out = out.as_mut_slice();
    let next = put_number(out, at, mutator as u64);
    let next = put(out, next, b" ");
    put_command(out, next, command)
}

/// Writes a reply.
#[inline(always)]
fn put_reply(out: &mut [u8], at: usize, reply: &Reply) -> usize
    requires { at + 78 ≤ length out.old }
    ensures text { take result out.new ≡ take at out.old ++ reply_text reply.now }
    ensures place { result ≤ at + 78 }
{
    match *reply {
        Reply::Made(id) => put_named(out, at, b"made ", id),
        Reply::Ref(id) => put_named(out, at, b"ref ", id),
        Reply::Word(w) => put_named(out, at, b"word ", w),
        Reply::Done => put(out, at, b"done"),
        Reply::Stored => put(out, at, b"stored"),
        Reply::Kept(id) => put_named(out, at, b"kept ", id),
        Reply::KeptWord(w) => put_named(out, at, b"keptword ", w),
        Reply::Is(true) => put(out, at, b"is yes"),
        Reply::Is(false) => put(out, at, b"is no"),
        Reply::Described(id, shape) => {
            let next = put_named(out, at, b"described ", id);
            let next = put(out, next, b" ");
            put_shape(out, next, &shape)
        }
        Reply::Refused(refusal) => put_named(out, at, b"refused ", refusal.number() as u64),
    }
}

/// Writes a reply at a place, without LF, and returns the place after it. The bytes before the place stay.
#[inline(always)]
pub fn write_reply(reply: &Reply, out: &mut [u8; 256], at: usize) -> usize
    requires { at ≤ 128 }
    ensures text { take result out.new ≡ take at out.old ++ reply_text reply.now }
    ensures short { length (reply_text reply.now) ≤ 78 }
    ensures place { result ≡ at + length (reply_text reply.now) }
{
    put_reply(out.as_mut_slice(), at, reply)
}

/// Writes an entry's line at the front, without LF, and returns the place after it.
pub fn write_entry(entry: &Entry, out: &mut [u8; 256]) -> usize
    ensures text { take result out.new ≡ entry_line entry.now }
    ensures short { length (entry_line entry.now) ≤ 193 }
    ensures place { result ≡ length (entry_line entry.now) }
{
    let next = write_command(entry.mutator, &entry.command, out, 0);
    let next = put(out.as_mut_slice(), next, b" => ");
    write_reply(&entry.reply, out, next)
}
