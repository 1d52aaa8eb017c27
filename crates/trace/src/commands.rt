//! Commands as text: their keywords, how they are read, and how they are written.
ghost use Rattle.std.specs.Prelude.{◌≡◌, ◌≤◌, ◌+◌, ◌∷◌, [], ◌++◌, codes, get_or, length, option_map, take};
ghost use Rattle.trace.specs.declared.commands.Keyword.TheVariants as keywords;
ghost use Rattle.trace.specs.Spelling.{keyword_text, command_text};
ghost use Rattle.trace.specs.Reading.{after_in, comparing, first_keyword_in, keyword_or};
ghost use Rattle.trace.specs.Reading.{shape_in, two_in, three_in, four_in, slot_and_shape_in, arguments_in, bare_in, command_in, mutator_and_command_in};

use crate::field::{Leading, Spelled, after};
use crate::text::{put, put_named};
use crate::version::Version;
use crate::write::{put_four, put_one, put_shape, put_three, put_two};
use graph_heap::{Command, Shape};

/// Two numbers.
type Two = (u32, u32);

/// Three numbers.
type Three = (u32, Two);

/// Four numbers.
type Four = (u32, Three);

/// The kind of a command.
#[derive(Clone, Copy, Debug, PartialEq, Eq)]
pub(crate) enum Keyword {
    New,
    Load,
    Store,
    CompareStore,
    Get,
    Put,
    ComparePut,
    Copy,
    Clear,
    LoadStatic,
    StoreStatic,
    CompareStatic,
    Same,
    Describe,
}

/// Returns the byte at a place, or 0 if there is none.
#[inline(always)]
fn byte(bytes: &[u8], i: usize) -> u8
    ensures { result ≡ get_or bytes.now i 0 }
{
    if i < bytes.len() { bytes[i] } else { 0 }
}

impl Keyword {
    /// Returns the keyword.
    pub(crate) fn text(self) -> &'static [u8]
        ensures { result.now ≡ keyword_text self }
    {
        match self {
            Keyword::New => b"new",
            Keyword::Load => b"load",
            Keyword::Store => b"store",
            Keyword::CompareStore => b"cas",
            Keyword::Get => b"get",
            Keyword::Put => b"put",
            Keyword::ComparePut => b"casput",
            Keyword::Copy => b"copy",
            Keyword::Clear => b"clear",
            Keyword::LoadStatic => b"loadstatic",
            Keyword::StoreStatic => b"storestatic",
            Keyword::CompareStatic => b"casstatic",
            Keyword::Same => b"same",
            Keyword::Describe => b"describe",
        }
    }

    /// Returns the bytes after the keyword and a blank, if the bytes begin with them. Each kind compares with a
    /// constant.
    #[inline(always)]
    fn strip(self, bytes: &[u8]) -> Option<&[u8]>
        ensures { option_map (λ b. b.now) result ≡ after_in (keyword_text self ++ codes " ") bytes.now }
    {
        match self {
            Keyword::New => after(b"new ", bytes),
            Keyword::Load => after(b"load ", bytes),
            Keyword::Store => after(b"store ", bytes),
            Keyword::CompareStore => after(b"cas ", bytes),
            Keyword::Get => after(b"get ", bytes),
            Keyword::Put => after(b"put ", bytes),
            Keyword::ComparePut => after(b"casput ", bytes),
            Keyword::Copy => after(b"copy ", bytes),
            Keyword::Clear => after(b"clear ", bytes),
            Keyword::LoadStatic => after(b"loadstatic ", bytes),
            Keyword::StoreStatic => after(b"storestatic ", bytes),
            Keyword::CompareStatic => after(b"casstatic ", bytes),
            Keyword::Same => after(b"same ", bytes),
            Keyword::Describe => after(b"describe ", bytes),
        }
    }
}

/// Reads two numbers. Each kind of command reads its numbers in one such call.
#[inline(never)]
fn two(bytes: &[u8]) -> Option<Two>
    ensures { result ≡ two_in 32 32 bytes.now }
{
    Two::read(bytes)
}

/// Reads three numbers.
#[inline(never)]
fn three(bytes: &[u8]) -> Option<Three>
    ensures { result ≡ three_in 32 32 32 bytes.now }
{
    Three::read(bytes)
}

/// Reads four numbers.
#[inline(never)]
fn four(bytes: &[u8]) -> Option<Four>
    ensures { result ≡ four_in 32 32 32 32 bytes.now }
{
    Four::read(bytes)
}

/// Reads two numbers and a word.
#[inline(never)]
fn two_and_word(bytes: &[u8]) -> Option<(u32, (u32, u64))>
    ensures { result ≡ three_in 32 32 64 bytes.now }
{
    <(u32, (u32, u64))>::read(bytes)
}

/// Reads two numbers and two words.
#[inline(never)]
fn two_and_words(bytes: &[u8]) -> Option<(u32, (u32, (u64, u64)))>
    ensures { result ≡ four_in 32 32 64 64 bytes.now }
{
    <(u32, (u32, (u64, u64)))>::read(bytes)
}

/// Reads a slot and a shape.
#[inline(never)]
fn slot_and_shape(bytes: &[u8]) -> Option<(u32, Shape)>
    ensures { result ≡ slot_and_shape_in bytes.now }
{
    <(u32, Shape)>::read(bytes)
}

impl Spelled for Shape {
    ghost read_in = { shape_in };

    #[tactic(auto, unfolding(crate::specs::Reading::shape_in))]
    #[inline(always)]
    fn read(bytes: &[u8]) -> Option<Shape> {
        if let Some(rest) = after(b"plain ", bytes) {
            Two::read(rest).map(|(refs, words)| Shape::Plain { refs, words })
        } else if let Some(rest) = after(b"refs ", bytes) {
            u32::read(rest).map(|n| Shape::RefArray(n))
        } else {
            u32::read(after(b"words ", bytes)?).map(|n| Shape::WordArray(n))
        }
    }
}

/// Reads the arguments of a command, after its keyword.
#[tactic(auto, unfolding(crate::specs::Reading::arguments_in))]
#[inline(always)]
fn arguments(keyword: Keyword, bytes: &[u8]) -> Option<Command>
    ensures { result ≡ arguments_in keyword bytes.now }
{
    match keyword {
        Keyword::New => slot_and_shape(bytes).map(|(dst, shape)| Command::New { dst, shape }),
        Keyword::Load => three(bytes).map(|(dst, (obj, i))| Command::Load { dst, obj, i }),
        Keyword::Store => three(bytes).map(|(obj, (i, src))| Command::Store { obj, i, src }),
        Keyword::CompareStore => {
            four(bytes).map(|(obj, (i, (expect, new)))| Command::CompareStore {
                obj,
                i,
                expect,
                new,
            })
        }
        Keyword::Get => two(bytes).map(|(obj, i)| Command::Get { obj, i }),
        Keyword::Put => two_and_word(bytes).map(|(obj, (i, word))| Command::Put { obj, i, word }),
        Keyword::ComparePut => {
            two_and_words(bytes).map(|(obj, (i, (old, new)))| Command::ComparePut {
                obj,
                i,
                old,
                new,
            })
        }
        Keyword::Copy => two(bytes).map(|(dst, src)| Command::Copy { dst, src }),
        Keyword::Clear => u32::read(bytes).map(|dst| Command::Clear { dst }),
        Keyword::LoadStatic => two(bytes).map(|(dst, k)| Command::LoadStatic { dst, k }),
        Keyword::StoreStatic => two(bytes).map(|(k, src)| Command::StoreStatic { k, src }),
        Keyword::CompareStatic => {
            three(bytes).map(|(k, (expect, new))| Command::CompareStatic { k, expect, new })
        }
        Keyword::Same => two(bytes).map(|(a, b)| Command::Same { a, b }),
        Keyword::Describe => u32::read(bytes).map(|a| Command::Describe { a }),
    }
}

/// Reads a command that has no arguments.
#[tactic(auto, unfolding(crate::specs::Reading::bare_in))]
#[inline(always)]
fn bare(version: Version, bytes: &[u8]) -> Option<Command>
    ensures { result ≡ bare_in version bytes.now }
{
    match version {
        Version::First => None,
        Version::Second => {
            if bytes == b"join".as_slice() {
                Some(Command::Join)
            } else if bytes == b"leave".as_slice() {
                Some(Command::Leave)
            } else {
                None
            }
        }
    }
}

/// Reads a command of one kind, if its keyword and a blank are at the front; if not, one without arguments.
#[tactic(auto, unfolding(crate::specs::Reading::first_keyword_in))]
#[inline(always)]
fn command_of(kind: Keyword, version: Version, bytes: &[u8]) -> Option<Command>
    ensures { result ≡ keyword_or (first_keyword_in (kind ∷ []) bytes.now) (bare_in version bytes.now) }
{
    match kind.strip(bytes) {
        Some(rest) => arguments(kind, rest),
        None => bare(version, bytes),
    }
}

/// Reads a command that loads a reference into a slot; if it is none, one without arguments.
#[tactic(auto, unfolding(crate::specs::Reading::first_keyword_in))]
#[inline(never)]
fn loading_command(version: Version, bytes: &[u8]) -> Option<Command>
    ensures { result ≡ keyword_or (first_keyword_in (keywords.Load ∷ keywords.LoadStatic ∷ []) bytes.now)
        (bare_in version bytes.now) }
{
    match Keyword::Load.strip(bytes) {
        Some(rest) => arguments(Keyword::Load, rest),
        None => command_of(Keyword::LoadStatic, version, bytes),
    }
}

/// Reads a command that stores a slot's reference; if it is none, one without arguments.
#[tactic(auto, unfolding(crate::specs::Reading::first_keyword_in))]
#[inline(never)]
fn storing_command(version: Version, bytes: &[u8]) -> Option<Command>
    ensures { result ≡ keyword_or (first_keyword_in (keywords.Store ∷ keywords.StoreStatic ∷ []) bytes.now)
        (bare_in version bytes.now) }
{
    match Keyword::Store.strip(bytes) {
        Some(rest) => arguments(Keyword::Store, rest),
        None => command_of(Keyword::StoreStatic, version, bytes),
    }
}

/// Reads a command of the kinds that compare; if it is none of them, one without arguments.
#[tactic(auto, unfolding(crate::specs::Reading::first_keyword_in))]
#[inline(never)]
fn comparing_command(version: Version, bytes: &[u8]) -> Option<Command>
    ensures { result ≡ keyword_or (first_keyword_in comparing bytes.now) (bare_in version bytes.now) }
{
    if let Some(rest) = Keyword::CompareStore.strip(bytes) {
        return arguments(Keyword::CompareStore, rest);
    }
    match Keyword::ComparePut.strip(bytes) {
        Some(rest) => arguments(Keyword::ComparePut, rest),
        None => command_of(Keyword::CompareStatic, version, bytes),
    }
}

/// Reads a command. The first two bytes leave few kinds, so each arm reads the arguments of these kinds alone.
#[tactic(auto, unfolding(crate::specs::Reading::command_in, crate::specs::Reading::front_keyword_in, crate::specs::Reading::keywords_by))]
#[inline(always)]
fn command(version: Version, bytes: &[u8]) -> Option<Command>
    ensures { result ≡ command_in version bytes.now }
{
    match (byte(bytes, 0), byte(bytes, 1)) {
        (b'n', _) => command_of(Keyword::New, version, bytes),
        (b'g', _) => command_of(Keyword::Get, version, bytes),
        (b'p', _) => command_of(Keyword::Put, version, bytes),
        (b'd', _) => command_of(Keyword::Describe, version, bytes),
        (b'l', _) => loading_command(version, bytes),
        (b's', b'a') => command_of(Keyword::Same, version, bytes),
        (b's', _) => storing_command(version, bytes),
        (_, b'o') => command_of(Keyword::Copy, version, bytes),
        (_, b'l') => command_of(Keyword::Clear, version, bytes),
        _ => comparing_command(version, bytes),
    }
}

/// Reads the number of a mutator, and its command.
#[tactic(auto, unfolding(crate::specs::Reading::mutator_and_command_in))]
#[inline(always)]
pub(crate) fn mutator_and_command(version: Version, bytes: &[u8]) -> Option<(u32, Command)>
    ensures { result ≡ mutator_and_command_in version bytes.now }
{
    let (mutator, rest) = u32::lead(bytes)?;
    let command = command(version, rest)?;
    Some((mutator, command))
}

/// Writes the command that makes an object, without its mutator, from place `at` on. Returns the place after it.
fn put_new(out: &mut [u8], at: usize, dst: u32, shape: &Shape) -> usize
    requires { at + 90 ≤ length out.old }
    ensures text { take result out.new ≡ take at out.old ++ command_text (Command.New dst shape.now) }
    ensures place { result ≤ at + 90 }
{
    let next = put_one(out, at, Keyword::New.text(), dst as u64);
    let next = put(out, next, b" ");
    put_shape(out, next, shape)
}

/// Writes a command without its mutator, from place `at` on. Returns the place after it.
pub(crate) fn put_command(out: &mut [u8], at: usize, command: &Command) -> usize
    requires { at + 90 ≤ length out.old }
    ensures text { take result out.new ≡ take at out.old ++ command_text command.now }
    ensures place { result ≤ at + 90 }
{
    match *command {
        Command::New { dst, shape } => put_new(out, at, dst, &shape),
        Command::Load { dst, obj, i } => put_three(out, at, Keyword::Load.text(), [dst, obj, i]),
        Command::Store { obj, i, src } => put_three(out, at, Keyword::Store.text(), [obj, i, src]),
        Command::CompareStore {
            obj,
            i,
            expect,
            new,
        } => put_four(out, at, Keyword::CompareStore.text(), [obj, i, expect, new]),
        Command::Get { obj, i } => put_two(out, at, Keyword::Get.text(), [obj, i]),
        Command::Put { obj, i, word } => {
            let next = put_two(out, at, Keyword::Put.text(), [obj, i]);
            put_named(out, next, b" ", word)
        }
        Command::ComparePut { obj, i, old, new } => {
            let next = put_two(out, at, Keyword::ComparePut.text(), [obj, i]);
            let next = put_named(out, next, b" ", old);
            put_named(out, next, b" ", new)
        }
        Command::Copy { dst, src } => put_two(out, at, Keyword::Copy.text(), [dst, src]),
        Command::Clear { dst } => put_one(out, at, Keyword::Clear.text(), dst as u64),
        Command::LoadStatic { dst, k } => put_two(out, at, Keyword::LoadStatic.text(), [dst, k]),
        Command::StoreStatic { k, src } => put_two(out, at, Keyword::StoreStatic.text(), [k, src]),
        Command::CompareStatic { k, expect, new } => put_three(
            out,
            at,
            Keyword::CompareStatic.text(),
            [k, expect, new],
        ),
        Command::Same { a, b } => put_two(out, at, Keyword::Same.text(), [a, b]),
        Command::Describe { a } => put_one(out, at, Keyword::Describe.text(), a as u64),
        Command::Join => put(out, at, b"join"),
        Command::Leave => put(out, at, b"leave"),
    }
}
