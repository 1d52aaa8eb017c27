//! Words that are two numbers with an x between them: some objects, and what a program asks for.
ghost use Rattle.std.specs.Prelude.{IfOk, IfSome, map};
ghost use Rattle.std.specs.List.{All, AllZip};
ghost use Rattle.command_line.specs.Job.{AreObjects, MayBeAsked};
ghost use Rattle.command_line.specs.Words.{AreAsked, AreObjectsOf, IsPair};

use crate::fault::Refusal;
use crate::job::{Asked, Objects};
use crate::words::{refused, within};
use graph_heap::ARRAY_CELLS;
use std::alloc::Global;

/// Returns the two numbers of a word, if it has an x between them.
fn pair(word: &str) -> Option<(u64, u64)>
    ensures { IfSome result (λ numbers. IsPair word.now numbers.0 numbers.1) }
{
    let (first, second) = word.split_once('x')?;
    match (first.parse::<u64>(), second.parse::<u64>()) {
        (Ok(first), Ok(second)) => Some((first, second)),
        _ => None,
    }
}

/// Returns the objects of a word: their number, an x, and the number of the cells of each.
fn objects_of_word(alloc: Global, word: &str) -> Result<Objects, Refusal>
    ensures range { IfOk result AreObjects }
    ensures said { IfOk result (AreObjectsOf word.now) }
{
    let Some((count, cells)) = pair(word) else {
        let why = format_args!(
            "invalid value '{word}' for '--objects <AxB>...': it is no count and cells, as 100x3"
        );
        return Err(refused(alloc, why));
    };
    within(alloc, "--objects <AxB>...", count, 1, u64::MAX)?;
    let most = u64::from(ARRAY_CELLS);
    within(alloc, "--objects <AxB>...", cells, 0, most)?;
    Ok(Objects {
        count,
        cells: cells as u32,
    })
}

/// Returns the objects of each word.
pub(crate) fn objects_of(alloc: Global, words: &[&str]) -> Result<Vec<Objects>, Refusal>
    ensures range { IfOk result (λ groups. All AreObjects groups.items) }
    ensures said { IfOk result (λ groups. AllZip AreObjectsOf (map (λ word. word.now) words.now) groups.items) }
{
    let mut groups = Vec::new(alloc);
    for word in words {
        let group = objects_of_word(alloc, word)?;
        let Ok(()) = groups.push(group) else {
            return Err(Refusal::NoMemory);
        };
    }
    Ok(groups)
}

/// Returns what a program asks for, by a word: the words of blocks, an x, and the ticks for which it runs.
fn asked_of_word(alloc: Global, word: &str) -> Result<Asked, Refusal>
    ensures range { IfOk result MayBeAsked }
    ensures said { IfOk result (AreAsked word.now) }
{
    let Some((words, ticks)) = pair(word) else {
        let why = format_args!(
            "invalid value '{word}' for '--asks <WxT>...': it is no words and ticks, as 100x1000"
        );
        return Err(refused(alloc, why));
    };
    within(alloc, "--asks <WxT>...", ticks, 1, 1099511627776)?;
    Ok(Asked { words, ticks })
}

/// Returns what a program asks for, by each word.
pub(crate) fn asks_of(alloc: Global, words: &[&str]) -> Result<Vec<Asked>, Refusal>
    ensures range { IfOk result (λ asks. All MayBeAsked asks.items) }
    ensures said { IfOk result (λ asks. AllZip AreAsked (map (λ word. word.now) words.now) asks.items) }
{
    let mut asks = Vec::new(alloc);
    for word in words {
        let asked = asked_of_word(alloc, word)?;
        let Ok(()) = asks.push(asked) else {
            return Err(Refusal::NoMemory);
        };
    }
    Ok(asks)
}
