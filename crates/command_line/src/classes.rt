//! Size classes, by the words of their blocks.
ghost use Rattle.std.specs.Prelude.{◌≡◌, IfOk, map, option_map};
ghost use Rattle.std.specs.List.{AllZip};
ghost use Rattle.size_classes.specs.Sizes.{size_of};
ghost use Rattle.command_line.specs.Words.{IsClassOf, AreClassesOf};

use crate::fault::Refusal;
use crate::words::refused;
use size_classes::{Class, class_of};
use std::alloc::Global;

/// Returns the size class whose blocks have this many words.
fn class_of_size(alloc: Global, size: u32) -> Result<Class, Refusal>
    ensures { IfOk result (λ class. size_of class ≡ size) }
{
    if let Some(class) = class_of(size) {
        if class.size() == size {
            return Ok(class);
        }
    }
    let why = format_args!(
        "invalid value '{size}' for '--classes <S>...': no size class has blocks of {size} words"
    );
    Err(refused(alloc, why))
}

/// Returns the size class of each of some sizes.
fn classes_of(alloc: Global, sizes: &[&str]) -> Result<Vec<Class>, Refusal>
    ensures { IfOk result (λ classes. AllZip IsClassOf (map (λ size. size.now) sizes.now) classes.items) }
{
    let mut classes = Vec::new(alloc);
    for size in sizes {
        // (clap has refused words that are no such number)
        let Ok(words) = size.parse::<u32>() else {
            return Err(refused(alloc, "a size is not a number"));
        };
        let class = class_of_size(alloc, words)?;
        let Ok(()) = classes.push(class) else {
            return Err(Refusal::NoMemory);
        };
    }
    Ok(classes)
}

/// Returns the size classes of these sizes, if any are given.
pub(crate) fn classes_said(
    alloc: Global,
    sizes: Option<&[&str]>,
) -> Result<Option<Vec<Class>>, Refusal>
    ensures { IfOk result (λ classes. AreClassesOf (option_map (λ said. map (λ size. size.now) said.now) sizes.entry)
        (option_map (λ said. said.items) classes)) }
{
    match sizes {
        Some(sizes) => Ok(Some(classes_of(alloc, sizes)?)),
        None => Ok(None),
    }
}
