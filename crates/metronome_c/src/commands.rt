//! The commands of mutators, each with a function for C, in the order of `graph_heap::Command`.
ghost use Rattle.graph_heap.specs.declared.command.Command.TheVariants as commands;
ghost use Rattle.graph_heap.specs.declared.command.Shape.TheVariants as shapes;
ghost use Rattle.metronome_c.specs.Opened.{held_in};
ghost use Rattle.metronome_c.specs.Commands.{Answers, Describes};

use crate::answer::{Answer, MetronomeShape};
use crate::metronome::Metronome;
use graph_heap::{Command, Shape};

/// Makes an object of reference cells and word cells in slot dst.
#[unsafe(no_mangle)]
pub extern "C" fn metronome_new_plain(
    heap: &mut Metronome,
    mutator: u32,
    dst: u32,
    refs: u32,
    words: u32,
) -> Answer
    ensures { Answers (held_in heap.old) mutator (commands.New dst (shapes.Plain refs words)) (held_in heap.new) result }
{
    heap.make(mutator, dst, Shape::Plain { refs, words })
}

/// Makes an array of reference cells in slot dst.
#[unsafe(no_mangle)]
pub extern "C" fn metronome_new_refs(
    heap: &mut Metronome,
    mutator: u32,
    dst: u32,
    refs: u32,
) -> Answer
    ensures { Answers (held_in heap.old) mutator (commands.New dst (shapes.RefArray refs)) (held_in heap.new) result }
{
    heap.make(mutator, dst, Shape::RefArray(refs))
}

/// Makes an array of word cells in slot dst.
#[unsafe(no_mangle)]
pub extern "C" fn metronome_new_words(
    heap: &mut Metronome,
    mutator: u32,
    dst: u32,
    words: u32,
) -> Answer
    ensures { Answers (held_in heap.old) mutator (commands.New dst (shapes.WordArray words)) (held_in heap.new) result }
{
    heap.make(mutator, dst, Shape::WordArray(words))
}

/// Loads a reference cell into slot dst.
#[unsafe(no_mangle)]
pub extern "C" fn metronome_load(
    heap: &mut Metronome,
    mutator: u32,
    dst: u32,
    obj: u32,
    i: u32,
) -> Answer
    ensures { Answers (held_in heap.old) mutator (commands.Load dst obj i) (held_in heap.new) result }
{
    heap.answer(
        mutator,
        move || Command::Load { dst, obj, i },
        move |own| own.load(mutator, dst, obj, i),
        move |shared| shared.load(mutator, dst, obj, i),
    )
}

/// Stores slot src in a reference cell.
#[unsafe(no_mangle)]
pub extern "C" fn metronome_store(
    heap: &mut Metronome,
    mutator: u32,
    obj: u32,
    i: u32,
    src: u32,
) -> Answer
    ensures { Answers (held_in heap.old) mutator (commands.Store obj i src) (held_in heap.new) result }
{
    heap.answer(
        mutator,
        move || Command::Store { obj, i, src },
        move |own| own.store(mutator, obj, i, src),
        move |shared| shared.store(mutator, obj, i, src),
    )
}

/// Stores slot new in a reference cell, if the cell holds the object of slot expect.
#[unsafe(no_mangle)]
pub extern "C" fn metronome_compare_store(
    heap: &mut Metronome,
    mutator: u32,
    obj: u32,
    i: u32,
    expect: u32,
    new: u32,
) -> Answer
    ensures { Answers (held_in heap.old) mutator (commands.CompareStore obj i expect new) (held_in heap.new) result }
{
    heap.answer(
        mutator,
        move || Command::CompareStore {
            obj,
            i,
            expect,
            new,
        },
        move |own| own.compare_store(mutator, obj, i, expect, new),
        move |shared| shared.compare_store(mutator, obj, i, expect, new),
    )
}

/// Reads a word cell.
#[unsafe(no_mangle)]
pub extern "C" fn metronome_get(heap: &mut Metronome, mutator: u32, obj: u32, i: u32) -> Answer
    ensures { Answers (held_in heap.old) mutator (commands.Get obj i) (held_in heap.new) result }
{
    heap.answer(
        mutator,
        move || Command::Get { obj, i },
        move |own| own.get(mutator, obj, i),
        move |shared| shared.get(mutator, obj, i),
    )
}

/// Writes a word cell.
#[unsafe(no_mangle)]
pub extern "C" fn metronome_put(
    heap: &mut Metronome,
    mutator: u32,
    obj: u32,
    i: u32,
    word: u64,
) -> Answer
    ensures { Answers (held_in heap.old) mutator (commands.Put obj i word) (held_in heap.new) result }
{
    heap.answer(
        mutator,
        move || Command::Put { obj, i, word },
        move |own| own.put(mutator, obj, i, word),
        move |shared| shared.put(mutator, obj, i, word),
    )
}

/// Writes a word cell, if that is old.
#[unsafe(no_mangle)]
pub extern "C" fn metronome_compare_put(
    heap: &mut Metronome,
    mutator: u32,
    obj: u32,
    i: u32,
    old: u64,
    new: u64,
) -> Answer
    ensures { Answers (held_in heap.old) mutator (commands.ComparePut obj i old new) (held_in heap.new) result }
{
    heap.answer(
        mutator,
        move || Command::ComparePut { obj, i, old, new },
        move |own| own.compare_put(mutator, obj, i, old, new),
        move |shared| shared.compare_put(mutator, obj, i, old, new),
    )
}

/// Copies slot src to slot dst.
#[unsafe(no_mangle)]
pub extern "C" fn metronome_copy(heap: &mut Metronome, mutator: u32, dst: u32, src: u32) -> Answer
    ensures { Answers (held_in heap.old) mutator (commands.Copy dst src) (held_in heap.new) result }
{
    heap.answer(
        mutator,
        move || Command::Copy { dst, src },
        move |own| own.copy(mutator, dst, src),
        move |shared| shared.copy(mutator, dst, src),
    )
}

/// Sets slot dst to null.
#[unsafe(no_mangle)]
pub extern "C" fn metronome_clear(heap: &mut Metronome, mutator: u32, dst: u32) -> Answer
    ensures { Answers (held_in heap.old) mutator (commands.Clear dst) (held_in heap.new) result }
{
    heap.answer(
        mutator,
        move || Command::Clear { dst },
        move |own| own.clear(mutator, dst),
        move |shared| shared.clear(mutator, dst),
    )
}

/// Loads static k into slot dst.
#[unsafe(no_mangle)]
pub extern "C" fn metronome_load_static(
    heap: &mut Metronome,
    mutator: u32,
    dst: u32,
    k: u32,
) -> Answer
    ensures { Answers (held_in heap.old) mutator (commands.LoadStatic dst k) (held_in heap.new) result }
{
    heap.answer(
        mutator,
        move || Command::LoadStatic { dst, k },
        move |own| own.load_static(mutator, dst, k),
        move |shared| shared.load_static(mutator, dst, k),
    )
}

/// Stores slot src in static k.
#[unsafe(no_mangle)]
pub extern "C" fn metronome_store_static(
    heap: &mut Metronome,
    mutator: u32,
    k: u32,
    src: u32,
) -> Answer
    ensures { Answers (held_in heap.old) mutator (commands.StoreStatic k src) (held_in heap.new) result }
{
    heap.answer(
        mutator,
        move || Command::StoreStatic { k, src },
        move |own| own.store_static(mutator, k, src),
        move |shared| shared.store_static(mutator, k, src),
    )
}

/// Stores slot new in static k, if the static holds the object of slot expect.
#[unsafe(no_mangle)]
pub extern "C" fn metronome_compare_static(
    heap: &mut Metronome,
    mutator: u32,
    k: u32,
    expect: u32,
    new: u32,
) -> Answer
    ensures { Answers (held_in heap.old) mutator (commands.CompareStatic k expect new) (held_in heap.new) result }
{
    heap.answer(
        mutator,
        move || Command::CompareStatic { k, expect, new },
        move |own| own.compare_static(mutator, k, expect, new),
        move |shared| shared.compare_static(mutator, k, expect, new),
    )
}

/// Returns whether slots a and b hold the same object, or both null.
#[unsafe(no_mangle)]
pub extern "C" fn metronome_same(heap: &mut Metronome, mutator: u32, a: u32, b: u32) -> Answer
    ensures { Answers (held_in heap.old) mutator (commands.Same a b) (held_in heap.new) result }
{
    heap.answer(
        mutator,
        move || Command::Same { a, b },
        move |own| own.same(mutator, a, b),
        move |shared| shared.same(mutator, a, b),
    )
}

/// Returns the identity of slot a's object, and stores its shape.
#[unsafe(no_mangle)]
pub extern "C" fn metronome_describe(
    heap: &mut Metronome,
    mutator: u32,
    a: u32,
    shape: &mut MetronomeShape,
) -> Answer
    ensures { Describes (held_in heap.old) mutator (commands.Describe a) (held_in heap.new) (shape.old, shape.new) result }
{
    heap.describe(mutator, a, shape)
}

/// Makes the mutator live.
#[unsafe(no_mangle)]
pub extern "C" fn metronome_join(heap: &mut Metronome, mutator: u32) -> Answer
    ensures { Answers (held_in heap.old) mutator commands.Join (held_in heap.new) result }
{
    heap.answer(
        mutator,
        move || Command::Join,
        move |own| own.join(mutator),
        move |shared| shared.join(mutator),
    )
}

/// Sets each slot of the mutator to null. It is then no longer live.
#[unsafe(no_mangle)]
pub extern "C" fn metronome_leave(heap: &mut Metronome, mutator: u32) -> Answer
    ensures { Answers (held_in heap.old) mutator commands.Leave (held_in heap.new) result }
{
    heap.answer(
        mutator,
        move || Command::Leave,
        move |own| own.leave(mutator),
        move |shared| shared.leave(mutator),
    )
}
