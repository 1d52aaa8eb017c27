//! The report by size class.
ghost use Rattle.std.specs.Prelude.{◌≡◌, ◌≤◌, ◌+◌, ◌++◌, ◌∷◌, [], length, IfOk, OnOk, OnErr, take};
ghost use Rattle.size_classes.specs.declared.class.TheConstants.{CLASSES};
ghost use Rattle.trace.specs.Streams.{GrowsByPart, failed};
ghost use Rattle.trace.specs.Lines.{text_of};
ghost use Rattle.inspector.specs.Filling.{IsWithin, filling_in, figures, class_line, class_lines, classes_lines, sum_line, fragmentation_line, sizes_told};

use crate::fault::WriteFault;
use crate::filling::{Filling, both, filling_of, nothing};
use machine::Heap;
use size_classes::{CLASSES, Class, PAGE_WORDS};
use trace::{Sink, WriteFailed, end_line, put, put_named};

/// Puts the figures of pages at a place, after which there must be room for them, and returns the place after them.
/// Bytes before the place stay.
fn put_figures(out: &mut [u8], at: usize, filling: Filling) -> usize
    requires { at + 135 ≤ length out.old }
    ensures text { take result out.new ≡ take at out.old ++ figures filling }
    ensures place { result ≤ at + 135 }
{
    let end = put_named(out, at, b" pages ", filling.pages);
    let end = put_named(out, end, b" held ", filling.allocated);
    let end = put_named(out, end, b" free ", filling.free);
    let end = put_named(out, end, b" inside ", filling.inside);
    put_named(out, end, b" behind ", filling.behind)
}

/// Puts the line of a class at the front of an array, and returns the place after it.
fn put_class(out: &mut [u8; 256], class: Class, filling: Filling) -> usize
    ensures text { take result out.new ≡ class_line class filling }
    ensures place { result ≤ 160 }
{
    let out = out.as_mut_slice();
    let end = put_named(out, 0, b"size ", u64::from(class.size()));
    put_figures(out, end, filling)
}

/// Writes the line of a class; nothing if it has no page.
fn write_class<K: Sink>(class: Class, filling: Filling, sink: &mut K) -> Result<(), WriteFailed>
    ensures ok { OnOk result (K.taken sink.new ≡ K.taken sink.old ++ text_of (class_lines class filling)) }
    ensures err { OnErr result (GrowsByPart (K.taken sink.old) (K.taken sink.new)
        (text_of (class_lines class filling))) }
    ensures cause { K.failures sink.new ≡ K.failures sink.old + failed result }
{
    if filling.pages == 0 {
        return Ok(());
    }
    let mut out = [0; 256];
    let end = put_class(&mut out, class, filling);
    end_line(sink, &mut out, end)
}

/// Writes a line for each class that has a page, in rising size, and returns how full all pages in use are.
fn write_classes<K: Sink>(heap: &Heap, sink: &mut K) -> Result<Filling, WriteFailed>
    ensures sum { IfOk result (λ all. all ≡ filling_in heap.now.store) }
    ensures within { IfOk result (λ all. IsWithin all 8796093022208) }
    ensures ok { OnOk result (K.taken sink.new ≡ K.taken sink.old ++ text_of (classes_lines heap.now.store CLASSES)) }
    ensures err { OnErr result (GrowsByPart (K.taken sink.old) (K.taken sink.new)
        (text_of (classes_lines heap.now.store CLASSES))) }
    ensures cause { K.failures sink.new ≡ K.failures sink.old + failed result }
{
    let mut all = nothing();
    for number in 0..CLASSES {
        let class = Class::new(number as u8);
        let filling = filling_of(heap, class);
        write_class(class, filling, sink)?;
        all = both(all, filling);
    }
    Ok(all)
}

/// Writes the line of all classes together.
fn write_sum<K: Sink>(all: Filling, sink: &mut K) -> Result<(), WriteFailed>
    ensures ok { OnOk result (K.taken sink.new ≡ K.taken sink.old ++ (sum_line all ++ 10 ∷ [])) }
    ensures err { OnErr result (GrowsByPart (K.taken sink.old) (K.taken sink.new) (sum_line all ++ 10 ∷ [])) }
    ensures cause { K.failures sink.new ≡ K.failures sink.old + failed result }
{
    let mut out = [0; 256];
    let end = put(&mut out, 0, b"all");
    let end = put_figures(&mut out, end, all);
    end_line(sink, &mut out, end)
}

/// Writes how many words of the pages in use are lost to internal and to external fragmentation.
fn write_fragmentation<K: Sink>(all: Filling, sink: &mut K) -> Result<(), WriteFailed>
    requires { IsWithin all 8796093022208 }
    ensures ok { OnOk result (K.taken sink.new ≡ K.taken sink.old ++ (fragmentation_line all ++ 10 ∷ [])) }
    ensures err { OnErr result (GrowsByPart (K.taken sink.old) (K.taken sink.new) (fragmentation_line all ++ 10 ∷ [])) }
    ensures cause { K.failures sink.new ≡ K.failures sink.old + failed result }
{
    let words = u64::from(PAGE_WORDS) * all.pages;
    let internal = all.inside + all.behind;
    let mut out = [0; 256];
    let end = put_named(&mut out, 0, b"words ", words);
    let end = put_named(&mut out, end, b" internal fragmentation ", internal);
    let end = put_named(&mut out, end, b" external fragmentation ", all.spare);
    end_line(sink, &mut out, end)
}

/// Writes to a sink how full the size classes are, in lines that end with LF. Each class that has a page gets a line:
/// its size in words, its pages, its held and its free blocks, and the words that are wasted inside allocated blocks,
/// behind the last cell of a part, and behind the last block of a page. Then come the sums of these. The last line has
/// the words of all pages in use, with those of internal fragmentation (the wasted ones) and of external fragmentation
/// (words of free blocks). It takes no memory. It fails only if the sink does; then the sink has taken a beginning of
/// the report.
pub fn report_sizes<K: Sink>(heap: &Heap, sink: &mut K) -> Result<(), WriteFault>
    ensures ok { OnOk result (K.taken sink.new ≡ K.taken sink.old ++ sizes_told heap.now) }
    ensures err { OnErr result (GrowsByPart (K.taken sink.old) (K.taken sink.new) (sizes_told heap.now)) }
    ensures cause { K.failures sink.new ≡ K.failures sink.old + failed result }
{
    let all = write_classes(heap, sink)?;
    write_sum(all, sink)?;
    Ok(write_fragmentation(all, sink)?)
}
