//! The lines of a report, one by one.
ghost use Rattle.std.specs.Prelude.{◌≡◌, ◌≤◌, ◌<◌, ◌+◌, ◌++◌, ◌∷◌, [], length, OnOk, OnErr, take};
ghost use Rattle.heap_model.specs.Pages.{page_at};
ghost use Rattle.pages.specs.View.{view_of};
ghost use Rattle.nodes.specs.Copies.{copies_in};
ghost use Rattle.trace.specs.Streams.{GrowsByPart, failed};
ghost use Rattle.trace.specs.Lines.{text_of};
ghost use Rattle.inspector.specs.Report.{phase_name, phase_line, units_line, two_named, pages_line, page_line, lines_on, roots_line, copies_line, head_lines, tail_lines};

use heap_model::phase::Phase;
use machine::Heap;
use nodes::Copies;
use pages::PageView;
use trace::{Sink, WriteFailed, end_line, put, put_named};

/// Returns the name of a phase.
fn name(phase: Phase) -> &'static [u8]
    ensures name { result.now ≡ phase_name phase }
    ensures short { length result.now ≤ 8 }
{
    match phase {
        Phase::Idle => b"idle",
        Phase::Roots { .. } => b"roots",
        Phase::Marking { .. } => b"marking",
        Phase::Sweeping { .. } => b"sweeping",
        Phase::Moving(_) => b"moving",
    }
}

/// Writes the phase.
fn write_phase<K: Sink>(heap: &Heap, sink: &mut K) -> Result<(), WriteFailed>
    ensures ok { OnOk result (K.taken sink.new ≡ K.taken sink.old ++ (phase_line heap.now ++ 10 ∷ [])) }
    ensures err { OnErr result (GrowsByPart (K.taken sink.old) (K.taken sink.new) (phase_line heap.now ++ 10 ∷ [])) }
    ensures cause { K.failures sink.new ≡ K.failures sink.old + failed result }
{
    let mut out = [0; 256];
    let end = put(&mut out, 0, b"phase ");
    let end = put(&mut out, end, name(heap.phase()));
    end_line(sink, &mut out, end)
}

/// Writes the units of work that were spent since the last cycle began.
fn write_units<K: Sink>(heap: &Heap, sink: &mut K) -> Result<(), WriteFailed>
    ensures ok { OnOk result (K.taken sink.new ≡ K.taken sink.old ++ (units_line heap.now ++ 10 ∷ [])) }
    ensures err { OnErr result (GrowsByPart (K.taken sink.old) (K.taken sink.new) (units_line heap.now ++ 10 ∷ [])) }
    ensures cause { K.failures sink.new ≡ K.failures sink.old + failed result }
{
    let mut out = [0; 256];
    let end = put_named(&mut out, 0, b"units ", heap.units());
    end_line(sink, &mut out, end)
}

/// Writes two named numbers as a line.
fn write_two<K: Sink>(
    sink: &mut K,
    first: &[u8],
    n: usize,
    second: &[u8],
    m: usize,
) -> Result<(), WriteFailed>
    requires { length first.now + length second.now ≤ 20 }
    ensures ok { OnOk result (K.taken sink.new ≡ K.taken sink.old ++ (two_named first.now n second.now m ++ 10 ∷ [])) }
    ensures err { OnErr result (GrowsByPart (K.taken sink.old) (K.taken sink.new)
        (two_named first.now n second.now m ++ 10 ∷ [])) }
    ensures cause { K.failures sink.new ≡ K.failures sink.old + failed result }
{
    let mut out = [0; 256];
    let end = put_named(&mut out, 0, first, n as u64);
    let end = put_named(&mut out, end, second, m as u64);
    end_line(sink, &mut out, end)
}

/// Writes how many pages there are, and how many are free.
fn write_pages<K: Sink>(heap: &Heap, sink: &mut K) -> Result<(), WriteFailed>
    ensures ok { OnOk result (K.taken sink.new ≡ K.taken sink.old ++ (pages_line heap.now ++ 10 ∷ [])) }
    ensures err { OnErr result (GrowsByPart (K.taken sink.old) (K.taken sink.new) (pages_line heap.now ++ 10 ∷ [])) }
    ensures cause { K.failures sink.new ≡ K.failures sink.old + failed result }
{
    write_two(sink, b"pages ", heap.pages(), b" free ", heap.free_pages())
}

/// Writes how many root cells there are, and how many aren't null.
fn write_roots<K: Sink>(heap: &Heap, sink: &mut K) -> Result<(), WriteFailed>
    ensures ok { OnOk result (K.taken sink.new ≡ K.taken sink.old ++ (roots_line heap.now ++ 10 ∷ [])) }
    ensures err { OnErr result (GrowsByPart (K.taken sink.old) (K.taken sink.new) (roots_line heap.now ++ 10 ∷ [])) }
    ensures cause { K.failures sink.new ≡ K.failures sink.old + failed result }
{
    let (all, used) = (heap.root_cells(), heap.roots_used());
    write_two(sink, b"roots ", all, b" used ", used)
}

/// Puts the line of a page in use at the front of an array, and returns the place after it.
fn put_page(out: &mut [u8; 256], number: usize, page: PageView) -> usize
    ensures text { take result out.new ≡ page_line number page }
    ensures place { result ≤ 120 }
{
    let blocks = page.class.blocks_per_page() as u64;
    let out = out.as_mut_slice();
    let end = put_named(out, 0, b"page ", number as u64);
    let end = put_named(out, end, b" size ", page.class.size() as u64);
    let end = put_named(out, end, b" held ", page.allocated as u64);
    let end = put_named(out, end, b" of ", blocks);
    if page.evacuating {
        put(out, end, b" leaving")
    } else {
        end
    }
}

/// Writes the line of a page; nothing for a free one.
pub(crate) fn write_page<K: Sink>(
    heap: &Heap,
    number: usize,
    sink: &mut K,
) -> Result<(), WriteFailed>
    ensures ok { OnOk result (K.taken sink.new
        ≡ K.taken sink.old ++ text_of (lines_on number (view_of (page_at heap.now.store.pages number)))) }
    ensures err { OnErr result (GrowsByPart (K.taken sink.old) (K.taken sink.new)
        (text_of (lines_on number (view_of (page_at heap.now.store.pages number))))) }
    ensures cause { K.failures sink.new ≡ K.failures sink.old + failed result }
{
    let Some(page) = heap.page(number) else {
        return Ok(());
    };
    let mut out = [0; 256];
    let end = put_page(&mut out, number, page);
    end_line(sink, &mut out, end)
}

/// Puts the numbers of objects, parts and old copies at the front of an array, and returns the place after them.
fn put_copies(out: &mut [u8; 256], copies: Copies) -> usize
    ensures text { take result out.new ≡ copies_line copies }
    ensures place { result ≤ 90 }
{
    let out = out.as_mut_slice();
    let end = put_named(out, 0, b"objects ", copies.objects as u64);
    let end = put_named(out, end, b" parts ", copies.parts as u64);
    put_named(out, end, b" old ", copies.old as u64)
}

/// Writes how many objects, parts and old copies there are.
fn write_copies<K: Sink>(heap: &Heap, sink: &mut K) -> Result<(), WriteFailed>
    ensures ok { OnOk result (K.taken sink.new
        ≡ K.taken sink.old ++ (copies_line (copies_in heap.now.store) ++ 10 ∷ [])) }
    ensures err { OnErr result (GrowsByPart (K.taken sink.old) (K.taken sink.new)
        (copies_line (copies_in heap.now.store) ++ 10 ∷ [])) }
    ensures cause { K.failures sink.new ≡ K.failures sink.old + failed result }
{
    let mut out = [0; 256];
    let end = put_copies(&mut out, heap.copies());
    end_line(sink, &mut out, end)
}

/// Writes the lines before those of the pages in use.
pub(crate) fn write_head<K: Sink>(heap: &Heap, sink: &mut K) -> Result<(), WriteFailed>
    ensures ok { OnOk result (K.taken sink.new ≡ K.taken sink.old ++ text_of (head_lines heap.now)) }
    ensures err { OnErr result (GrowsByPart (K.taken sink.old) (K.taken sink.new) (text_of (head_lines heap.now))) }
    ensures cause { K.failures sink.new ≡ K.failures sink.old + failed result }
{
    write_phase(heap, sink)?;
    write_units(heap, sink)?;
    write_pages(heap, sink)
}

/// Writes the lines after those of the pages in use.
pub(crate) fn write_tail<K: Sink>(heap: &Heap, sink: &mut K) -> Result<(), WriteFailed>
    ensures ok { OnOk result (K.taken sink.new ≡ K.taken sink.old ++ text_of (tail_lines heap.now)) }
    ensures err { OnErr result (GrowsByPart (K.taken sink.old) (K.taken sink.new) (text_of (tail_lines heap.now))) }
    ensures cause { K.failures sink.new ≡ K.failures sink.old + failed result }
{
    write_roots(heap, sink)?;
    write_copies(heap, sink)
}
