//! Steps of the roots and of marking.
ghost use Rattle.std.specs.Prelude.{◌≡◌, ◌≢◌, ◌-◌, ◌+◌, ◌<◌, ◌≤◌, ◌^◌, ℕ, [], length, slice_index, true, IfSome, IsNone};
ghost use Rattle.heap_model.specs.Store.{is_allocated, record_of};
ghost use Rattle.heap_model.specs.State.{seen, width_at};
ghost use Rattle.heap_model.specs.Action.{Action, Chain, goes_to};
ghost use Rattle.heap_model.specs.declared.cost.TheConstants.{SCAN, TURN};
ghost use Rattle.heap_model.specs.declared.phase.Phase.TheVariants as phases;
ghost use Rattle.nodes.specs.Acting.{Acts};
ghost use Rattle.nodes.specs.Grey.{in_buffers, AreLinked};
ghost use Rattle.nodes.specs.HeapFields.{state_of, AreHeapFields};
ghost use Rattle.marker.specs.Scanned.{scanned_at, scanned_next, ScansOne};
ghost use Rattle.marker.specs.Scanning.{scanning, IsScanning, Scans};

use heap_model::cost::{SCAN, TURN};
use heap_model::phase::Phase;
use nodes::{HeapFields, Nodes};
use satb_barrier::{pop_grey, shade};

/// The thing that a marking action scanned.
#[derive(Clone, Copy, Debug, PartialEq, Eq)]
pub enum Scanned {
    /// A root cell.
    Root,
    /// The header of a grey part, whose cells are scanned next.
    Header,
    /// A reference cell of the part in scan.
    Cell,
    /// Nothing: all roots are scanned, or no part is grey.
    Nothing,
}

/// The part in scan, by reference, 0 for none yet; its next cell; and how many of its cells are references.
#[derive(Clone, Copy, Debug, PartialEq, Eq)]
struct Scan {
    part: u64,
    cell: usize,
    width: usize,
}

/// How far marking has got, and with how many units.
#[derive(Clone, Copy, Debug, PartialEq, Eq)]
struct Step {
    scan: Scan,
    units: u32,
}

/// Does one marking action. In roots it scans the next root cell. In marking it scans the next reference cell of the
/// part in scan; if none is left, it takes a grey part and scans its header. A scanned cell is corrected to the main
/// copy of its referent, and that copy is shaded. If nothing is left to scan, nothing is done. The buffers must be
/// empty.
#[inline(always)]
pub fn scan_one(heap: &mut HeapFields) -> Scanned
    requires heap { AreHeapFields heap.old }
    requires buffers { in_buffers heap.old.grey.buffers ≡ [] }
    ensures answer { result ≡ scanned_next (state_of heap.old) }
    ensures acts { ScansOne heap.old result heap.new }
    ensures buffers { heap.new.grey.buffers ≡ heap.old.grey.buffers }
    ensures linked { AreLinked heap.new.nodes heap.new.grey }
{
    match heap.phase {
        Phase::Roots { next } => root_one(heap, next),
        Phase::Marking { part, cell } => mark_one(heap, part, cell),
        Phase::Idle | Phase::Sweeping { .. } | Phase::Moving(_) => Scanned::Nothing,
    }
}

/// Does one action in roots.
fn root_one(heap: &mut HeapFields, next: usize) -> Scanned
    requires heap { AreHeapFields heap.old }
    requires phase { heap.old.phase ≡ phases.Roots next }
    ensures answer { result ≡ scanned_at (state_of heap.old) (phases.Roots next) }
    ensures acts { ScansOne heap.old result heap.new }
    ensures buffers { heap.new.grey.buffers ≡ heap.old.grey.buffers }
    ensures linked { AreLinked heap.new.nodes heap.new.grey }
{
    if heap.roots.cells().len() <= next {
        return Scanned::Nothing;
    }
    scan_root(heap, next);
    Scanned::Root
}

/// Does one action in marking. The buffers are empty.
fn mark_one(heap: &mut HeapFields, part: u64, cell: u32) -> Scanned
    requires heap { AreHeapFields heap.old }
    requires buffers { in_buffers heap.old.grey.buffers ≡ [] }
    requires phase { heap.old.phase ≡ phases.Marking part cell }
    ensures answer { result ≡ scanned_at (state_of heap.old) (phases.Marking part cell) }
    ensures acts { ScansOne heap.old result heap.new }
    ensures buffers { heap.new.grey.buffers ≡ heap.old.grey.buffers }
    ensures linked { AreLinked heap.new.nodes heap.new.grey }
{
    let scan = scan_at(heap, part, cell as usize);
    if (cell as usize) < scan.width {
        scan_cell(heap, part, cell as usize);
        let cell = cell + 1;
        heap.charge(SCAN, Phase::Marking { part, cell });
        return Scanned::Cell;
    }
    let Some(next) = pop_grey(heap) else {
        return Scanned::Nothing;
    };
    let place = Phase::Marking {
        part: next,
        cell: 0,
    };
    heap.charge(SCAN, place);
    Scanned::Header
}

/// Scans a root cell: it is corrected to the main copy, and that is shaded.
#[inline(always)]
fn scan_root(heap: &mut HeapFields, next: usize)
    requires heap { AreHeapFields heap.old }
    requires phase { heap.old.phase ≡ phases.Roots next }
    requires within { next < length heap.old.roots.cells }
    ensures acts { Action (state_of heap.old) SCAN (state_of heap.new) }
    ensures phase { heap.new.phase ≡ phases.Roots (next + 1) }
    ensures cells { length heap.new.roots.cells ≡ length heap.old.roots.cells }
    ensures buffers { heap.new.grey.buffers ≡ heap.old.grey.buffers }
    ensures linked { AreLinked heap.new.nodes heap.new.grey }
{
    let main = heap.nodes.resolve(heap.roots.get(next)).reference;
    heap.roots.set(next, main);
    shade(heap, main);
    heap.charge(SCAN, Phase::Roots { next: next + 1 });
}

/// Scans root cells in order, from one on, as far as there is room. If none is left, marking begins.
#[inline(never)]
pub fn scan_roots(heap: &mut HeapFields, next: usize, room: u32)
    requires heap { AreHeapFields heap.old }
    requires phase { heap.old.phase ≡ phases.Roots next }
    requires room { 0 < room }
    ensures acts { Acts heap.old room heap.new }
    ensures buffers { heap.new.grey.buffers ≡ heap.old.grey.buffers }
    ensures linked { AreLinked heap.new.nodes heap.new.grey }
{
    let left = heap.roots.cells().len().saturating_sub(next);
    if left == 0 {
        return heap.charge(TURN, Phase::Marking { part: 0, cell: 0 });
    }
    let count = left.min(room as usize);
    let mut scanned = 0;
    while scanned < count {
        scan_root(heap, next + scanned);
        scanned += 1;
    }
}

/// Goes on with marking as far as there is room: scans the reference cells of the part in scan, then takes a grey part
/// and scans its header, and so on. If no part is grey, sweeping begins. The buffers must be empty.
pub fn scan_parts(heap: &mut HeapFields, part: u64, cell: u32, room: u32)
    requires heap { AreHeapFields heap.old }
    requires buffers { in_buffers heap.old.grey.buffers ≡ [] }
    requires phase { heap.old.phase ≡ phases.Marking part cell }
    requires room { 0 < room }
    ensures acts { Acts heap.old room heap.new }
    ensures buffers { heap.new.grey.buffers ≡ heap.old.grey.buffers }
    ensures linked { AreLinked heap.new.nodes heap.new.grey }
{
    let mut scan = scan_at(heap, part, cell as usize);
    let mut units = 0;
    while units < room {
        let Some(step) = scan_next(heap, scan, room - units) else {
            return heap.charge(units + TURN, Phase::Sweeping { page: 0, block: 0 });
        };
        scan = step.scan;
        units += step.units;
    }
    let part = scan.part;
    let cell = scan.cell as u32;
    heap.charge(units, Phase::Marking { part, cell });
}

/// Returns a scan of a part, at a cell.
#[inline(always)]
fn scan_at(heap: &HeapFields, part: u64, cell: usize) -> Scan
    requires { part ≢ 0 → is_allocated heap.now.nodes (part - 1) ≡ true }
    ensures { result ≡ record { part = part; cell = cell; width = (seen (state_of heap.now)).width part } }
{
    if part == 0 {
        return Scan {
            part,
            cell,
            width: 0,
        };
    }
    let width = heap.nodes.width(part as usize - 1);
    Scan { part, cell, width }
}

/// Scans the reference cells that are left of the part in scan, as far as there is room. If none is left, it takes a
/// grey part and scans its header. If no part is grey, it returns None and nothing changes. The buffers must be empty.
#[inline(always)]
fn scan_next(heap: &mut HeapFields, scan: Scan, room: u32) -> Option<Step>
    requires heap { IsScanning heap.old scan.part scan.cell }
    requires buffers { in_buffers heap.old.grey.buffers ≡ [] }
    requires width { scan.width ≡ (seen (state_of heap.old)).width scan.part }
    requires room { 0 < room }
    ensures scans { IfSome result (λ r. Scans heap.old scan heap.new r.scan r.units) }
    ensures count { IfSome result (λ r. (0 < r.units) × (r.units ≤ room)) }
    ensures width { IfSome result (λ r. r.scan.width ≡ (seen (state_of heap.new)).width r.scan.part) }
    ensures ends { IsNone result → (units : ℕ)
        → Action (state_of (scanning heap.old scan.part scan.cell units)) TURN
        (goes_to (state_of (scanning heap.new scan.part scan.cell units)) TURN (phases.Sweeping 0 0)) }
    ensures buffers { heap.new.grey.buffers ≡ heap.old.grey.buffers }
    ensures linked { AreLinked heap.new.nodes heap.new.grey }
    ensures same { heap.new ≡ record heap.old { nodes = heap.new.nodes; grey = heap.new.grey } }
{
    if scan.cell < scan.width {
        let count = (scan.width - scan.cell).min(room as usize);
        scan_cells(heap, scan.part, scan.cell, count);
        let cell = scan.cell + count;
        let units = count as u32 * SCAN;
        return Some(Step {
            scan: Scan { cell, ..scan },
            units,
        });
    }
    let part = pop_grey(heap)?;
    let scan = scan_at(heap, part, 0);
    Some(Step { scan, units: SCAN })
}

/// Scans `count` reference cells of a part, from one on.
fn scan_cells(heap: &mut HeapFields, part: u64, cell: usize, count: usize)
    requires heap { IsScanning heap.old part cell }
    requires some { part ≢ 0 }
    requires within { cell + count ≤ width_at (record_of heap.old.nodes (part - 1)) }
    ensures acts { (units : ℕ) → Chain (state_of (scanning heap.old part cell units)) count
        (state_of (scanning heap.new part (cell + count) (units + count))) }
    ensures width { width_at (record_of heap.new.nodes (part - 1)) ≡ width_at (record_of heap.old.nodes (part - 1)) }
    ensures buffers { heap.new.grey.buffers ≡ heap.old.grey.buffers }
    ensures linked { AreLinked heap.new.nodes heap.new.grey }
    ensures same { heap.new ≡ record heap.old { nodes = heap.new.nodes; grey = heap.new.grey } }
{
    let mut scanned = 0;
    while scanned < count {
        scanned += scan_run(heap, part, cell + scanned, count - scanned);
    }
}

/// Scans the next reference cell of a part. If it is null, the cells after it are scanned too, up to the first that
/// isn't, at most this many in all. Returns how many it scanned.
#[inline(always)]
fn scan_run(heap: &mut HeapFields, part: u64, cell: usize, most: usize) -> usize
    requires heap { IsScanning heap.old part cell }
    requires some { part ≢ 0 }
    requires most { 0 < most }
    requires within { cell + most ≤ width_at (record_of heap.old.nodes (part - 1)) }
    ensures count { (0 < result) × (result ≤ most) }
    ensures acts { (units : ℕ) → Chain (state_of (scanning heap.old part cell units)) result
        (state_of (scanning heap.new part (cell + result) (units + result))) }
    ensures width { width_at (record_of heap.new.nodes (part - 1)) ≡ width_at (record_of heap.old.nodes (part - 1)) }
    ensures buffers { heap.new.grey.buffers ≡ heap.old.grey.buffers }
    ensures linked { AreLinked heap.new.nodes heap.new.grey }
    ensures same { heap.new ≡ record heap.old { nodes = heap.new.nodes; grey = heap.new.grey } }
{
    let block = part as usize - 1;
    let reference = heap.nodes.cell(block, cell);
    if reference == 0 {
        return 1 + nulls_from(&heap.nodes, block, cell + 1, most - 1);
    }
    scan_cell(heap, part, cell);
    1
}

/// Scans a reference cell of a part: it is corrected to the main copy, and that is shaded.
#[inline(always)]
fn scan_cell(heap: &mut HeapFields, part: u64, cell: usize)
    requires heap { IsScanning heap.old part cell }
    requires some { part ≢ 0 }
    requires within { cell < width_at (record_of heap.old.nodes (part - 1)) }
    ensures acts { (units : ℕ) → Action (state_of (scanning heap.old part cell units)) SCAN
        (state_of (scanning heap.new part (cell + 1) (units + 1))) }
    ensures width { width_at (record_of heap.new.nodes (part - 1)) ≡ width_at (record_of heap.old.nodes (part - 1)) }
    ensures buffers { heap.new.grey.buffers ≡ heap.old.grey.buffers }
    ensures linked { AreLinked heap.new.nodes heap.new.grey }
    ensures same { heap.new ≡ record heap.old { nodes = heap.new.nodes; grey = heap.new.grey } }
{
    let block = part as usize - 1;
    let reference = heap.nodes.cell(block, cell);
    let main = heap.nodes.resolve(reference).reference;
    heap.nodes.set_cell(block, cell, main);
    shade(heap, main);
}

/// Returns how many cells of a block, from one on and at most `most`, are null before the first that isn't.
#[inline(always)]
fn nulls_from(nodes: &Nodes, block: usize, from: usize, most: usize) -> usize
    requires allocated { is_allocated nodes.now block ≡ true }
    requires small { from + most < 2 ^ 32 }
    requires within { from + most ≤ length (record_of nodes.now block).cells }
    ensures within { result ≤ most }
    ensures null { (k : ℕ) → from ≤ k → k < from + result → slice_index (record_of nodes.now block).cells k ≡ 0 }
    ensures first { result < most → slice_index (record_of nodes.now block).cells (from + result) ≢ 0 }
{
    let mut nulls = 0;
    while nulls < most && nodes.cell(block, from + nulls) == 0 {
        nulls += 1;
    }
    nulls
}
