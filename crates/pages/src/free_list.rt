//! One page's list of free blocks: word 0 of a free block says that it is one, and word 3 names the next. Loops over
//! blocks are lent the arena's words once, as one row.
ghost use Rattle.std.specs.Prelude.{◌≡◌, ◌+◌, ◌-◌, ◌<◌, ◌≤◌, ◌*◌, List, Option, length, slice_get, slice_set, replicate, true, false, not, ◌==◌, Some, IfSome, IsNone};
ghost use Rattle.size_classes.specs.declared.class.TheConstants.{CLASSES};
ghost use Rattle.size_classes.specs.Sizes.{blocks_in};
ghost use Rattle.heap_model.specs.Store.{address_of};
ghost use Rattle.pages.specs.FreeList.{flags_of, AreFree, IsFreeList, SameOutside, free_mark};
ghost use Rattle.pages.specs.Index.{row_at, row_given};
ghost use Rattle.pages.specs.Sweeping.{has_colour, LooksAt, Looks};
ghost use Rattle.pages.specs.Together.{joined, Together};
ghost use Rattle.pages.specs.declared.page.PageRow.{PageRow as Row};

use crate::page::PageRow;
use headers::Arena;
use headers::block::{self, forward_of, set_forward, set_link};
use size_classes::Class;

/// Takes the first free block off a page's list, and returns it: it is allocated, and forwards to itself.
#[inline(always)]
pub fn pop(arena: &mut Arena, page: usize, row: &mut PageRow) -> usize
    requires page { page < 1048576 }
    requires within { 2048 * page + 2048 ≤ length arena.old.words }
    requires chain { IsFreeList arena.old.words (2048 * page) row.old.class row.old.first row.old.allocated }
    requires some { row.old.allocated < blocks_in row.old.class }
    ensures free { slice_get (flags_of arena.old.words (2048 * page) row.old.class) result ≡ Some false }
    ensures flags { flags_of arena.new.words (2048 * page) row.old.class
        ≡ slice_set (flags_of arena.old.words (2048 * page) row.old.class) result true }
    ensures chain { IsFreeList arena.new.words (2048 * page) row.old.class row.new.first (row.old.allocated + 1) }
    ensures row { row.new ≡ record row.old { first = row.new.first; allocated = row.old.allocated + 1 } }
    ensures words { arena.new.words ≡ slice_set arena.old.words (address_of row.old.class page result)
        (address_of row.old.class page result) }
    ensures pages { arena.new.pages ≡ arena.old.pages }
{
    let block = row.first as usize - 1;
    row.first = arena.link(block);
    row.allocated += 1;
    arena.set_forward(block, block as u64);
    let offset = (block - 2048 * page) as u32;
    (offset / row.class.size()) as usize
}

/// Says of a block that it is free, and names the next free one.
#[inline(always)]
fn link_free(words: &mut [u64], block: usize, next: u64)
    requires { block + 3 < length words.old }
    ensures { words.new ≡ slice_set (slice_set words.old block free_mark) (block + 3) next }
{
    set_forward(words, block, u64::MAX);
    set_link(words, block, next);
}

/// Puts an allocated block on a page's list: it is free, and the first of the list.
#[inline(always)]
pub fn push(words: &mut [u64], page: usize, row: &mut PageRow, index: usize)
    requires page { page < 1048576 }
    requires within { 2048 * page + 2048 ≤ length words.old }
    requires chain { IsFreeList words.old (2048 * page) row.old.class row.old.first row.old.allocated }
    requires allocated { slice_get (flags_of words.old (2048 * page) row.old.class) index ≡ Some true }
    ensures flags { flags_of words.new (2048 * page) row.old.class
        ≡ slice_set (flags_of words.old (2048 * page) row.old.class) index false }
    ensures chain { IsFreeList words.new (2048 * page) row.old.class row.new.first (row.old.allocated - 1) }
    ensures some { 0 < row.old.allocated }
    ensures row { row.new ≡ row_given page index row.old }
    ensures words { words.new ≡ slice_set (slice_set words.old (address_of row.old.class page index) free_mark)
        (address_of row.old.class page index + 3) row.old.first }
{
    let block = 2048 * page + index * row.class.size() as usize;
    link_free(words, block, row.first);
    row.first = block as u64 + 1;
    row.allocated -= 1;
}

/// Links all blocks of a page of a class, each to the next and the last to none. Returns the link to the first.
#[inline(always)]
fn link_in(words: &mut [u64], page: usize, class: Class) -> u64
    requires page { page < 1048576 }
    requires within { 2048 * page + 2048 ≤ length words.old }
    ensures flags { flags_of words.new (2048 * page) class ≡ replicate (blocks_in class) false }
    ensures chain { IsFreeList words.new (2048 * page) class result 0 }
    ensures words { SameOutside words.old words.new (2048 * page) }
{
    let size = class.size() as usize;
    let mut i = class.blocks_per_page() as usize;
    let mut block = 2048 * page + i * size;
    let mut first = 0;
    while i > 0 {
        i -= 1;
        block -= size;
        link_free(words, block, first);
        first = block as u64 + 1;
    }
    first
}

/// Puts all blocks of a page that gets a class on its list.
pub fn link_blocks(arena: &mut Arena, page: usize, class: Class) -> PageRow
    requires page { page < 1048576 }
    requires within { 2048 * page + 2048 ≤ length arena.old.words }
    ensures flags { flags_of arena.new.words (2048 * page) class ≡ replicate (blocks_in class) false }
    ensures chain { IsFreeList arena.new.words (2048 * page) class result.first 0 }
    ensures row { result ≡ record {
      class = class;
      first = result.first;
      allocated = 0;
      evacuating = false;
      is_target = false;
    } }
    ensures words { SameOutside arena.old.words arena.new.words (2048 * page) }
    ensures pages { arena.new.pages ≡ arena.old.pages }
    ensures known { class < CLASSES }
{
    let words = arena.words_mut();
    let first = link_in(words, page, class);
    PageRow {
        class,
        first,
        allocated: 0,
        evacuating: false,
        is_target: false,
    }
}

/// Returns word 0 of a block of a page of a class.
#[inline(always)]
fn mark_of(words: &[u64], page: usize, class: Class, index: usize) -> u64
    requires page { page < 1048576 }
    requires within { 2048 * page + 2048 ≤ length words.now }
    requires block { index < blocks_in class }
    ensures { slice_get (flags_of words.now (2048 * page) class) index ≡ Some (not (result == free_mark)) }
{
    let block = 2048 * page + index * class.size() as usize;
    forward_of(words, block)
}

/// Returns whether a block of a page of a class is allocated.
#[inline(always)]
#[tactic(auto, unfolding(crate::specs::FreeList::free_mark))]
fn is_taken_in(words: &[u64], page: usize, class: Class, index: usize) -> bool
    requires page { page < 1048576 }
    requires within { 2048 * page + 2048 ≤ length words.now }
    requires block { index < blocks_in class }
    ensures { slice_get (flags_of words.now (2048 * page) class) index ≡ Some result }
{
    mark_of(words, page, class, index) != u64::MAX
}

/// Returns whether a block of a page of the arena is allocated.
pub fn is_taken(arena: &Arena, page: usize, class: Class, index: usize) -> bool
    requires page { page < 1048576 }
    requires within { 2048 * page + 2048 ≤ length arena.now.words }
    requires block { index < blocks_in class }
    ensures { slice_get (flags_of arena.now.words (2048 * page) class) index ≡ Some result }
{
    is_taken_in(arena.words(), page, class, index)
}

/// Returns whether a block of a page of a class isn't allocated, or has a colour.
#[inline(always)]
fn stays(words: &[u64], page: usize, class: Class, index: usize, colour: bool) -> bool
    requires page { page < 1048576 }
    requires within { 2048 * page + 2048 ≤ length words.now }
    requires block { index < blocks_in class }
    ensures stays { result ≡ true → slice_get (flags_of words.now (2048 * page) class) index ≡ Some true
        → has_colour words.now colour (address_of class page index) ≡ true }
    ensures goes { result ≡ false → (slice_get (flags_of words.now (2048 * page) class) index ≡ Some true)
        × (has_colour words.now colour (address_of class page index) ≡ false) }
{
    if is_taken_in(words, page, class, index) {
        let block = 2048 * page + index * class.size() as usize;
        return block::has_colour(words, block, colour);
    }
    true
}

/// Looks at a block of a page: if it is allocated and hasn't the colour, it goes on the page's list. Records of other
/// pages that went together with the page's record and the words still do.
#[inline(always)]
fn look(words: &mut [u64], page: usize, row: &mut PageRow, index: usize, colour: bool)
    requires page { page < 1048576 }
    requires within { 2048 * page + 2048 ≤ length words.old }
    requires chain { IsFreeList words.old (2048 * page) row.old.class row.old.first row.old.allocated }
    requires block { index < blocks_in row.old.class }
    ensures len { length words.new ≡ length words.old }
    ensures chain { IsFreeList words.new (2048 * page) row.old.class row.new.first row.new.allocated }
    ensures row { row.new ≡ record row.old { first = row.new.first; allocated = row.new.allocated } }
    ensures together { (rows : List (Option Row)) → Together rows words.old → row_at rows page ≡ Some row.old
        → Together (slice_set rows page (Some row.new)) words.new }
    ensures looks { (rows : List (Option Row)) → Together rows words.old → row_at rows page ≡ Some row.old
        → LooksAt colour page index (joined rows words.old) (joined (slice_set rows page (Some row.new)) words.new) }
{
    if stays(words, page, row.class, index, colour) {
        return;
    }
    push(words, page, row, index);
}

/// Looks at `count` blocks of a page in a row, from one of them on. Returns the page's record afterwards.
#[inline(always)]
fn sweep_in(
    words: &mut [u64],
    page: usize,
    row: PageRow,
    from: usize,
    count: usize,
    colour: bool,
) -> PageRow
    requires page { page < 1048576 }
    requires within { 2048 * page + 2048 ≤ length words.old }
    requires chain { IsFreeList words.old (2048 * page) row.class row.first row.allocated }
    requires blocks { from + count ≤ blocks_in row.class }
    ensures row { result ≡ record row { first = result.first; allocated = result.allocated } }
    ensures together { (rows : List (Option Row)) → Together rows words.old → row_at rows page ≡ Some row
        → Together (slice_set rows page (Some result)) words.new }
    ensures looks { (rows : List (Option Row)) → Together rows words.old → row_at rows page ≡ Some row
        → Looks colour page from (joined rows words.old) count (joined (slice_set rows page (Some result)) words.new) }
{
    let mut swept = row;
    let mut looked = 0;
    while looked < count {
        look(words, page, &mut swept, from + looked, colour);
        looked += 1;
    }
    swept
}

/// Sweeps blocks of a page in the arena, and updates the page's record.
pub fn sweep(
    arena: &mut Arena,
    page: usize,
    row: &mut PageRow,
    from: usize,
    count: usize,
    colour: bool,
)
    requires page { page < 1048576 }
    requires within { 2048 * page + 2048 ≤ length arena.old.words }
    requires chain { IsFreeList arena.old.words (2048 * page) row.old.class row.old.first row.old.allocated }
    requires blocks { from + count ≤ blocks_in row.old.class }
    ensures row { row.new ≡ record row.old { first = row.new.first; allocated = row.new.allocated } }
    ensures together { (rows : List (Option Row)) → Together rows arena.old.words → row_at rows page ≡ Some row.old
        → Together (slice_set rows page (Some row.new)) arena.new.words }
    ensures looks { (rows : List (Option Row)) → Together rows arena.old.words → row_at rows page ≡ Some row.old
        → Looks colour page from (joined rows arena.old.words) count (joined (slice_set rows page (Some row.new)) arena.new.words) }
    ensures pages { arena.new.pages ≡ arena.old.pages }
{
    *row = sweep_in(arena.words_mut(), page, *row, from, count, colour);
}

/// How many blocks are looked at as one, if none of them is allocated.
const GROUP: usize = 8;

/// Returns whether some block of a group is allocated, by one test of the words of all.
#[tactic(auto, using(crate::proofs::Threading::blocks_few))]
#[inline(always)]
fn some_taken(words: &[u64], page: usize, class: Class, from: usize) -> bool
    requires page { page < 1048576 }
    requires within { 2048 * page + 2048 ≤ length words.now }
    requires group { from + GROUP ≤ blocks_in class }
    ensures { result ≡ false → AreFree words.now (2048 * page) class from (from + GROUP) }
{
    let marks = mark_of(words, page, class, from)
        & mark_of(words, page, class, from + 1)
        & mark_of(words, page, class, from + 2)
        & mark_of(words, page, class, from + 3)
        & mark_of(words, page, class, from + 4)
        & mark_of(words, page, class, from + 5)
        & mark_of(words, page, class, from + 6)
        & mark_of(words, page, class, from + 7);
    marks != u64::MAX
}

/// Returns the first place, from one on, that isn't at a group without allocated blocks.
#[inline(always)]
fn past_free(words: &[u64], page: usize, class: Class, from: usize) -> usize
    requires page { page < 1048576 }
    requires within { 2048 * page + 2048 ≤ length words.now }
    ensures behind { from ≤ result }
    ensures free { AreFree words.now (2048 * page) class from result }
{
    let last = (class.blocks_per_page() as usize).saturating_sub(GROUP - 1);
    let mut place = from;
    while place < last && !some_taken(words, page, class, place) {
        place += GROUP;
    }
    place
}

/// Returns the first allocated block of a page of a class from a place on.
#[inline(never)]
pub fn next_allocated(arena: &Arena, page: usize, class: Class, from: usize) -> Option<usize>
    requires page { page < 1048576 }
    requires within { 2048 * page + 2048 ≤ length arena.now.words }
    ensures some { IfSome result (λ i. (from ≤ i) × (slice_get (flags_of arena.now.words (2048 * page) class) i ≡ Some true)
        × AreFree arena.now.words (2048 * page) class from i) }
    ensures none { IsNone result → AreFree arena.now.words (2048 * page) class from (blocks_in class) }
{
    let words = arena.words();
    let blocks = class.blocks_per_page() as usize;
    if from < blocks && is_taken_in(words, page, class, from) {
        return Some(from);
    }
    for i in past_free(words, page, class, from)..blocks {
        if is_taken_in(words, page, class, i) {
            return Some(i);
        }
    }
    None
}
