//! The record of one page.
ghost use Rattle.std.specs.Prelude.{◌≡◌, ◌≤◌};
ghost use Rattle.pages.specs.Index.{OfClass, row_usable, row_free_on, row_choosable};

use size_classes::Class;

/// A page in use: its class, its first free block (the address plus one, 0 for none), how many of its
/// blocks are allocated, and its marks.
#[derive(Clone, Copy)]
pub struct PageRow {
    pub class: Class,
    pub first: u64,
    pub allocated: u32,
    pub evacuating: bool,
    pub is_target: bool,
}

/// Returns whether a page is of its class, isn't evacuating, and has a free block.
pub fn is_usable(class: Class, row: Option<PageRow>) -> bool
    requires { OfClass class row }
    ensures { result ≡ row_usable class row }
{
    match row {
        None => false,
        Some(r) => !r.evacuating && r.allocated < class.blocks_per_page(),
    }
}

/// Returns how many free blocks of a class a page has, none if it is evacuating.
#[inline(always)]
pub fn free_on(class: Class, row: Option<PageRow>) -> usize
    ensures free { result ≡ row_free_on class row }
    ensures within { result ≤ 512 }
{
    match row {
        Some(r) if r.class == class && !r.evacuating => {
            class.blocks_per_page().saturating_sub(r.allocated) as usize
        }
        _ => 0,
    }
}

/// Returns whether a page is of the class, and neither evacuating nor a target.
pub fn is_choosable(class: Class, row: Option<PageRow>) -> bool
    ensures { result ≡ row_choosable class row }
{
    match row {
        None => false,
        Some(r) => r.class == class && !r.evacuating && !r.is_target,
    }
}
