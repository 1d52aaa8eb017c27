//! The view of a page.
use size_classes::Class;

/// A page in use: its class, how many of its blocks are allocated, and its marks. An evacuating page gets no new block,
/// and its blocks are moved away. A target is a page to which a block was moved since the last sweep.
#[derive(Clone, Copy, Debug, PartialEq, Eq)]
pub struct PageView {
    pub class: Class,
    pub allocated: usize,
    pub evacuating: bool,
    pub is_target: bool,
}
