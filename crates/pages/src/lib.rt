//! The table of pages: which page is in use by which class, and which of its blocks are allocated. The free
//! blocks of a page are threaded through their headers, and rows of bits find the page of the next block
//! at once.
#![tactic(auto)]

mod bits;
mod free_list;
mod levels;
mod page;
pub mod table;
pub mod view;

pub use page::PageRow;
pub use table::{Block, PageTable};
pub use view::PageView;
