//! The blocks of a heap: pages and words together. A part of an object stands in one block, and is read and written
//! block by block. With them come the fields of a heap, which each step borrows whole, and the heap for which they
//! stand.
#![tactic(auto)]

pub mod grey;
pub mod heap_fields;
pub mod nodes;

pub use grey::Grey;
pub use heap_fields::HeapFields;
pub use nodes::counting::Copies;
pub use nodes::seeing::BlockView;
pub use nodes::{Nodes, Referent};
