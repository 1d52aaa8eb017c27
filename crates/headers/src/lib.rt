//! The arena: the words of a heap, and the record that stands in each block.
#![tactic(auto)]

pub mod arena;
pub mod block;
mod header;
mod laws;

pub use arena::Arena;
pub use laws::{
    cell_written, colour_written, copied_block, forward_written, header_packed, link_written,
    new_block, other_blocks,
};
