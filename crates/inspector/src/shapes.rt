//! The report by shape: the objects of each shape that a heap holds.
mod counting;
mod held;
mod text;

pub use counting::{Counted, count};
pub use held::{Cells, Held};
pub use text::shapes_text;
