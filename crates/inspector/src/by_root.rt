//! The report by root: the objects that each root owns.
mod counting;
mod owning;
mod places;
mod text;

pub use counting::{ByRoot, Holding, RootRow, count_by_root};
pub use owning::{Owned, owners};
pub use places::{Root, root_at};
pub use text::roots_text;
