//! The reports of a heap and its collector, in lines of text.
#![tactic(auto)]

mod by_root;
mod by_size;
mod class_lines;
mod cycles;
mod fault;
mod filling;
mod lines;
pub mod pages_needed;
mod present;
mod reporting;
mod shapes;

pub use by_root::{
    ByRoot, Holding, Owned, Root, RootRow, count_by_root, owners, root_at, roots_text,
};
pub use by_size::report_sizes;
pub use cycles::{Cycle, Cycles, Layout, Log, Sweep, cycles_text, figures};
pub use fault::WriteFault;
pub use present::graph_after;
pub use reporting::report;
pub use shapes::{Cells, Counted, Held, count, shapes_text};
