//! The page in which a browser shows a run, or two: HTML, CSS and JavaScript, which stand in the folder `page`.
#![tactic(auto)]

mod page;

pub use page::{BETWEEN, FOOT, HEAD};
