//! Moving: a page with few allocated blocks is chosen, and they are moved to the other pages of its class, one
//! at a time.
#![tactic(auto)]

pub mod choosing;
pub mod moving;

pub use choosing::{Chosen, choose_one};
pub use moving::{Moved, move_next, move_one};
