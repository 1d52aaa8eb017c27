//! The space bound: with how many pages no new object is ever refused for lack of space.
#![tactic(auto)]

pub mod bound;
pub mod fitting;
pub mod pace;
pub mod pages;
pub mod steps;

pub use fitting::{
    Needs, below, least_pages, moved_quanta, pace_fits, pace_needs, spare, unmoved_quanta,
};
pub use pace::{MOST_QUANTA, MOST_UNMOVED_QUANTA, Pace};
pub use pages::pages_of_class;
