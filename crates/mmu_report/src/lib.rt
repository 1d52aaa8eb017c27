//! Minimum mutator utilisation (Cheng and Blelloch, 2001): the fewest ticks that the mutators had in any window of a
//! number of ticks; and the bound that a schedule with spaced quanta promises.
#![tactic(auto)]

mod front;
mod laws;
pub mod share;
pub mod window;

pub use laws::{bound_is_kept, bound_is_met};
pub use share::{bound, permille};
pub use window::least_mutator;
