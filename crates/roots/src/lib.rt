//! The roots of a heap: the slots of the mutators and the statics, as one row of cells.
#![tactic(auto)]

pub mod roots;

pub use roots::Roots;
