//! Tests of public calls that no trace reaches, by values that were worked out by hand: calls that the program doesn't
//! make, calls that are refused memory, texts, and limits. They have a crate of their own, because a crate with tests
//! is proved twice.
#![tactic(auto)]

#[cfg(test)]
mod tests;
