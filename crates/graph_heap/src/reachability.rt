//! The objects of a graph heap that can be reached, their distances from the roots, and paths to them. Also the graph
//! heap to which a history leads.
mod findings;
mod following;
mod found;
mod route;
mod searching;

pub use findings::{Search, holder};
pub use following::present;
pub use found::{Found, Holder};
pub use route::{Route, Standing, Step, shortest_path};
pub use searching::search;
