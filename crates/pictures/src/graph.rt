//! A graph heap as a DOT document: the objects nearest to its roots, and the references between them.
mod drawing;
mod statement;

pub use drawing::draw_graph;
