//! The statements of a drawn graph.
ghost use Rattle.std.specs.Prelude.{◌≡◌, ◌≤◌, ◌<◌, ◌+◌, ◌++◌, length, take};
ghost use Rattle.inspector.specs.Roots.{root_name};
ghost use Rattle.pictures.specs.Statements.{box_line, holds_line, shape_words, object_line, cell_line, left_out_line, statement_line};

use crate::writing::DocumentLine;
use graph_heap::Shape;
use inspector::Root;
use trace::{put, put_named};

/// A statement of a drawn graph. Each is a line of text.
#[derive(Clone, Copy, Debug, PartialEq, Eq)]
pub enum Statement {
    /// The beginning of a graph.
    Open,
    /// References lead from left to right, so that the objects that one object refers to stand below one another.
    LeftToRight,
    /// A root.
    Box(Root),
    /// A root, and the identity of the object that it holds.
    Holds(Root, u64),
    /// An object: its identity and its shape.
    Object(u64, Shape),
    /// The identity of an object, a reference cell of it, and the identity that the cell holds.
    Cell(u64, u64, u64),
    /// How many objects aren't drawn.
    LeftOut(u64),
    /// The end of a graph.
    Close,
}

/// Puts the name of a root.
fn put_root(out: &mut [u8], at: usize, root: Root) -> usize
    requires { at + 46 ≤ length out.old }
    ensures text { take result out.new ≡ take at out.old ++ root_name root }
    ensures place { result ≤ at + 46 }
{
    match root {
        Root::Slot(mutator, slot) => {
            let end = put_named(out, at, b"slot ", mutator);
            put_named(out, end, b" ", slot)
        }
        Root::Static(k) => put_named(out, at, b"static ", k),
    }
}

/// Puts the box of a root.
fn put_box(out: &mut [u8], root: Root) -> usize
    requires { 256 ≤ length out.old }
    ensures text { take result out.new ≡ box_line root }
    ensures place { result < 256 }
{
    let end = put(out, 0, b"    \"");
    let end = put_root(out, end, root);
    put(out, end, b"\" [shape=\"box\"];")
}

/// Puts a root, and the object that it holds.
fn put_holds(out: &mut [u8], root: Root, id: u64) -> usize
    requires { 256 ≤ length out.old }
    ensures text { take result out.new ≡ holds_line root id }
    ensures place { result < 256 }
{
    let end = put(out, 0, b"    \"");
    let end = put_root(out, end, root);
    let end = put_named(out, end, b"\" -> \"object ", id);
    put(out, end, b"\";")
}

/// Puts a shape in words.
fn put_shape(out: &mut [u8], at: usize, shape: Shape) -> usize
    requires { at + 66 ≤ length out.old }
    ensures text { take result out.new ≡ take at out.old ++ shape_words shape }
    ensures place { result ≤ at + 66 }
{
    match shape {
        Shape::Plain { refs, words } => {
            let end = put_named(out, at, b"plain, references ", u64::from(refs));
            put_named(out, end, b", words ", u64::from(words))
        }
        Shape::RefArray(n) => put_named(out, at, b"array, references ", u64::from(n)),
        Shape::WordArray(n) => put_named(out, at, b"array, words ", u64::from(n)),
    }
}

/// Puts an object.
fn put_object(out: &mut [u8], id: u64, shape: Shape) -> usize
    requires { 256 ≤ length out.old }
    ensures text { take result out.new ≡ object_line id shape }
    ensures place { result < 256 }
{
    let end = put_named(out, 0, b"    \"object ", id);
    let end = put_named(out, end, b"\" [label=\"object ", id);
    let end = put(out, end, b"\\n");
    let end = put_shape(out, end, shape);
    put(out, end, b"\"];")
}

/// Puts a reference cell of an object, and the object that it refers to.
fn put_cell(out: &mut [u8], from: u64, cell: u64, to: u64) -> usize
    requires { 256 ≤ length out.old }
    ensures text { take result out.new ≡ cell_line from cell to }
    ensures place { result < 256 }
{
    let end = put_named(out, 0, b"    \"object ", from);
    let end = put_named(out, end, b"\" -> \"object ", to);
    let end = put_named(out, end, b"\" [label=\"", cell);
    put(out, end, b"\"];")
}

/// Puts how many objects aren't drawn.
fn put_left_out(out: &mut [u8], n: u64) -> usize
    requires { 256 ≤ length out.old }
    ensures text { take result out.new ≡ left_out_line n }
    ensures place { result < 256 }
{
    let head = b"    \"left out\" [shape=\"note\", label=\"objects left out: ";
    let end = put_named(out, 0, head, n);
    put(out, end, b"\"];")
}

impl DocumentLine for Statement {
    ghost line = { statement_line };

    fn put(self, out: &mut [u8]) -> usize {
        match self {
            Statement::Open => put(out, 0, b"digraph \"graph heap\" {"),
            Statement::LeftToRight => put(out, 0, b"    rankdir=\"LR\";"),
            Statement::Box(root) => put_box(out, root),
            Statement::Holds(root, id) => put_holds(out, root, id),
            Statement::Object(id, shape) => put_object(out, id, shape),
            Statement::Cell(from, cell, to) => put_cell(out, from, cell, to),
            Statement::LeftOut(n) => put_left_out(out, n),
            Statement::Close => put(out, 0, b"}"),
        }
    }
}
