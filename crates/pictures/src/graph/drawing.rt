//! Drawing a graph heap.
ghost use Rattle.std.specs.Prelude.{◌≡◌, ◌+◌, ◌++◌, OnOk, OnErr, nat_eq};
ghost use Rattle.std.specs.Set.{is_member};
ghost use Rattle.trace.specs.LinesProcessed.{writes_failed};
ghost use Rattle.trace.specs.Streams.{GrowsByPart, failed, taken_by};
ghost use Rattle.pictures.specs.Statements.{dot_text};
ghost use Rattle.pictures.specs.GraphDrawing as drawings;
ghost use Rattle.pictures.specs.GraphDrawing.{holder_drawn, cells_drawn, object_drawn, objects_drawn, graph_picture};
ghost use Rattle.pictures.specs.GraphDrawn.{GraphDrawn};

use crate::graph::statement::Statement;
use crate::writing::{write_line, write_lines};
use graph_heap::{Found, Holder, Reference, Search, holder, search};
use inspector::root_at;
use std::alloc::Global;
use trace::{PlayFault, Sink, WriteFailed};

/// Writes how many objects aren't drawn, if there are any.
fn write_left_out<K: Sink>(n: usize, sink: &mut K) -> Result<(), WriteFailed>
    ensures ok { OnOk result (K.taken sink.new ≡ K.taken sink.old ++ dot_text (drawings.left_out n)) }
    ensures err { OnErr result (GrowsByPart (K.taken sink.old) (K.taken sink.new) (dot_text (drawings.left_out n))) }
    ensures cause { K.failures sink.new ≡ K.failures sink.old + failed result }
{
    if n == 0 {
        return Ok(());
    }
    write_line(sink, Statement::LeftOut(n as u64))
}

/// A graph heap, whose first objects that were found are drawn, at most `most` of them.
#[derive(Drop)]
struct Drawing<'a> {
    graph: &'a Reference,
    roots: &'a [u64],
    search: &'a Search,
    most: usize,
    ghost row: { roots.now ≡ graph.now.roots },
}

impl<'a> Drawing<'a> {
    ghost use Rattle.pictures.specs.Drawing.{shown_in};

    /// Returns whether an object is drawn.
    fn shows(&self, id: u64) -> bool
        ensures { result ≡ is_member nat_eq (shown_in self.now) id }
    {
        match self.search.place(id) {
            Some(place) => place < self.most,
            None => false,
        }
    }

    /// Writes a holder, and the object that it holds.
    fn write_holder<K: Sink>(
        &self,
        holder: Holder,
        id: u64,
        sink: &mut K,
    ) -> Result<(), WriteFailed>
        ensures ok { OnOk result (K.taken sink.new
            ≡ K.taken sink.old ++ dot_text (holder_drawn self.now.graph.now.limits holder id)) }
        ensures err { OnErr result (GrowsByPart (K.taken sink.old) (K.taken sink.new)
            (dot_text (holder_drawn self.now.graph.now.limits holder id))) }
        ensures cause { K.failures sink.new ≡ K.failures sink.old + failed result }
    {
        match holder {
            Holder::Root(place) => {
                let root = root_at(self.graph.limits(), place);
                write_lines(sink, &[Statement::Box(root), Statement::Holds(root, id)])
            }
            Holder::Cell { object, cell } => {
                write_line(sink, Statement::Cell(object, cell as u64, id))
            }
        }
    }

    /// Writes the cells that hold objects which are drawn. The cells are those of an object, or else they are the
    /// roots.
    fn write_cells<K: Sink>(
        &self,
        object: Option<u64>,
        cells: &[u64],
        sink: &mut K,
    ) -> Result<(), WriteFailed>
        ensures ok { OnOk result (K.taken sink.new ≡ K.taken sink.old
            ++ dot_text (cells_drawn self.now.graph.now.limits (shown_in self.now) object cells.now)) }
        ensures err { OnErr result (GrowsByPart (K.taken sink.old) (K.taken sink.new)
            (dot_text (cells_drawn self.now.graph.now.limits (shown_in self.now) object cells.now))) }
        ensures cause { K.failures sink.new ≡ K.failures sink.old + failed result }
    {
        for (cell, id) in cells.iter().enumerate() {
            if self.shows(*id) {
                self.write_holder(holder(object, cell), *id, sink)?;
            }
        }
        Ok(())
    }

    /// Writes an object, and its references.
    fn write_object<K: Sink>(&self, id: u64, sink: &mut K) -> Result<(), WriteFailed>
        ensures ok { OnOk result (K.taken sink.new
            ≡ K.taken sink.old ++ dot_text (object_drawn self.now.graph.now (shown_in self.now) id)) }
        ensures err { OnErr result (GrowsByPart (K.taken sink.old) (K.taken sink.new)
            (dot_text (object_drawn self.now.graph.now (shown_in self.now) id))) }
        ensures cause { K.failures sink.new ≡ K.failures sink.old + failed result }
    {
        write_line(sink, Statement::Object(id, self.graph.shape(id)))?;
        self.write_cells(Some(id), self.graph.refs(id), sink)
    }

    /// Writes objects of those that were found, and their references.
    fn write_objects<K: Sink>(&self, objects: &[Found], sink: &mut K) -> Result<(), WriteFailed>
        ensures ok { OnOk result (K.taken sink.new
            ≡ K.taken sink.old ++ dot_text (objects_drawn self.now.graph.now (shown_in self.now) objects.now)) }
        ensures err { OnErr result (GrowsByPart (K.taken sink.old) (K.taken sink.new)
            (dot_text (objects_drawn self.now.graph.now (shown_in self.now) objects.now))) }
        ensures cause { K.failures sink.new ≡ K.failures sink.old + failed result }
    {
        for object in objects {
            self.write_object(object.id, sink)?;
        }
        Ok(())
    }

    /// Writes the document.
    fn write<K: Sink>(&self, sink: &mut K) -> Result<(), WriteFailed>
        ensures ok { OnOk result (K.taken sink.new
            ≡ K.taken sink.old ++ graph_picture self.now.graph.now self.now.most self.now.search.now.found) }
        ensures err { OnErr result (GrowsByPart (K.taken sink.old) (K.taken sink.new)
            (graph_picture self.now.graph.now self.now.most self.now.search.now.found)) }
        ensures cause { K.failures sink.new ≡ K.failures sink.old + failed result }
    {
        let found = self.search.found();
        let count = self.most.min(found.len());
        write_lines(sink, &[Statement::Open, Statement::LeftToRight])?;
        self.write_cells(None, self.roots, sink)?;
        self.write_objects(&found[..count], sink)?;
        write_left_out(found.len().saturating_sub(self.most), sink)?;
        write_line(sink, Statement::Close)
    }
}

/// Writes a graph heap to a sink as a DOT document, for Graphviz, in lines that end with LF. It has the objects that can
/// be reached, at most `most` of them, nearest to the roots first, each with its identity and its shape. It has a box for
/// each root that holds one of them, and each reference between them, with the index of its cell. It says how many
/// objects aren't drawn, if there are any. It takes memory only for the search and the roots, before the first write. It
/// fails if a write failed, and then the sink has taken a beginning of the document, or if memory was refused.
pub fn draw_graph<K: Sink>(
    alloc: Global,
    graph: &Reference,
    most: u32,
    sink: &mut K,
) -> Result<(), PlayFault>
    ensures drawn { GraphDrawn graph.now most (taken_by K.taken K.sent sink.old sink.new) result }
    ensures cause { K.failures sink.new ≡ K.failures sink.old + writes_failed result }
{
    let search = search(alloc, graph)?;
    let roots = graph.roots()?;
    let drawing = Drawing {
        graph,
        roots: roots.as_slice(),
        search: &search,
        most: most as usize,
    };
    match drawing.write(sink) {
        Ok(()) => Ok(()),
        Err(WriteFailed) => Err(PlayFault::Write),
    }
}
