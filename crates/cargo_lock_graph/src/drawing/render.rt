//! The text of a drawing, written to a target line by line. `put_node` writes the label of an entry
//! with the functions of `label.rt`.

ghost use Rattle.std.specs.Prelude.{◌≡◌, ◌<◌, ◌≤◌, ◌++◌, ◌∷◌, [], length, vec_len};
ghost use Rattle.cargo_lock_parts.specs.Ascii.{newline};
ghost use Rattle.cargo_lock_graph.specs.DrawingByLater.{drawn_by_later, line_by_later};
ghost use Rattle.cargo_lock_graph.specs.DrawingByLater.{prefix_by_later};
ghost use Rattle.cargo_lock_graph.specs.DrawingText.{branch_text, standard_symbols};
ghost use Rattle.cargo_lock_graph.specs.Labels.{label_at};
ghost use Rattle.cargo_lock_graph.specs.Rendering.{Draws};
ghost use Rattle.cargo_lock_graph.specs.Sinks.{CanCountFault, IsRendered, IsRenderedInto};
ghost use Rattle.cargo_lock_graph.specs.Sinks.{IsRenderedTo, IsWritten};
ghost use Rattle.cargo_lock_graph.specs.WalkState.{IsAbove, IsOn, KeepsLevels, to_come};

use crate::drawing::entry::Entry;
use crate::drawing::label::{put_exact_label, put_plain_line};
use crate::drawing::look::Look;
use crate::drawing::put::{OfSink, OfWriter, Put, Target, put_all};
use crate::drawing::sink::Sink;
use crate::drawing::walk::Walk;
use crate::graph::{EdgeDirection, Graph, NodeIndex};
use cargo_lock_parts::error::{Error, Result};
use std::alloc::Global;
use std::io::Write;

// The part of a prefix directly before a label.
fn branch(more: bool) -> &'static str
    ensures { result.now ≡ branch_text standard_symbols more }
{
    if more { "├── " } else { "└── " }
}

fn put_branch<T: Target>(out: &mut T, more: bool) -> Put
    requires { CanCountFault (T.state out.old).failures }
    ensures { IsWritten (T.state out.old) (T.state out.new)
        (branch_text standard_symbols more) result }
{
    put_all(out, branch(more).as_bytes())
}

// The prefix of an entry of this depth, which was the last that the walk returned: nothing at depth
// 0, and otherwise the levels above the entry, which the walk keeps, and the branch to its label.
fn put_prefix<T: Target>(out: &mut T, graph: &Graph, walk: &Walk, depth: usize) -> Put
    requires sound { CanCountFault (T.state out.old).failures }
    requires on { IsOn graph.now walk.now }
    requires above { IsAbove graph.now walk.now depth }
    requires depth { depth ≤ vec_len walk.now.stack }
    ensures { IsWritten (T.state out.old) (T.state out.new)
        (prefix_by_later standard_symbols depth (to_come graph.now walk.now)) result }
{
    if depth == 0 {
        return Ok(());
    }
    put_all(out, walk.levels_above())?;
    put_branch(out, walk.goes_on(graph, depth - 1))
}

// The label of a node, and a newline.
fn put_node<T: Target>(out: &mut T, graph: &Graph, node: NodeIndex, exact: bool) -> Put
    requires sound { CanCountFault (T.state out.old).failures }
    requires node { node < length graph.now.packages }
    ensures { IsWritten (T.state out.old) (T.state out.new)
        (label_at exact graph.now.packages node ++ (newline ∷ [])) result }
{
    let package = &graph[node];
    if !exact {
        return put_plain_line(out, package);
    }
    put_exact_label(out, package)?;
    put_all(out, b"\n")
}

// The line of an entry, which was the last that the walk returned.
fn put_line<T: Target>(
    out: &mut T,
    entry: Entry,
    look: &Look<'_>,
    graph: &Graph,
    walk: &Walk,
) -> Put
    requires sound { CanCountFault (T.state out.old).failures }
    requires on { IsOn graph.now walk.now }
    requires above { IsAbove graph.now walk.now entry.depth }
    requires depth { entry.depth ≤ vec_len walk.now.stack }
    requires node { entry.node < length graph.now.packages }
    ensures { IsWritten (T.state out.old) (T.state out.new)
        (line_by_later standard_symbols (label_at look.now.exact graph.now.packages) entry
        (to_come graph.now walk.now)) result }
{
    put_prefix(out, graph, walk, entry.depth)?;
    put_node(out, graph, NodeIndex::new(entry.node), look.exact)
}

// The lines of all entries that the walk still returns.
fn put_entries<T: Target>(out: &mut T, look: &Look<'_>, graph: &Graph, walk: &mut Walk) -> Put
    requires sound { CanCountFault (T.state out.old).failures }
    requires on { IsOn graph.now walk.old }
    requires levels { KeepsLevels graph.now walk.old }
    ensures { IsWritten (T.state out.old) (T.state out.new)
        (drawn_by_later standard_symbols (label_at look.now.exact graph.now.packages)
        (to_come graph.now walk.old)) result }
{
    while let Some(entry) = walk.next(graph) {
        put_line(out, entry, look, graph, walk)?;
    }
    Ok(())
}

// The line of the start, and those of all entries that the walk from it returns.
fn put_drawing<T: Target>(
    out: &mut T,
    look: &Look<'_>,
    graph: &Graph,
    walk: &mut Walk,
    start: NodeIndex,
) -> Put
    requires sound { CanCountFault (T.state out.old).failures }
    requires on { IsOn graph.now walk.old }
    requires levels { KeepsLevels graph.now walk.old }
    requires above { IsAbove graph.now walk.old 0 }
    requires start { start < length graph.now.packages }
    ensures { IsWritten (T.state out.old) (T.state out.new)
        (drawn_by_later standard_symbols (label_at look.now.exact graph.now.packages)
        (record { node = start; depth = 0 } ∷ to_come graph.now walk.old)) result }
{
    let first = Entry {
        node: start.index(),
        depth: 0,
    };
    put_line(out, first, look, graph, walk)?;
    put_entries(out, look, graph, walk)
}

// Draws what is reachable from a start. All memory is allocated before the first byte.
fn draw<T: Target>(
    alloc: Global,
    out: &mut T,
    graph: &Graph,
    start: NodeIndex,
    direction: EdgeDirection,
    look: &Look<'_>,
) -> Result<()>
    requires sound { CanCountFault (T.state out.old).failures }
    requires start { start < length graph.now.packages }
    ensures { Draws look.now.exact direction graph.now start
        (λ text. IsRendered (T.state out.old) (T.state out.new) text result) }
{
    graph.has_both_ends();
    let mut walk = Walk::new(alloc, graph, start, direction)?;
    match put_drawing(out, look, graph, &mut walk, start) {
        Ok(()) => Ok(()),
        Err(kind) => Err(Error::Io(kind)),
    }
}

/// Draws what is reachable from a node into a sink, along the edges in a direction. Each line is an
/// entry: the node itself, and, below the first entry of each node, the far ends of the node's
/// edges, newest first. A label is the name and the version, and if labels are exact also the
/// checksum, or else the source, or else `inexact`.
///
/// `Memory` means that the sink took nothing, since all memory is allocated before the first byte.
/// `Io` means that the sink failed once and took a prefix of the text. There is no other error. The
/// start must be a node, and the sink's count of errors must be below 2^64 - 1.
pub fn render_into<S: Sink>(
    alloc: Global,
    sink: &mut S,
    graph: &Graph,
    start: NodeIndex,
    direction: EdgeDirection,
    look: &Look<'_>,
) -> Result<()>
    requires sound { CanCountFault (S.failures sink.old) }
    requires start { start < length graph.now.packages }
    ensures { Draws look.now.exact direction graph.now start (λ text.
        IsRenderedInto (S.taken sink.old) (S.taken sink.new)
        (S.failures sink.old) (S.failures sink.new) text result) }
{
    let mut out = OfSink { sink };
    let drawn = draw(alloc, &mut out, graph, start, direction, look);
    let OfSink { sink } = out;
    // No effect at run time. The proof reads what the sink has taken from this use of it.
    let _ = &*sink;
    drawn
}

/// Draws what is reachable from a node to a writer, as `render_into` does. `Memory` means that
/// nothing was written, and `Io` that the writer failed after a prefix of the text. An interrupted
/// write and a write of no bytes are errors.
pub fn render_onto<W: Write>(
    alloc: Global,
    writer: &mut W,
    graph: &Graph,
    start: NodeIndex,
    direction: EdgeDirection,
    look: &Look<'_>,
) -> Result<()>
    requires { start < length graph.now.packages }
    ensures { Draws look.now.exact direction graph.now start
        (λ text. IsRenderedTo (W.contents writer.old) (W.contents writer.new) text result) }
{
    let mut out = OfWriter { writer, faults: 0 };
    let drawn = draw(alloc, &mut out, graph, start, direction, look);
    let OfWriter { writer, .. } = out;
    // No effect at run time. The proof reads what the writer holds from this use of it.
    let _ = &*writer;
    drawn
}
