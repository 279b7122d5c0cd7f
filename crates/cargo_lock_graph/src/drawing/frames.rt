//! How many frames the stack of a walk holds. The program does not ask it: tests of long chains do.

ghost use Rattle.std.specs.Prelude.{◌≡◌, ◌<◌, ◌≤◌, List, IfOk, length};
ghost use Rattle.cargo_lock_graph.specs.declared.drawing.entry.Entry.{Entry};
ghost use Rattle.cargo_lock_graph.specs.Drawing.{IsDrawing};
ghost use Rattle.cargo_lock_graph.specs.Edges.{far_ends};
ghost use Rattle.cargo_lock_graph.specs.Frames.{greatest_frames};

use crate::drawing::walk::Walk;
use crate::graph::{EdgeDirection, Graph, NodeIndex};
use std::alloc::{AllocError, Global};

/// The greatest number of frames that the stack holds at once while what is reachable from a node is
/// drawn: one more than the greatest depth of an entry that is the first of its node. There are at
/// most as many as nodes. Fails when out of memory. The start must be a node.
pub fn most_frames(
    alloc: Global,
    graph: &Graph,
    start: NodeIndex,
    direction: EdgeDirection,
) -> Result<usize, AllocError>
    requires { start < length graph.now.packages }
    ensures are { IfOk result (λ frames. (entries : List Entry)
        × IsDrawing (far_ends direction graph.now.edges) start entries
        × (frames ≡ greatest_frames entries)) }
    ensures within { IfOk result (λ frames. frames ≤ length graph.now.packages) }
{
    graph.has_both_ends();
    let mut walk = Walk::new(alloc, graph, start, direction)?;
    let mut most = walk.frame_count();
    'entries: while let Some(_) = walk.next(graph) {
        most = most.max(walk.frame_count());
    }
    Ok(most)
}
