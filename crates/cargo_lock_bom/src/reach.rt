//! The nodes of a graph to which edges lead.

ghost use Rattle.std.specs.Prelude.{◌≡◌, ◌↔◌, ◌<◌, ℕ, IfOk, length};
ghost use Rattle.cargo_lock_graph.specs.declared.graph.EdgeDirection.TheVariants.{Outgoing};
ghost use Rattle.cargo_lock_graph.specs.Edges.{far_ends};
ghost use Rattle.cargo_lock_graph.specs.Paths.{IsReachable};
ghost use Rattle.lists.specs.Marks.{IsMarked};

use crate::dependencies::ends;
use cargo_lock_graph::graph::{Graph, NodeIndex};
use lists::reach::Reach;
use std::alloc::{AllocError, Global};

/// For each node, whether edges lead to it from the start, which is reached too. Fails when out of
/// memory.
pub(crate) fn reached_from(
    alloc: Global,
    graph: &Graph,
    start: NodeIndex,
) -> Result<Vec<bool>, AllocError>
    requires { start < length graph.now.packages }
    ensures count { IfOk result (λ marks. length marks.items ≡ length graph.now.packages) }
    ensures marks { IfOk result (λ marks. (k : ℕ)
        → IsMarked marks.items k ↔ IsReachable (far_ends Outgoing graph.now.edges) start k) }
{
    let mut search = Reach::new(alloc, graph.node_count())?;
    search.reach(start.index())?;
    while let Some(node) = search.next() {
        let ends = ends(alloc, graph, NodeIndex::new(node))?;
        search.reach_all(&ends)?;
    }
    Ok(search.into_marks())
}
