//! The packages that need a package directly.

ghost use Rattle.std.specs.Prelude.{◌≡◌, ◌<◌, All, IfOk, length};
ghost use Rattle.std.specs.List.{Contains};
ghost use Rattle.cargo_lock_graph.specs.Edges.{far_ends};
ghost use Rattle.cargo_lock_query.specs.Needers.{AreNeeders};
ghost use Rattle.lists.specs.Places.{IsPlaces};

use cargo_lock_graph::graph::{EdgeDirection, Graph, NodeIndex};
use cargo_lock_graph::listed::list_ends;
use std::alloc::{AllocError, Global};

/// The nodes of the packages that depend on the package of a node, each once and ascending. Fails
/// when out of memory.
///
/// ```
/// for needer in &needers(rt.alloc(), graph, node)? {
///     if let Some(package) = graph.node_weight(*needer) {
///         let name = &package.name;
///         println!(rt; "{name} needs it")?;
///     }
/// }
/// ```
pub fn needers(alloc: Global, graph: &Graph, node: NodeIndex) -> Result<Vec<NodeIndex>, AllocError>
    ensures { IfOk result (λ needers. AreNeeders graph.now node needers.items) }
{
    ends_once(alloc, graph, node, EdgeDirection::Incoming)
}

// The nodes to which the edges of a node lead in a direction, each once and ascending.
pub(crate) fn ends_once(
    alloc: Global,
    graph: &Graph,
    node: NodeIndex,
    direction: EdgeDirection,
) -> Result<Vec<NodeIndex>, AllocError>
    ensures places { IfOk result (λ ends. IsPlaces
        (Contains (far_ends direction graph.now.edges node)) (length graph.now.packages)
        ends.items) }
    ensures within { IfOk result (λ _.
        All (λ k. k < length graph.now.packages) (far_ends direction graph.now.edges node)) }
{
    let mut ends = list_ends(alloc, graph, node, direction)?;
    ends.sort_unstable();
    ends.dedup();
    Ok(ends)
}
