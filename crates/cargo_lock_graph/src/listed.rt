//! Nodes of a graph as lists, whose memory is asked for before the first node is put into them.

ghost use Rattle.std.specs.Prelude.{◌≡◌, ◌<◌, All, IfOk, length};
ghost use Rattle.cargo_lock_graph.specs.Edges.{externals, far_ends};

use crate::graph::{EdgeDirection, Graph, NodeIndex};
use std::alloc::{AllocError, Global};

/// The nodes to which the edges at a node lead in a direction, newest edge first. Fails when out of
/// memory.
pub fn list_ends(
    alloc: Global,
    graph: &Graph,
    node: NodeIndex,
    direction: EdgeDirection,
) -> Result<Vec<NodeIndex>, AllocError>
    ensures are { IfOk result (λ ends. ends.items ≡ far_ends direction graph.now.edges node) }
    ensures within { IfOk result (λ ends. All (λ k. k < length graph.now.packages) ends.items) }
{
    graph.has_both_ends();
    let mut ends = Vec::with_capacity(alloc, edge_count(graph, node, direction))?;
    for edge in graph.edges_directed(node, direction) {
        ends.push(edge.far_end(direction))?;
    }
    Ok(ends)
}

// How many edges there are at a node.
fn edge_count(graph: &Graph, node: NodeIndex, direction: EdgeDirection) -> usize
    ensures { result ≡ length (far_ends direction graph.now.edges node) }
{
    // No effect at run time. The proof reads that the number of all edges fits from this call.
    let _all = graph.edge_count();
    graph.edges_directed(node, direction).count()
}

/// The nodes that no edge leaves or enters, in ascending order. Fails when out of memory.
pub fn list_externals(
    alloc: Global,
    graph: &Graph,
    direction: EdgeDirection,
) -> Result<Vec<NodeIndex>, AllocError>
    ensures are { IfOk result (λ nodes. nodes.items ≡ externals direction graph.now) }
    ensures within { IfOk result (λ nodes. All (λ k. k < length graph.now.packages) nodes.items) }
{
    let mut nodes = Vec::with_capacity(alloc, graph.node_count())?;
    for node in graph.externals(direction) {
        nodes.push(node)?;
    }
    Ok(nodes)
}
