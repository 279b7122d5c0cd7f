//! What a picture of a graph shows: packages, and the edges among them.

ghost use Rattle.std.specs.Prelude.{◌≡◌, ◌+◌, ◌++◌, ◌<◌, ◌↔◌, All, IfOk, IsTrue, OnOk, length};
ghost use Rattle.std.specs.List.{Contains};
ghost use Rattle.cargo_lock_graph.specs.Edges.{far_ends};
ghost use Rattle.cargo_lock_diagram.specs.Arrows.{AreArrows, arrows_to};
ghost use Rattle.cargo_lock_diagram.specs.Reach.{IsReachableFromSome};
ghost use Rattle.cargo_lock_diagram.specs.Scene.{AreEdgesAmong};
ghost use Rattle.cargo_lock_query.specs.Chains.{needs};
ghost use Rattle.lists.specs.Marks.{IsMarked};
ghost use Rattle.lists.specs.Places.{IsPlaces};

use crate::reach::marks_from;
use cargo_lock_graph::graph::{EdgeDirection, Graph, NodeIndex};
use cargo_lock_graph::listed::list_ends;
use lists::marks::is_marked;
use std::alloc::{AllocError, Global};

/// An edge of a picture, from a package to one on which it depends.
#[derive(Clone, Copy, Debug, PartialEq, Eq)]
pub struct Arrow {
    /// The node that the edge leaves.
    pub from: NodeIndex,

    /// The node that the edge enters.
    pub to: NodeIndex,
}

/// The packages of a picture, and the edges among them.
#[derive(Debug, Drop)]
pub struct Picture {
    /// The nodes of the packages, ascending.
    pub nodes: Vec<NodeIndex>,

    /// The edges among these nodes, each once, by the nodes that they leave and then by those that
    /// they enter.
    pub arrows: Vec<Arrow>,
}

/// The packages to which edges lead in a direction from some nodes, which are among them, and the
/// edges among these packages. In either direction an arrow is from a package to one on which it
/// depends. Fails when out of memory.
///
/// ```
/// let picture = picture_from(rt.alloc(), tree.graph(), &roots, EdgeDirection::Outgoing)?;
/// ```
pub fn picture_from(
    alloc: Global,
    graph: &Graph,
    starts: &[NodeIndex],
    direction: EdgeDirection,
) -> Result<Picture, AllocError>
    requires { All (λ k. k < length graph.now.packages) starts.now }
    ensures nodes { IfOk result (λ picture. IsPlaces
        (IsReachableFromSome (far_ends direction graph.now.edges) starts.now)
        (length graph.now.packages) picture.nodes.items) }
    ensures arrows { IfOk result
        (λ picture. AreEdgesAmong graph.now picture.nodes.items picture.arrows.items) }
{
    let marks = marks_from(alloc, graph, starts, direction)?;
    let nodes = marked(alloc, &marks)?;
    let arrows = arrows(alloc, graph, &marks)?;
    Ok(Picture { nodes, arrows })
}

// The nodes with marks.
fn marked(alloc: Global, marks: &[bool]) -> Result<Vec<NodeIndex>, AllocError>
    ensures { IfOk result
        (λ nodes. IsPlaces (IsMarked marks.now) (length marks.now) nodes.items) }
{
    let mut nodes = Vec::new(alloc);
    for place in 0..marks.len() {
        let node = NodeIndex::new(place);
        if has_mark(marks, node) {
            nodes.push(node)?;
        }
    }
    Ok(nodes)
}

// The edges among the nodes with marks.
fn arrows(alloc: Global, graph: &Graph, marks: &[bool]) -> Result<Vec<Arrow>, AllocError>
    requires { length marks.now ≡ length graph.now.packages }
    ensures { IfOk result (λ arrows.
        AreArrows graph.now marks.now (length graph.now.packages) arrows.items) }
{
    let mut arrows = Vec::new(alloc);
    for place in 0..graph.node_count() {
        add_arrows_from(alloc, graph, marks, NodeIndex::new(place), &mut arrows)?;
    }
    Ok(arrows)
}

// Adds the edges from the next node, if it has a mark, to nodes with marks.
fn add_arrows_from(
    alloc: Global,
    graph: &Graph,
    marks: &[bool],
    node: NodeIndex,
    arrows: &mut Vec<Arrow>,
) -> Result<(), AllocError>
    requires count { length marks.now ≡ length graph.now.packages }
    requires arrows { AreArrows graph.now marks.now node arrows.old.items }
    ensures { OnOk result (AreArrows graph.now marks.now (node + 1) arrows.new.items) }
{
    if has_mark(marks, node) {
        let targets = targets(alloc, graph, node)?;
        add_arrows(marks, node, &targets, arrows)?;
    }
    Ok(())
}

// The nodes that a node needs, each once and ascending.
fn targets(alloc: Global, graph: &Graph, node: NodeIndex) -> Result<Vec<NodeIndex>, AllocError>
    ensures { IfOk result (λ targets. IsPlaces (Contains (needs graph.now node))
        (length graph.now.packages) targets.items) }
{
    let mut targets = list_ends(alloc, graph, node, EdgeDirection::Outgoing)?;
    targets.sort_unstable();
    targets.dedup();
    Ok(targets)
}

// Adds the edges from a node to those of some nodes that have marks.
fn add_arrows(
    marks: &[bool],
    node: NodeIndex,
    targets: &[NodeIndex],
    arrows: &mut Vec<Arrow>,
) -> Result<(), AllocError>
    ensures { OnOk result
        (arrows.new.items ≡ arrows.old.items ++ arrows_to marks.now node targets.now) }
{
    for target in targets {
        if has_mark(marks, *target) {
            arrows.push(Arrow {
                from: node,
                to: *target,
            })?;
        }
    }
    Ok(())
}

// Whether a node has a mark.
fn has_mark(marks: &[bool], node: NodeIndex) -> bool
    ensures { IsTrue result ↔ (IsMarked marks.now node) }
{
    is_marked(marks, node.index())
}
