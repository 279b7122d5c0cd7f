//! The nodes to which edges lead from some nodes.

ghost use Rattle.std.specs.Prelude.{◌≡◌, ◌<◌, ◌↔◌, ℕ, All, IfOk, OnOk, length};
ghost use Rattle.std.specs.List.{Contains};
ghost use Rattle.cargo_lock_graph.specs.Edges.{far_ends};
ghost use Rattle.cargo_lock_diagram.specs.Reach.{IsReachableFromSome};
ghost use Rattle.lists.specs.Marks.{IsMarked};
ghost use Rattle.lists.specs.Reach.{HasReached};

use cargo_lock_graph::graph::{EdgeDirection, Graph, NodeIndex};
use cargo_lock_graph::listed::list_ends;
use lists::reach::Reach;
use std::alloc::{AllocError, Global};

// For each node, whether edges lead to it in a direction from one of some nodes. These are reached
// themselves.
pub(crate) fn marks_from(
    alloc: Global,
    graph: &Graph,
    starts: &[NodeIndex],
    direction: EdgeDirection,
) -> Result<Vec<bool>, AllocError>
    requires { All (λ k. k < length graph.now.packages) starts.now }
    ensures count { IfOk result (λ marks. length marks.items ≡ length graph.now.packages) }
    ensures marks { IfOk result (λ marks. (k : ℕ) → IsMarked marks.items k
        ↔ IsReachableFromSome (far_ends direction graph.now.edges) starts.now k) }
{
    let mut search = Reach::new(alloc, graph.node_count())?;
    reach_all(&mut search, starts)?;
    while let Some(place) = search.next() {
        let ends = list_ends(alloc, graph, NodeIndex::new(place), direction)?;
        reach_all(&mut search, &ends)?;
    }
    Ok(search.into_marks())
}

// Reaches each of some nodes.
fn reach_all(search: &mut Reach, nodes: &[NodeIndex]) -> Result<(), AllocError>
    requires { All (λ k. k < length search.old.marks) nodes.now }
    ensures { OnOk result (HasReached (Contains nodes.now) search.old search.new) }
{
    for node in nodes {
        search.reach(node.index())?;
    }
    Ok(())
}
