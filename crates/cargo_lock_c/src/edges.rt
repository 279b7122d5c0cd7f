//! The edges of a lockfile's graph.

ghost use Rattle.std.specs.Prelude.{◌≡◌, ◌≤◌, ◌⊎◌, IfErr, IfOk, length};
ghost use Rattle.cargo_lock_c.specs.declared.refusal.Refusal.TheVariants.{NoMemory};
ghost use Rattle.cargo_lock_c.specs.Answers.{IsHandedOut};
ghost use Rattle.cargo_lock_c.specs.Graph.{IsEdgeList, IsUnresolvedText, edge_list, node_edges};
ghost use Rattle.cargo_lock_c.specs.Statuses.{status_of};
ghost use Rattle.cargo_lock_c.specs.Texts.{RefusesText};

use crate::handing::hand_out;
use crate::reading::read;
use crate::refusal::Refusal;
use crate::tree::graph_of;
use cargo_lock::dependency::graph::{EdgeDirection, Graph, NodeIndex};
use std::alloc::Global;

/// An edge, by the numbers of two packages in the lockfile's order: the one that depends, and the
/// one on which it depends.
#[repr(C)]
#[derive(Clone, Copy)]
pub struct Edge {
    from: usize,
    to: usize,
}

/// The edges of a lockfile's graph, as dependencies lead in this project's own commands: those of
/// package 0 first, and for each package the newest first, which is that of its last dependency.
/// `length` counts edges. Status 7 means that a dependency has no package.
#[unsafe(no_mangle)]
pub extern "C" fn cargo_lock_edges(
    alloc: Global,
    text: &[u8],
    out: &mut [Edge],
    length: &mut usize,
) -> u32
    ensures edges { IsHandedOut (IsEdgeList text.now) result out.old out.new
        length.old length.new }
    ensures unresolved { result ≡ 7 → IsUnresolvedText text.now }
    ensures refused { RefusesText text.now result }
    ensures status { (result ≤ 3) ⊎ (result ≡ 5) ⊎ (result ≡ 7) }
{
    match edges(alloc, text) {
        Ok(edges) => hand_out(edges.as_slice(), out, length),
        Err(refusal) => refusal.status(),
    }
}

/// The edges of the graph of the lockfile of a text's bytes.
fn edges(alloc: Global, bytes: &[u8]) -> Result<Vec<Edge>, Refusal>
    ensures ok { IfOk result (λ edges. IsEdgeList bytes.now edges.items) }
    ensures unresolved { IfErr result (λ refusal. status_of refusal ≡ 7
        → IsUnresolvedText bytes.now) }
    ensures refused { IfErr result (λ refusal. RefusesText bytes.now (status_of refusal)) }
    ensures kind { IfErr result (λ refusal. (status_of refusal ≤ 3) ⊎ (status_of refusal ≡ 7)) }
{
    let lockfile = read(alloc, bytes)?;
    let graph = graph_of(alloc, &lockfile)?;
    let edges = edges_of(alloc, &graph)?;
    Ok(edges)
}

/// The edges of a graph, node by node.
fn edges_of(alloc: Global, graph: &Graph) -> Result<Vec<Edge>, Refusal>
    ensures ok { IfOk result (λ edges.
        edges.items ≡ edge_list graph.now.edges (length graph.now.packages)) }
    ensures err { IfErr result (λ refusal. refusal ≡ NoMemory) }
{
    let mut edges = Vec::with_capacity(alloc, graph.edge_count())?;
    for node in 0..graph.node_count() {
        let of_node = node_edges(alloc, graph, NodeIndex::new(node))?;
        edges.extend_from_slice(of_node.as_slice())?;
    }
    Ok(edges)
}

/// The edges of a node, newest first.
fn node_edges(alloc: Global, graph: &Graph, node: NodeIndex) -> Result<Vec<Edge>, Refusal>
    ensures ok { IfOk result (λ edges. edges.items ≡ node_edges graph.now.edges node) }
    ensures err { IfErr result (λ refusal. refusal ≡ NoMemory) }
{
    let edges = graph
        .edges_directed(node, EdgeDirection::Outgoing)
        .map(|edge| Edge {
            from: edge.source().index(),
            to: edge.target().index(),
        })
        .collect(alloc)?;
    Ok(edges)
}
