//! Why a package is in a graph.

ghost use Rattle.std.specs.Prelude.{◌≡◌, ◌<◌, ℕ, List, IfOk, MatchOption, length, map};
ghost use Rattle.cargo_lock_graph.specs.Edges.{GraphData};
ghost use Rattle.cargo_lock_query.specs.Chains.{AreChainsOfEach, IsShortestChain, IsUnreached};
ghost use Rattle.cargo_lock_query.specs.FirstChains.{AreFirstChains, linked_by};
ghost use Rattle.lists.specs.Places.{IsPlaces};
ghost use Rattle.cargo_lock_query.specs.Reasons.{AreReasons};
ghost use Rattle.cargo_lock_query.specs.Starts.{AreChainStarts, IsMember};
ghost use Rattle.cargo_lock_query.specs.Starts as spec;
ghost use Rattle.cargo_lock_query.specs.Steps.{AreStepsTo};

use crate::chain::{chain_by_steps, chains_by_steps, is_one_counted};
use crate::first::FirstChains;
use crate::steps::steps_to;
use cargo_lock_graph::graph::{EdgeDirection, Graph, NodeIndex};
use cargo_lock_graph::listed::list_externals;
use std::alloc::{AllocError, Global};

/// Why the package of a node is there: a shortest chain of dependencies to it from a root, which is
/// a package on which none depends. If no root leads to it, as on a cycle, the chain is from a
/// package without a source. Of several shortest chains it is the one whose nodes come first by
/// place, compared from its first node on. None if no chain leads to the node. Fails when out of
/// memory.
///
/// It takes time in proportion to the nodes and the edges.
///
/// ```
/// if let Some(chain) = why(rt.alloc(), tree.graph(), node)? {
///     let count = chain.len();
///     println!(rt; "a chain of {count} packages")?;
/// }
/// ```
pub fn why(
    alloc: Global,
    graph: &Graph,
    to: NodeIndex,
) -> Result<Option<Vec<NodeIndex>>, AllocError>
    requires { to < length graph.now.packages }
    ensures { IfOk result (λ answer. (starts : List ℕ) × AreChainStarts graph.now to starts
        × MatchOption answer
        (IsUnreached graph.now starts to)
        (λ chain. IsShortestChain graph.now starts to chain.items)) }
{
    let steps = steps_to(alloc, graph, to)?;
    let starts = starts(alloc, graph, &steps)?;
    chain_by_steps(alloc, graph, &steps, &starts, to)
}

/// A shortest chain to a node from each root that leads to it, in the roots' order. If no root
/// leads to it, a shortest chain from each package without a source that does. Each is the chain
/// that `why` finds if no other begins elsewhere. Fails when out of memory.
///
/// The graph is searched once.
///
/// ```
/// for chain in &why_each(rt.alloc(), tree.graph(), node)? {
///     let count = chain.len();
///     println!(rt; "one of {count} packages from a root")?;
/// }
/// ```
pub fn why_each(
    alloc: Global,
    graph: &Graph,
    to: NodeIndex,
) -> Result<Vec<Vec<NodeIndex>>, AllocError>
    requires { to < length graph.now.packages }
    ensures { IfOk result (λ chains. (starts : List ℕ) × AreChainStarts graph.now to starts
        × AreChainsOfEach graph.now to starts (map (λ chain. chain.items) chains.items)) }
{
    let steps = steps_to(alloc, graph, to)?;
    let starts = starts(alloc, graph, &steps)?;
    chains_by_steps(alloc, graph, &steps, &starts, to)
}

// Where chains begin: at the roots, and at the packages without a source.
#[derive(Drop)]
pub(crate) struct Reasons {
    from_roots: FirstChains,
    from_members: FirstChains,
}

impl Reasons {
    // Searches the graph from the roots, and from the packages without a source.
    pub(crate) fn of(alloc: Global, graph: &Graph) -> Result<Reasons, AllocError>
        ensures { IfOk result (AreReasons graph.now) }
    {
        let from_roots = from_roots(alloc, graph)?;
        let from_members = from_members(alloc, graph)?;
        Ok(Reasons {
            from_roots,
            from_members,
        })
    }

    // What `why` finds.
    pub(crate) fn why(
        &self,
        alloc: Global,
        to: NodeIndex,
    ) -> Result<Option<Vec<NodeIndex>>, AllocError>
        requires { (graph : GraphData) × AreReasons graph self.now }
        ensures { IfOk result (λ answer. (graph : GraphData) → AreReasons graph self.now
            → to < length graph.packages → (starts : List ℕ) × AreChainStarts graph to starts
            × MatchOption answer
            (IsUnreached graph starts to)
            (λ chain. IsShortestChain graph starts to chain.items)) }
    {
        match self.from_roots.chain_to(alloc, to)? {
            Some(chain) => Ok(Some(chain)),
            None => self.from_members.chain_to(alloc, to),
        }
    }
}

// The chains from the roots.
fn from_roots(alloc: Global, graph: &Graph) -> Result<FirstChains, AllocError>
    ensures { IfOk result
        (λ chains. AreFirstChains graph.now (spec.roots graph.now) (linked_by chains)) }
{
    let roots = roots(alloc, graph)?;
    FirstChains::from(alloc, graph, &roots)
}

// The chains from the packages without a source.
fn from_members(alloc: Global, graph: &Graph) -> Result<FirstChains, AllocError>
    ensures { IfOk result (λ chains. (members : List ℕ)
        × IsPlaces (IsMember graph.now) (length graph.now.packages) members
        × AreFirstChains graph.now members (linked_by chains)) }
{
    let members = members(alloc, graph)?;
    FirstChains::from(alloc, graph, &members)
}

// The nodes at which the chains to a node begin, by how many steps it is from each node to that
// one.
fn starts(
    alloc: Global,
    graph: &Graph,
    steps: &[Option<usize>],
) -> Result<Vec<NodeIndex>, AllocError>
    ensures { IfOk result (λ starts.
        (to : ℕ) → AreStepsTo graph.now to steps.now → AreChainStarts graph.now to starts.items) }
{
    let roots = roots(alloc, graph)?;
    if is_one_counted(steps, &roots) {
        Ok(roots)
    } else {
        members(alloc, graph)
    }
}

// The nodes of the packages on which none depends, in order.
fn roots(alloc: Global, graph: &Graph) -> Result<Vec<NodeIndex>, AllocError>
    ensures { IfOk result (λ roots. roots.items ≡ spec.roots graph.now) }
{
    list_externals(alloc, graph, EdgeDirection::Incoming)
}

/// The nodes of the packages without a source, which are those of the workspace, in order. Fails when
/// out of memory.
///
/// ```
/// let members = members(rt.alloc(), tree.graph())?;
/// ```
pub fn members(alloc: Global, graph: &Graph) -> Result<Vec<NodeIndex>, AllocError>
    ensures { IfOk result
        (λ members. IsPlaces (IsMember graph.now) (length graph.now.packages) members.items) }
{
    let mut members = Vec::new(alloc);
    for place in 0..graph.node_count() {
        let node = NodeIndex::new(place);
        if graph[node].source.is_none() {
            members.push(node)?;
        }
    }
    Ok(members)
}
