//! Shortest chains of dependencies.

ghost use Rattle.std.specs.Prelude.{◌≡◌, ◌<◌, ◌↔◌, IfOk, IsTrue, MatchOption, Some, None, length};
ghost use Rattle.std.specs.Prelude.{map};
ghost use Rattle.std.specs.Prelude.{slice_get, unwrap_or};
ghost use Rattle.cargo_lock_query.specs.Chains.{AreChainsOfEach, IsShortestChain, IsUnreached};
ghost use Rattle.cargo_lock_query.specs.Steps.{AreNearest, AreStepsTo, HasSteps, IsFirstChain};
ghost use Rattle.cargo_lock_query.specs.Steps.{IsNearerOf, IsNoFarther, IsOneCounted};

use crate::steps::steps_to;
use cargo_lock_graph::graph::{EdgeDirection, Graph, NodeIndex};
use cargo_lock_graph::listed::list_ends;
use std::alloc::{AllocError, Global};

// A node, and how many steps it is from there.
#[derive(Drop)]
struct Found {
    steps: usize,
    node: NodeIndex,
}

/// A shortest chain of dependencies from one of the roots to a node: the first node is a root, each
/// other node is one that the node before it needs, and the last is the node. Of several the one
/// whose nodes come first by place, compared from the root on. None where no root leads to the
/// node. Fails when out of memory.
///
/// It takes time in proportion to the nodes, the edges and the roots.
///
/// ```
/// if let Some(chain) = shortest_chain(rt.alloc(), tree.graph(), roots, node)? {
///     let count = chain.len();
///     println!(rt; "the shortest has {count} packages")?;
/// }
/// ```
pub fn shortest_chain(
    alloc: Global,
    graph: &Graph,
    roots: &[NodeIndex],
    to: NodeIndex,
) -> Result<Option<Vec<NodeIndex>>, AllocError>
    requires { to < length graph.now.packages }
    ensures { IfOk result (λ answer. MatchOption answer
        (IsUnreached graph.now roots.now to)
        (λ chain. IsShortestChain graph.now roots.now to chain.items)) }
{
    let steps = steps_to(alloc, graph, to)?;
    chain_by_steps(alloc, graph, &steps, roots, to)
}

// The chain that `shortest_chain` finds, by how many steps it is from each node.
pub(crate) fn chain_by_steps(
    alloc: Global,
    graph: &Graph,
    steps: &[Option<usize>],
    roots: &[NodeIndex],
    to: NodeIndex,
) -> Result<Option<Vec<NodeIndex>>, AllocError>
    requires { AreStepsTo graph.now to steps.now }
    ensures { IfOk result (λ answer. MatchOption answer
        (IsUnreached graph.now roots.now to)
        (λ chain. IsShortestChain graph.now roots.now to chain.items)) }
{
    match nearest(steps, roots) {
        Some(root) => {
            let chain = chain_from(alloc, graph, steps, root, to)?;
            Ok(Some(chain))
        }
        None => Ok(None),
    }
}

/// A shortest chain of dependencies to a node from each of the roots that leads to it, in the
/// roots' order. Each is the one that `shortest_chain` finds if its root is the only one. Fails
/// when out of memory.
///
/// The graph is searched once.
///
/// ```
/// let chains = chains_of_each(rt.alloc(), tree.graph(), roots, node)?;
/// let count = chains.len();
/// println!(rt; "{count} roots lead there")?;
/// ```
pub fn chains_of_each(
    alloc: Global,
    graph: &Graph,
    roots: &[NodeIndex],
    to: NodeIndex,
) -> Result<Vec<Vec<NodeIndex>>, AllocError>
    requires { to < length graph.now.packages }
    ensures { IfOk result (λ chains. AreChainsOfEach graph.now to roots.now
        (map (λ chain. chain.items) chains.items)) }
{
    let steps = steps_to(alloc, graph, to)?;
    chains_by_steps(alloc, graph, &steps, roots, to)
}

// The chains that `chains_of_each` finds, by how many steps it is from each node.
pub(crate) fn chains_by_steps(
    alloc: Global,
    graph: &Graph,
    steps: &[Option<usize>],
    roots: &[NodeIndex],
    to: NodeIndex,
) -> Result<Vec<Vec<NodeIndex>>, AllocError>
    requires { AreStepsTo graph.now to steps.now }
    ensures { IfOk result (λ chains. AreChainsOfEach graph.now to roots.now
        (map (λ chain. chain.items) chains.items)) }
{
    let mut chains = Vec::new(alloc);
    for root in roots {
        if let Some(left) = steps_from(steps, *root) {
            let found = Found {
                steps: left,
                node: *root,
            };
            let chain = chain_from(alloc, graph, steps, found, to)?;
            chains.push(chain)?;
        }
    }
    Ok(chains)
}

// The first of the shortest chains from a root.
fn chain_from(
    alloc: Global,
    graph: &Graph,
    steps: &[Option<usize>],
    root: Found,
    to: NodeIndex,
) -> Result<Vec<NodeIndex>, AllocError>
    requires steps { AreStepsTo graph.now to steps.now }
    requires root { HasSteps steps.now root.node root.steps }
    ensures { IfOk result (λ chain. IsFirstChain graph.now to root.node chain.items) }
{
    let mut chain = Vec::new(alloc);
    chain.push(root.node)?;
    let mut last = root;
    'walk: while last.node.index() != to.index() {
        let targets = list_ends(alloc, graph, last.node, EdgeDirection::Outgoing)?;
        let Some(next) = nearest(steps, &targets) else {
            break;
        };
        chain.push(next.node)?;
        last = next;
    }
    Ok(chain)
}

// Whether one of the nodes has a count of steps.
pub(crate) fn is_one_counted(steps: &[Option<usize>], nodes: &[NodeIndex]) -> bool
    ensures { IsTrue result ↔ IsOneCounted steps.now nodes.now }
{
    nearest(steps, nodes).is_some()
}

// The node of the fewest steps, and the first of those by place. None where no node has a count.
fn nearest(steps: &[Option<usize>], nodes: &[NodeIndex]) -> Option<Found>
    ensures { AreNearest steps.now nodes.now result }
{
    let mut best = None;
    for node in nodes {
        if let Some(steps) = steps_from(steps, *node) {
            best = Some(nearer(best, Found { steps, node: *node }));
        }
    }
    best
}

// How many steps it is from a node, if it has a count.
fn steps_from(steps: &[Option<usize>], node: NodeIndex) -> Option<usize>
    ensures { result ≡ unwrap_or (slice_get steps.now node) None }
{
    match steps.get(node.index()) {
        Some(steps) => *steps,
        None => None,
    }
}

// The one that is no farther than the other.
fn nearer(one: Option<Found>, other: Found) -> Found
    ensures { IsNearerOf one other result }
{
    if let Some(found) = one {
        if is_no_farther(&found, &other) {
            return found;
        }
    }
    other
}

// Whether one is no farther than another.
fn is_no_farther(one: &Found, other: &Found) -> bool
    ensures { IsTrue result ↔ IsNoFarther one.now other.now }
{
    one.steps < other.steps || one.steps == other.steps && one.node.index() <= other.node.index()
}
