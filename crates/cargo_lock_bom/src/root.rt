//! The root of a bill of materials.

ghost use Rattle.std.specs.Prelude.{◌≡◌, ◌<◌, ◌↔◌, ℕ, true, IfOk, IfSome, IsTrue};
ghost use Rattle.std.specs.Prelude.{MatchOption, None, filter, length, not};
ghost use Rattle.lists.specs.Places.{IsPlaces};
ghost use Rattle.lists.specs.Marks.{IsMarked};
ghost use Rattle.cargo_lock_bom.specs.declared.options.Listed.TheVariants.{Reached};
ghost use Rattle.cargo_lock_bom.specs.Root.{EdgesLeadTo, IsInBill, IsRootOf, IsTop, IsWithin};
ghost use Rattle.cargo_lock_bom.specs.Root.{LeadsToAllButOrphans, LeadsToMembers, is_member};
ghost use Rattle.cargo_lock_bom.specs.Root.{is_root_at};
ghost use Rattle.cargo_lock_bom.specs.Root as spec;
ghost use Rattle.cargo_lock_bom.specs.Search.{HaveMarks};

use crate::options::Listed;
use crate::reach::reached_from;
use cargo_lock_graph::graph::{EdgeDirection, Graph, NodeIndex};
use cargo_lock_graph::listed::list_ends;
use lists::marks::is_marked;
use std::alloc::{AllocError, Global};

/// The root of a bill of materials, which is what the bill describes.
#[derive(Clone, Copy, Debug, PartialEq, Eq)]
pub enum Root {
    /// The package of a node.
    Package(NodeIndex),

    /// The packages without a source together, if no single one of them is the root.
    Workspace,

    /// Nothing, if each package has a source.
    Nothing,
}

impl Root {
    // Whether the root is the package of a node.
    fn is_package(&self, node: NodeIndex) -> bool
        ensures { result ≡ is_root_at self.now node }
    {
        match self {
            Root::Package(own) => *own == node,
            Root::Workspace => false,
            Root::Nothing => false,
        }
    }
}

/// The root of the bill of a graph: the package of the given node, if there is one. Otherwise it is
/// the one package without a source that no other package needs and that leads to each package
/// without a source. If there is no such package, it is all packages without a source together, and
/// if each package has a source, nothing.
///
/// A caller gives the node that its user named, or the node of a root that the lockfile itself has,
/// as one of V1 may. If no node is given, the root leads to exactly the packages to which some
/// package without a source leads. Fails when out of memory.
pub fn root_of(alloc: Global, graph: &Graph, given: Option<NodeIndex>) -> Result<Root, AllocError>
    requires { IfSome given (λ node. node < length graph.now.packages) }
    ensures within { IfOk result (IsWithin graph.now.packages) }
    ensures root { IfOk result (IsRootOf graph.now given) }
    ensures reaches { given ≡ None → IfOk result (LeadsToAllButOrphans graph.now) }
{
    if let Some(node) = given {
        return Ok(Root::Package(node));
    }
    own_root(alloc, graph)
}

// The root if no node is given.
fn own_root(alloc: Global, graph: &Graph) -> Result<Root, AllocError>
    ensures within { IfOk result (IsWithin graph.now.packages) }
    ensures root { IfOk result (IsRootOf graph.now None) }
    ensures reaches { IfOk result (LeadsToAllButOrphans graph.now) }
{
    match top(alloc, graph)? {
        Some(node) => Ok(Root::Package(node)),
        None => Ok(root_without_top(graph)),
    }
}

// The root if no package leads to all packages of the workspace.
fn root_without_top(graph: &Graph) -> Root
    requires { (k : ℕ) → ¬ IsTop graph.now k }
    ensures within { IsWithin graph.now.packages result }
    ensures root { IsRootOf graph.now None result }
    ensures reaches { LeadsToAllButOrphans graph.now result }
{
    match first_member(graph) {
        Some(_) => Root::Workspace,
        None => Root::Nothing,
    }
}

// The first package of the workspace.
fn first_member(graph: &Graph) -> Option<NodeIndex>
    ensures { MatchOption result
        ((k : ℕ) → ¬ (is_member graph.now.packages k ≡ true))
        (λ node. is_member graph.now.packages node ≡ true) }
{
    for node in 0..graph.node_count() {
        if is_member(graph, NodeIndex::new(node)) {
            return Some(NodeIndex::new(node));
        }
    }
    None
}

// The package of the workspace that leads to each of its packages and that no other package needs.
fn top(alloc: Global, graph: &Graph) -> Result<Option<NodeIndex>, AllocError>
    ensures { IfOk result (λ found.
        MatchOption found ((k : ℕ) → ¬ IsTop graph.now k) (IsTop graph.now)) }
{
    match first_application(alloc, graph)? {
        Some(node) => {
            if leads_to_members(alloc, graph, node)? {
                Ok(Some(node))
            } else {
                Ok(None)
            }
        }
        None => Ok(None),
    }
}

// The first package of the workspace that no other package needs.
fn first_application(alloc: Global, graph: &Graph) -> Result<Option<NodeIndex>, AllocError>
    ensures { IfOk result (λ found. MatchOption found
        ((k : ℕ) → ¬ (spec.is_application graph.now k ≡ true))
        (λ node. spec.is_application graph.now node ≡ true)) }
{
    for node in 0..graph.node_count() {
        if is_application(alloc, graph, NodeIndex::new(node))? {
            return Ok(Some(NodeIndex::new(node)));
        }
    }
    Ok(None)
}

// Whether a node leads to each package of the workspace.
fn leads_to_members(alloc: Global, graph: &Graph, node: NodeIndex) -> Result<bool, AllocError>
    requires { node < length graph.now.packages }
    ensures { IfOk result (λ all. IsTrue all ↔ LeadsToMembers graph.now node) }
{
    let reached = reached_from(alloc, graph, node)?;
    Ok(have_marks(graph, &reached))
}

// Whether each package of the workspace has a mark.
fn have_marks(graph: &Graph, marks: &[bool]) -> bool
    requires { length marks.now ≡ length graph.now.packages }
    ensures { IsTrue result ↔ HaveMarks graph.now.packages marks.now }
{
    for (node, mark) in marks.iter().enumerate() {
        if !*mark && is_member(graph, NodeIndex::new(node)) {
            return false;
        }
    }
    true
}

/// Whether a package is one of the workspace and no other package needs it. Fails when out of
/// memory.
pub(crate) fn is_application(
    alloc: Global,
    graph: &Graph,
    node: NodeIndex,
) -> Result<bool, AllocError>
    ensures { IfOk result (λ is. is ≡ spec.is_application graph.now node) }
{
    if !is_member(graph, node) {
        return Ok(false);
    }
    let needed = is_needed(alloc, graph, node)?;
    Ok(!needed)
}

// Whether an edge leads to a node from another one.
fn is_needed(alloc: Global, graph: &Graph, node: NodeIndex) -> Result<bool, AllocError>
    ensures { IfOk result (λ is. is ≡ spec.is_needed graph.now.edges node) }
{
    let sources = list_ends(alloc, graph, node, EdgeDirection::Incoming)?;
    Ok(sources.iter().any(|other| *other != node))
}

/// Whether a package is one of the workspace: it has no source.
pub(crate) fn is_member(graph: &Graph, node: NodeIndex) -> bool
    ensures { result ≡ spec.is_member graph.now.packages node }
{
    match graph.node_weight(node) {
        Some(package) => package.source.is_none(),
        None => false,
    }
}

/// The nodes of the packages of the workspace, ascending. Fails when out of memory.
pub(crate) fn members(alloc: Global, graph: &Graph) -> Result<Vec<usize>, AllocError>
    ensures { IfOk result (λ members. IsPlaces
        (λ k. spec.is_member graph.now.packages k ≡ true)
        (length graph.now.packages) members.items) }
{
    let mut members = Vec::new(alloc);
    for node in 0..graph.node_count() {
        if is_member(graph, NodeIndex::new(node)) {
            members.push(node)?;
        }
    }
    Ok(members)
}

/// The nodes of the packages that a bill lists, ascending, where the caller gives this root. Fails
/// when out of memory.
pub(crate) fn listed(
    alloc: Global,
    graph: &Graph,
    listed: Listed,
    given: Option<NodeIndex>,
) -> Result<Vec<usize>, AllocError>
    requires { IfSome given (λ node. node < length graph.now.packages) }
    ensures { IfOk result (λ nodes. IsPlaces (IsInBill graph.now listed given)
        (length graph.now.packages) nodes.items) }
{
    match listed {
        Listed::All => all_nodes(alloc, graph),
        Listed::Reached => reached_or_all(alloc, graph, given),
    }
}

// The nodes to which edges lead from a root, ascending, or each node if there is no root.
fn reached_or_all(
    alloc: Global,
    graph: &Graph,
    given: Option<NodeIndex>,
) -> Result<Vec<usize>, AllocError>
    requires { IfSome given (λ node. node < length graph.now.packages) }
    ensures { IfOk result (λ nodes. IsPlaces (IsInBill graph.now Reached given)
        (length graph.now.packages) nodes.items) }
{
    match given {
        Some(root) => reached_nodes(alloc, graph, root),
        None => all_nodes(alloc, graph),
    }
}

// Each node, ascending.
fn all_nodes(alloc: Global, graph: &Graph) -> Result<Vec<usize>, AllocError>
    ensures { IfOk result
        (λ nodes. IsPlaces (λ k. Unit {0}) (length graph.now.packages) nodes.items) }
{
    let mut nodes = Vec::with_capacity(alloc, graph.node_count())?;
    for node in 0..graph.node_count() {
        nodes.push(node)?;
    }
    Ok(nodes)
}

// The nodes to which edges lead from a root, ascending.
fn reached_nodes(alloc: Global, graph: &Graph, root: NodeIndex) -> Result<Vec<usize>, AllocError>
    requires { root < length graph.now.packages }
    ensures { IfOk result (λ nodes. IsPlaces (EdgesLeadTo graph.now root)
        (length graph.now.packages) nodes.items) }
{
    let marks = reached_from(alloc, graph, root)?;
    let nodes = marked_places(alloc, marks.as_slice())?;
    Ok(nodes)
}

// The places that have a mark, ascending.
fn marked_places(alloc: Global, marks: &[bool]) -> Result<Vec<usize>, AllocError>
    ensures { IfOk result
        (λ places. IsPlaces (IsMarked marks.now) (length marks.now) places.items) }
{
    let mut places = Vec::new(alloc);
    for place in 0..marks.len() {
        if is_marked(marks, place) {
            places.push(place)?;
        }
    }
    Ok(places)
}

/// Those of some nodes, ascending, whose package is not the root. Fails when out of memory.
pub(crate) fn others(alloc: Global, listed: &[usize], root: &Root) -> Result<Vec<usize>, AllocError>
    ensures { IfOk result
        (λ nodes. nodes.items ≡ filter (λ k. not (is_root_at root.now k)) listed.now) }
{
    let mut nodes = Vec::new(alloc);
    for node in listed {
        if !root.is_package(NodeIndex::new(*node)) {
            nodes.push(*node)?;
        }
    }
    Ok(nodes)
}
