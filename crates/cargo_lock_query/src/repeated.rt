//! Names of several packages.

ghost use Rattle.std.specs.Prelude.{◌≡◌, All, IfOk, length, map};
ghost use Rattle.cargo_lock_query.specs.Duplicates.{AreDuplicates};
ghost use Rattle.cargo_lock_query.specs.Groups.{IsNamedBy, name_cmp};
ghost use Rattle.cargo_lock_query.specs.Needers.{AreNeeders};
ghost use Rattle.lists.specs.Groups.{AreGroups};

use crate::need::needers;
use cargo_lock_graph::graph::{Graph, NodeIndex};
use cargo_lock_parts::package::Name;
use lists::grouped::Grouped;
use std::alloc::{AllocError, Global};

/// A package whose name other packages have too.
#[derive(Debug, Drop)]
pub struct Duplicate {
    /// The node of the package.
    pub node: NodeIndex,

    /// The nodes of the packages that depend on it, each once and ascending.
    pub needers: Vec<NodeIndex>,
}

/// The packages of each name that two or more have, in their order, and with each package those
/// that depend on it. The names are in the order of their first packages. Fails when out of memory.
///
/// Packages with one version and one source, which Cargo does not write, are several too.
///
/// ```
/// let groups = duplicates(rt.alloc(), tree.graph())?;
/// ```
pub fn duplicates(alloc: Global, graph: &Graph) -> Result<Vec<Vec<Duplicate>>, AllocError>
    ensures groups { IfOk result (λ groups. AreDuplicates graph.now.packages
        (map (λ group. map (λ one. one.node) group.items) groups.items)) }
    ensures needers { IfOk result (λ groups. All
        (λ group. All (λ one. AreNeeders graph.now one.node one.needers.items) group.items)
        groups.items) }
{
    let groups = groups_of_several(alloc, graph)?;
    let mut with_needers = Vec::with_capacity(alloc, groups.len())?;
    for group in &groups {
        with_needers.push(group_with_needers(alloc, graph, group)?)?;
    }
    Ok(with_needers)
}

// The packages at some places, each with the packages that depend on it.
fn group_with_needers(
    alloc: Global,
    graph: &Graph,
    places: &[usize],
) -> Result<Vec<Duplicate>, AllocError>
    ensures nodes { IfOk result (λ group. map (λ one. one.node) group.items ≡ places.now) }
    ensures needers { IfOk result
        (λ group. All (λ one. AreNeeders graph.now one.node one.needers.items) group.items) }
{
    let mut group = Vec::with_capacity(alloc, places.len())?;
    for place in places {
        let node = NodeIndex::new(*place);
        let needers = needers(alloc, graph, node)?;
        group.push(Duplicate { node, needers })?;
    }
    Ok(group)
}

// The places of the packages of each name that two or more have.
fn groups_of_several(alloc: Global, graph: &Graph) -> Result<Vec<Vec<usize>>, AllocError>
    ensures { IfOk result (λ groups. AreDuplicates graph.now.packages
        (map (λ places. places.items) groups.items)) }
{
    let named = groups_by_name(alloc, graph)?;
    let mut groups = named.into_groups();
    groups.retain(|group| group.len() > 1);
    Ok(groups)
}

// The places of the packages of each name, in the order of their first packages.
fn groups_by_name<'a>(alloc: Global, graph: &'a Graph) -> Result<Grouped<&'a Name>, AllocError>
    ensures { IfOk result
        (AreGroups name_cmp (IsNamedBy graph.now.packages) (length graph.now.packages)) }
{
    let mut groups = Grouped::new(alloc);
    for place in 0..graph.node_count() {
        let package = &graph[NodeIndex::new(place)];
        groups.put(alloc, &package.name, place)?;
    }
    Ok(groups)
}
