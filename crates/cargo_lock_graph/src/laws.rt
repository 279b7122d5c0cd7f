//! Laws of the edges between packages, each the contract of a function without a body, but for that
//! of the order that directions derive.

ghost use Rattle.std.specs.Prelude.{◌≡◌};
ghost use Rattle.cargo_lock_graph.specs.Edges.{direction_cmp};
ghost use Rattle.cargo_lock_graph.specs.Targets.{EdgesAreOne, LostHaveNoEdges};

use crate::graph::EdgeDirection;
use std::cmp::Ordering;

/// Packages have only one list of edges: the packages determine where each edge starts, where it
/// leads, and which dependency it represents.
pub fn edges_are_one()
    ensures { EdgesAreOne }
{}

/// Packages have no list of edges if no package matches some dependency. So a tree is built only if
/// each dependency has a package.
pub fn lost_dependencies_have_no_edges()
    ensures { LostHaveNoEdges }
{}

/// The edges that leave a node are less than those that enter it.
pub fn directions_compare_in_order(one: &EdgeDirection, other: &EdgeDirection) -> Ordering
    ensures { result ≡ direction_cmp one.now other.now }
{
    one.cmp(other)
}
