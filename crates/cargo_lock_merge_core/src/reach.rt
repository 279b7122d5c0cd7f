//! Which places are reached from the roots.

ghost use Rattle.std.specs.Prelude.{◌≡◌, ◌↔◌, ℕ, IfOk, OnOk, MatchOption, Some, length};
ghost use Rattle.std.specs.Prelude.{slice_get};
ghost use Rattle.std.specs.List.{Contains};
ghost use Rattle.std.specs.List.Sorted.{IsStrictlyIncreasing};
ghost use Rattle.cargo_lock_merge_core.specs.Reach.{IsRootPlace, LeadsToPlace, RootAt, places_in};
ghost use Rattle.lists.specs.Chains.{IsReachedFrom, OneLeadsTo};
ghost use Rattle.lists.specs.Marks.{IsMarked};
ghost use Rattle.lists.specs.Reach.{HasReached, fresh};

use lists::reach::Reach;
use std::alloc::{AllocError, Global};

/// A place, whether it is a root, and the places that it leads to.
#[derive(Clone, Copy)]
pub struct Node<'a> {
    pub place: usize,
    pub is_root: bool,
    pub targets: &'a [usize],
}

/// For each place whether a chain leads to it from a root. A target that is none of the places
/// leads nowhere. Fails when out of memory.
pub fn reached(alloc: Global, nodes: &[Node]) -> Result<Vec<bool>, AllocError>
    requires { IsStrictlyIncreasing (places_in nodes.now) }
    ensures count { IfOk result (λ marks. length marks.items ≡ length nodes.now) }
    ensures marks { IfOk result (λ marks. (k p : ℕ)
        → slice_get (places_in nodes.now) k ≡ Some p → IsMarked marks.items k
        ↔ IsReachedFrom (IsRootPlace nodes.now) (LeadsToPlace nodes.now) p) }
{
    let places = places_of_nodes(alloc, nodes)?;
    let mut search = from_roots(alloc, nodes)?;
    while let Some(at) = search.next() {
        follow(&mut search, &places, nodes[at].targets)?;
    }
    Ok(search.into_marks())
}

// The places of the nodes.
fn places_of_nodes(alloc: Global, nodes: &[Node]) -> Result<Vec<usize>, AllocError>
    ensures { IfOk result (λ places. places.items ≡ places_in nodes.now) }
{
    let mut places = Vec::with_capacity(alloc, nodes.len())?;
    for node in nodes {
        places.push(node.place)?;
    }
    Ok(places)
}

/// The index of a place among places in ascending order. `None` if it is none of them.
pub fn index_of(places: &[usize], place: usize) -> Option<usize>
    requires { IsStrictlyIncreasing places.now }
    ensures { MatchOption result (¬ Contains places.now place)
        (λ k. slice_get places.now k ≡ Some place) }
{
    places.binary_search(&place).ok()
}

// A search that has reached the roots.
fn from_roots(alloc: Global, nodes: &[Node]) -> Result<Reach, AllocError>
    ensures { IfOk result (HasReached (RootAt nodes.now) (fresh (length nodes.now))) }
{
    let mut search = Reach::new(alloc, nodes.len())?;
    for (at, node) in nodes.iter().enumerate() {
        if node.is_root {
            search.reach(at)?;
        }
    }
    Ok(search)
}

// Reaches the targets that are among the places.
fn follow(search: &mut Reach, places: &[usize], targets: &[usize]) -> Result<(), AllocError>
    requires ascending { IsStrictlyIncreasing places.now }
    requires count { length search.old.marks ≡ length places.now }
    ensures { OnOk result (HasReached
        (OneLeadsTo (λ d k. slice_get places.now k ≡ Some d) targets.now) search.old search.new) }
{
    for target in targets {
        if let Some(at) = index_of(places, *target) {
            search.reach(at)?;
        }
    }
    Ok(())
}
