//! What a merge depends on at a place.

ghost use Rattle.std.specs.Prelude.{◌⊎◌, ◌↔◌, ℕ, IfOk};
ghost use Rattle.std.specs.Bool.{Decides};
ghost use Rattle.std.specs.List.{Contains};
ghost use Rattle.std.specs.List.Sorted.{IsStrictlyIncreasing};
ghost use Rattle.cargo_lock_merge_core.specs.Choices.{Counts, DependsOn, IsDependencyOf, IsOfSide};
ghost use Rattle.cargo_lock_merge_core.specs.Numbered.{HasAscending, data_if, placed_data};

use crate::choices::is_same_as;
use crate::placed::{Placed, are_same, has_no_source};
use crate::sets::{all_places, merge_places};
use std::alloc::{AllocError, Global};

/// The places that the chosen package depends on after a merge, in ascending order, where the base
/// and the two sides have these packages. Fails when out of memory.
pub fn dependencies_of_chosen<'a, 'd>(
    alloc: Global,
    base: Option<Placed<'a, 'd>>,
    ours: Option<Placed<'a, 'd>>,
    theirs: Option<Placed<'a, 'd>>,
    chosen: Placed<'a, 'd>,
) -> Result<Vec<usize>, AllocError>
    requires base { HasAscending (data_if base) }
    requires ours { HasAscending (data_if ours) }
    requires theirs { HasAscending (data_if theirs) }
    requires chosen { IsOfSide (data_if ours) (data_if theirs) (placed_data chosen) }
    ensures ascending { IfOk result (λ all. IsStrictlyIncreasing all.items) }
    ensures holds { IfOk result (λ all. (d : ℕ) → Contains all.items d
        ↔ IsDependencyOf (data_if base.entry) (data_if ours.entry) (data_if theirs.entry)
        (placed_data chosen.entry) d) }
{
    match (ours, theirs) {
        (Some(ours), Some(theirs)) => dependencies_of_both(alloc, base, ours, theirs, chosen),
        (Some(only), None) => only.dependencies.to_vec(alloc),
        (None, Some(only)) => only.dependencies.to_vec(alloc),
        (None, None) => Ok(Vec::new(alloc)),
    }
}

// The same where both sides have a package.
fn dependencies_of_both<'a, 'd>(
    alloc: Global,
    base: Option<Placed<'a, 'd>>,
    ours: Placed<'a, 'd>,
    theirs: Placed<'a, 'd>,
    chosen: Placed<'a, 'd>,
) -> Result<Vec<usize>, AllocError>
    requires base { HasAscending (data_if base) }
    requires ours { IsStrictlyIncreasing ours.dependencies.now }
    requires theirs { IsStrictlyIncreasing theirs.dependencies.now }
    requires chosen { IsOfSide (Some (placed_data ours)) (Some (placed_data theirs))
        (placed_data chosen) }
    ensures ascending { IfOk result (λ all. IsStrictlyIncreasing all.items) }
    ensures holds { IfOk result (λ all. (d : ℕ) → Contains all.items d
        ↔ IsDependencyOf (data_if base.entry) (Some (placed_data ours.entry))
        (Some (placed_data theirs.entry)) (placed_data chosen.entry) d) }
{
    if !counts(base, chosen, ours) {
        theirs.dependencies.to_vec(alloc)
    } else if !counts(base, chosen, theirs) {
        ours.dependencies.to_vec(alloc)
    } else {
        merge_places(
            alloc,
            dependencies_of(base),
            ours.dependencies,
            theirs.dependencies,
        )
    }
}

// Whether the package of a side counts: it has the identity of the chosen one or that of the base, or
// no source.
fn counts<'a, 'd>(
    base: Option<Placed<'a, 'd>>,
    chosen: Placed<'a, 'd>,
    package: Placed<'a, 'd>,
) -> bool
    ensures { Decides result (Counts (data_if base.entry) (placed_data chosen.entry)
        (placed_data «package».entry)) }
{
    if are_same(package.package, chosen.package) {
        return true;
    }
    if is_same_as(base, package) {
        return true;
    }
    has_no_source(package.package)
}

/// The places that a package of either side depends on, in ascending order. Fails when out of
/// memory.
pub fn dependencies_of_either<'a, 'd>(
    alloc: Global,
    ours: Option<Placed<'a, 'd>>,
    theirs: Option<Placed<'a, 'd>>,
) -> Result<Vec<usize>, AllocError>
    requires ours { HasAscending (data_if ours) }
    requires theirs { HasAscending (data_if theirs) }
    ensures ascending { IfOk result (λ all. IsStrictlyIncreasing all.items) }
    ensures holds { IfOk result (λ all. (d : ℕ) → Contains all.items d
        ↔ (DependsOn (data_if ours.entry) d ⊎ DependsOn (data_if theirs.entry) d)) }
{
    all_places(alloc, dependencies_of(ours), dependencies_of(theirs))
}

// The places that the package depends on, if there is one.
fn dependencies_of<'a, 'd>(package: Option<Placed<'a, 'd>>) -> &'d [usize]
    requires { HasAscending (data_if «package») }
    ensures ascending { IsStrictlyIncreasing result.now }
    ensures holds { (d : ℕ) → Contains result.now d ↔ DependsOn (data_if «package».entry) d }
{
    match package {
        Some(package) => package.dependencies,
        None => &[],
    }
}
