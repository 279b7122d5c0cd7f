//! The packages of a merge, as a lockfile has them.

ghost use Rattle.std.specs.Prelude.{◌≡◌, ◌↔◌, ℕ, All, IfOk, IsOkUnless, map};
ghost use Rattle.std.specs.List.{AllZip, Contains};
ghost use Rattle.std.specs.List.Sorted.{IsSorted, IsStrictlyIncreasing};
ghost use Rattle.cargo_lock_parts.specs.declared.error.Error.TheVariants.{Memory};
ghost use Rattle.cargo_lock_parts.specs.Identity.{Identity};
ghost use Rattle.cargo_lock_merge_core.specs.Assembled.{AreAssembled, IsAssembled, IsIdentityAt};
ghost use Rattle.cargo_lock_merge_core.specs.Assembled.{IsIdentityAtIf};
ghost use Rattle.cargo_lock_merge_core.specs.Merged.{merged_data};
ghost use Rattle.cargo_lock_merge_core.specs.Kept.{AreInPlace, merged_places};
ghost use Rattle.cargo_lock_order.specs.Order.{dependency_order};
ghost use Rattle.cargo_lock_merge.specs.Once.{AreApart, DependsApart};
ghost use Rattle.cargo_lock_merge.specs.Order.{AreInCargoOrder, HasSortedDependencies};

use crate::order::put_in_order;
use cargo_lock_merge_core::merged::Merged;
use cargo_lock_merge_core::moved::{package_at, places_of_merged};
use cargo_lock_parts::dependency::Dependency;
use cargo_lock_parts::error::Result;
use cargo_lock_parts::package::Package;
use std::alloc::Global;

/// The packages of a merge in the order in which Cargo writes them, each with its dependencies in
/// that order. The merged packages are in the order of their places. The one error is `Memory`.
pub(crate) fn assemble(alloc: Global, merged: &[Merged<'_>]) -> Result<Vec<Package>>
    requires { IsStrictlyIncreasing (merged_places merged.now) }
    ensures ok { IfOk result
        (λ packages. AreAssembled (map merged_data merged.now) packages.items) }
    ensures order { IfOk result (λ packages. AreInCargoOrder packages.items) }
    ensures err { IsOkUnless result Memory }
    ensures once { IfOk result (λ packages. AreInPlace merged.now
        → All (DependsApart (map merged_data merged.now)) packages.items) }
{
    let places = places_of_merged(alloc, merged)?;
    let mut packages = packages(alloc, merged, &places)?;
    put_in_order(alloc, &mut packages)?;
    Ok(packages)
}

// The packages, in the order of their places.
fn packages(alloc: Global, merged: &[Merged<'_>], places: &[usize]) -> Result<Vec<Package>>
    requires places { places.now ≡ merged_places merged.now }
    requires ascending { IsStrictlyIncreasing (merged_places merged.now) }
    ensures ok { IfOk result (λ packages. AllZip (IsAssembled (map merged_data merged.now))
        (map merged_data merged.now) packages.items) }
    ensures order { IfOk result (λ packages. All HasSortedDependencies packages.items) }
    ensures err { IsOkUnless result Memory }
    ensures once { IfOk result (λ packages. AreInPlace merged.now
        → All (DependsApart (map merged_data merged.now)) packages.items) }
{
    let mut packages = Vec::with_capacity(alloc, merged.len())?;
    for one in merged {
        let package = package(alloc, merged, places, one)?;
        packages.push(package)?;
    }
    Ok(packages)
}

// The package, with what it refers to.
fn package(
    alloc: Global,
    merged: &[Merged<'_>],
    places: &[usize],
    one: &Merged<'_>,
) -> Result<Package>
    requires places { places.now ≡ merged_places merged.now }
    requires ascending { IsStrictlyIncreasing (merged_places merged.now) }
    ensures ok { IfOk result (IsAssembled (map merged_data merged.now) (merged_data one.now)) }
    ensures order { IfOk result HasSortedDependencies }
    ensures err { IsOkUnless result Memory }
    ensures once { IfOk result (λ found. IsStrictlyIncreasing one.now.dependencies.items
        → DependsApart (map merged_data merged.now) found) }
{
    let dependencies = dependencies(alloc, merged, places, &one.dependencies)?;
    let replace = replacement(merged, places, one.replacement)?;
    let Dependency {
        name,
        version,
        source,
    } = Dependency::of(one.package)?;
    Ok(Package {
        name,
        version,
        source,
        checksum: one.checksum,
        dependencies,
        replace,
    })
}

// The dependencies on the packages at these places, in the order in which Cargo writes them.
fn dependencies(
    alloc: Global,
    merged: &[Merged<'_>],
    places: &[usize],
    at: &[usize],
) -> Result<Vec<Dependency>>
    requires places { places.now ≡ merged_places merged.now }
    requires ascending { IsStrictlyIncreasing (merged_places merged.now) }
    ensures ok { IfOk result (λ all. (i : Identity) → Contains all.items i
        ↔ ((n : ℕ) × Contains at.now n × IsIdentityAt (map merged_data merged.now) n i)) }
    ensures order { IfOk result (λ all. IsSorted dependency_order all.items) }
    ensures err { IsOkUnless result Memory }
    ensures once { IfOk result (λ all. IsStrictlyIncreasing at.now
        → AreApart (map merged_data merged.now) all.items) }
{
    let mut all = Vec::with_capacity(alloc, at.len())?;
    for place in at {
        if let Some(target) = package_at(merged, places, *place) {
            all.push(Dependency::of(target)?)?;
        }
    }
    put_in_order(alloc, &mut all)?;
    Ok(all)
}

// The dependency on the package at a place, if there is a place.
fn replacement(
    merged: &[Merged<'_>],
    places: &[usize],
    at: Option<usize>,
) -> Result<Option<Dependency>>
    requires places { places.now ≡ merged_places merged.now }
    requires ascending { IsStrictlyIncreasing (merged_places merged.now) }
    ensures ok { IfOk result (IsIdentityAtIf (map merged_data merged.now) at) }
    ensures err { IsOkUnless result Memory }
{
    let place = match at {
        Some(place) => place,
        None => return Ok(None),
    };
    match package_at(merged, places, place) {
        Some(target) => Ok(Some(Dependency::of(target)?)),
        None => Ok(None),
    }
}
