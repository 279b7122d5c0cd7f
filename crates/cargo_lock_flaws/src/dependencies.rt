//! The dependencies of packages that are out of order or listed more than once.

ghost use Rattle.std.specs.Prelude.{◌≡◌, ◌+◌, ◌<◌, IfOk, OnOk, length};
ghost use Rattle.std.specs.Bool.{Decides};
ghost use Rattle.std.specs.Ordering.{is_lt};
ghost use Rattle.cargo_lock_parts.specs.IdentityOrder.{identity_cmp};
ghost use Rattle.cargo_lock_flaws.specs.Dependencies.{AreDependencies, AreDependenciesBefore};
ghost use Rattle.cargo_lock_flaws.specs.Dependencies.{DoAscend, IsAfterNext};
ghost use Rattle.cargo_lock_flaws.specs.Dependencies.{IsDependencyMisplacedAt, IsRepeatedAt};

use cargo_lock_edges::index::identity;
use cargo_lock_order::dependency_order;
use cargo_lock_parts::dependency::Dependency;
use cargo_lock_parts::package::{Package, PartialIdentity};
use std::alloc::{AllocError, Global};
use std::cmp::Ordering;
use std::collections::BTreeMap;

/// The dependencies that a package lists before the next one, though they come after that one in
/// Cargo's order (see `dependency_order`). Each is the place of its package and its own place among
/// the package's dependencies. Fails when out of memory.
///
/// ```
/// for (place, at) in misplaced_dependencies(rt.alloc(), &lockfile.packages)?.as_slice() {
///     println!(rt; "dependency {at} of package {place} is out of order")?;
/// }
/// ```
pub fn misplaced_dependencies(
    alloc: Global,
    packages: &[Package],
) -> Result<Vec<(usize, usize)>, AllocError>
    ensures { IfOk result
        (λ places. AreDependencies (IsDependencyMisplacedAt packages.now) places.items) }
{
    let mut places = Vec::new(alloc);
    for place in 0..packages.len() {
        put_misplaced(alloc, &mut places, packages, place)?;
    }
    Ok(places)
}

// Adds the misplaced dependencies of the package at a place.
fn put_misplaced(
    alloc: Global,
    places: &mut Vec<(usize, usize)>,
    packages: &[Package],
    place: usize,
) -> Result<(), AllocError>
    requires within { place < length packages.now }
    requires before { AreDependenciesBefore (IsDependencyMisplacedAt packages.now)
        place 0 places.old.items }
    ensures { OnOk result
        (AreDependenciesBefore (IsDependencyMisplacedAt packages.now)
        (place + 1) 0 places.new.items) }
{
    let package = &packages[place];
    let dependencies = package.dependencies.as_slice();
    for at in 0..dependencies.len() {
        if is_misplaced(alloc, dependencies, at)? {
            places.push((place, at))?;
        }
    }
    Ok(())
}

// Whether the dependency at a place comes after the next one.
fn is_misplaced(alloc: Global, dependencies: &[Dependency], at: usize) -> Result<bool, AllocError>
    requires { at < length dependencies.now }
    ensures { IfOk result (λ found. Decides found (IsAfterNext dependencies.now at)) }
{
    match dependencies.get(at + 1) {
        Some(next) => {
            let order = dependency_order(alloc, &dependencies[at], next)?;
            Ok(order == Ordering::Greater)
        }
        None => Ok(false),
    }
}

/// The dependencies for which the same package lists one with the same name, version and source at
/// an earlier place. Each is the place of its package and its own place among the package's
/// dependencies. Fails when out of memory.
///
/// ```
/// if !repeated_dependencies(rt.alloc(), &lockfile.packages)?.is_empty() {
///     println!(rt; "both lists of dependencies were kept")?;
/// }
/// ```
pub fn repeated_dependencies(
    alloc: Global,
    packages: &[Package],
) -> Result<Vec<(usize, usize)>, AllocError>
    ensures { IfOk result (λ places. AreDependencies (IsRepeatedAt packages.now) places.items) }
{
    let mut places = Vec::new(alloc);
    for place in 0..packages.len() {
        put_repeated(alloc, &mut places, packages, place)?;
    }
    Ok(places)
}

// Adds the repeated dependencies of the package at a place.
fn put_repeated(
    alloc: Global,
    places: &mut Vec<(usize, usize)>,
    packages: &[Package],
    place: usize,
) -> Result<(), AllocError>
    requires within { place < length packages.now }
    requires before { AreDependenciesBefore (IsRepeatedAt packages.now) place 0 places.old.items }
    ensures { OnOk result
        (AreDependenciesBefore (IsRepeatedAt packages.now) (place + 1) 0 places.new.items) }
{
    let package = &packages[place];
    let dependencies = package.dependencies.as_slice();
    if ascend(dependencies) {
        return Ok(());
    }
    let mut last = BTreeMap::new(alloc);
    for (at, dependency) in dependencies.iter().enumerate() {
        let before = last.insert(identity(dependency), at)?;
        if before.is_some() {
            places.push((place, at))?;
        }
    }
    Ok(())
}

// Whether each dependency is less than the next one, so that none is listed twice.
fn ascend(dependencies: &[Dependency]) -> bool
    ensures { Decides result (DoAscend dependencies.now) }
{
    for at in 1..dependencies.len() {
        if !is_less(&dependencies[at - 1], &dependencies[at]) {
            return false;
        }
    }
    true
}

fn is_less(one: &Dependency, next: &Dependency) -> bool
    ensures { result ≡ is_lt (identity_cmp one.now next.now) }
{
    one.cmp(next) == Ordering::Less
}
