//! The dependencies that no package matches.

ghost use Rattle.std.specs.Prelude.{◌≡◌, ◌+◌, IfOk, OnOk, Some, slice_get};
ghost use Rattle.std.specs.Bool.{Decides};
ghost use Rattle.cargo_lock_graph.specs.Targets.{IsLost};
ghost use Rattle.cargo_lock_flaws.specs.Dependencies.{AreDependenciesBefore};
ghost use Rattle.cargo_lock_flaws.specs.Lost.{AreLost, IsLostAt};

use cargo_lock_edges::groups::Groups;
use cargo_lock_parts::dependency::Dependency;
use cargo_lock_parts::package::Package;
use std::alloc::{AllocError, Global};

/// The dependencies that no package matches: none has the name and the version, and a source that
/// matches. Each is the place of its package and its own place among the package's dependencies.
/// Fails when out of memory.
///
/// ```
/// for (place, at) in lost_dependencies(rt.alloc(), &lockfile.packages)?.as_slice() {
///     println!(rt; "dependency {at} of package {place} is no package")?;
/// }
/// ```
pub fn lost_dependencies(
    alloc: Global,
    packages: &[Package],
) -> Result<Vec<(usize, usize)>, AllocError>
    ensures { IfOk result (λ lost. AreLost packages.now lost.items) }
{
    let groups = Groups::of(alloc, packages)?;
    let lost = lost_among(alloc, packages, &groups)?;
    Ok(lost)
}

/// The dependencies of packages that none of the packages matches, by their groups. Fails when out of
/// memory.
pub(crate) fn lost_among<'a>(
    alloc: Global,
    packages: &'a [Package],
    groups: &Groups<'a>,
) -> Result<Vec<(usize, usize)>, AllocError>
    requires { groups.now.packages ≡ packages.now }
    ensures { IfOk result (λ lost. AreLost packages.now lost.items) }
{
    let mut lost = Vec::new(alloc);
    for (place, package) in packages.iter().enumerate() {
        put_lost(&mut lost, groups, place, package)?;
    }
    Ok(lost)
}

// Adds the lost dependencies of the package at a place.
fn put_lost<'a>(
    lost: &mut Vec<(usize, usize)>,
    groups: &Groups<'a>,
    place: usize,
    package: &'a Package,
) -> Result<(), AllocError>
    requires package { slice_get groups.now.packages place ≡ Some «package».now }
    requires before { AreDependenciesBefore (IsLostAt groups.now.packages) place 0 lost.old.items }
    ensures { OnOk result
        (AreDependenciesBefore (IsLostAt groups.now.packages) (place + 1) 0 lost.new.items) }
{
    for (at, dependency) in package.dependencies.iter().enumerate() {
        if is_lost(groups, dependency) {
            lost.push((place, at))?;
        }
    }
    Ok(())
}

fn is_lost<'a>(groups: &Groups<'a>, dependency: &'a Dependency) -> bool
    ensures { Decides result (IsLost groups.now.packages dependency.now) }
{
    groups.best(dependency).is_none()
}
