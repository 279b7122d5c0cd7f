//! Packages whose dependencies are written as the packages to which they lead.

ghost use Rattle.std.specs.Prelude.{◌≡◌, IfOk, IsOkUnless};
ghost use Rattle.std.specs.List.{AllZip};
ghost use Rattle.cargo_lock_parts.specs.declared.error.Error.TheVariants.{Memory};
ghost use Rattle.cargo_lock_edges.specs.Settled.{AreSettled, IsSettledAs, IsSettledPackage};

use crate::groups::Groups;
use cargo_lock_parts::dependency::Dependency;
use cargo_lock_parts::error::Result;
use cargo_lock_parts::package::Package;
use std::alloc::Global;

/// These packages, each dependency of which is written as the package to which it leads. One that no
/// package fits stays as it is. The one error is `Memory`.
///
/// ```
/// let settled = settled_packages(rt.alloc(), &lockfile.packages)?;
/// ```
pub fn settled_packages(alloc: Global, packages: &[Package]) -> Result<Vec<Package>>
    ensures ok { IfOk result (λ settled. AreSettled packages.now settled.items) }
    ensures err { IsOkUnless result Memory }
{
    let groups = Groups::of(alloc, packages)?;
    settled_by(alloc, &groups, packages)
}

// The same by the groups of the packages.
fn settled_by<'a>(
    alloc: Global,
    groups: &Groups<'a>,
    packages: &'a [Package],
) -> Result<Vec<Package>>
    requires { groups.now.packages ≡ packages.now }
    ensures ok { IfOk result (λ settled. AreSettled packages.now settled.items) }
    ensures err { IsOkUnless result Memory }
{
    let mut settled = Vec::with_capacity(alloc, packages.len())?;
    for package in packages {
        settled.push(settled_package(alloc, groups, package)?)?;
    }
    Ok(settled)
}

// A package with its dependencies as they lead.
fn settled_package<'a>(alloc: Global, groups: &Groups<'a>, package: &'a Package) -> Result<Package>
    ensures ok { IfOk result (IsSettledPackage groups.now.packages «package».now) }
    ensures err { IsOkUnless result Memory }
{
    let dependencies = settled_dependencies(alloc, groups, &package.dependencies)?;
    let mut settled = package.clone()?;
    settled.dependencies = dependencies;
    Ok(settled)
}

// These dependencies as they lead.
fn settled_dependencies<'a>(
    alloc: Global,
    groups: &Groups<'a>,
    dependencies: &'a [Dependency],
) -> Result<Vec<Dependency>>
    ensures ok { IfOk result (λ settled.
        AllZip (IsSettledAs groups.now.packages) dependencies.now settled.items) }
    ensures err { IsOkUnless result Memory }
{
    let mut settled = Vec::with_capacity(alloc, dependencies.len())?;
    for dependency in dependencies {
        settled.push(settled_dependency(groups, dependency)?)?;
    }
    Ok(settled)
}

// A dependency as it leads.
fn settled_dependency<'a>(groups: &Groups<'a>, dependency: &'a Dependency) -> Result<Dependency>
    ensures ok { IfOk result (IsSettledAs groups.now.packages dependency.now) }
    ensures err { IsOkUnless result Memory }
{
    match groups.lead(dependency) {
        Some(place) => Dependency::of(groups.package(place)),
        None => Ok(dependency.clone()?),
    }
}
