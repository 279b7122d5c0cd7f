//! Packages at places.

ghost use Rattle.std.specs.Prelude.{◌≡◌, None};
ghost use Rattle.std.specs.Bool.{Decides};
ghost use Rattle.cargo_lock_parts.specs.Identity.{identity_of};
ghost use Rattle.cargo_lock_parts.specs.IdentityOrder.{identity_cmp, is_same_identity, version_cmp};
ghost use Rattle.cargo_lock_merge_core.specs.Choices.{IsOfGit, IsOfRegistry};

use cargo_lock_parts::package::Package;
use std::cmp::Ordering;

/// A package at its place, which is a number, with the places of its dependencies and of its
/// replacement.
#[derive(Clone, Copy)]
pub struct Placed<'a, 'd> {
    /// The place.
    pub place: usize,

    /// The package.
    pub package: &'a Package,

    /// The places of the dependencies, in ascending order.
    pub dependencies: &'d [usize],

    /// The place of the replacement.
    pub replacement: Option<usize>,
}

/// The order of the identities of two packages: by name, version and source.
pub fn cmp_identities(one: &Package, other: &Package) -> Ordering
    ensures { result ≡ identity_cmp (identity_of one.now) (identity_of other.now) }
{
    one.name
        .cmp(&other.name)
        .then(one.version.cmp(&other.version))
        .then(one.source.cmp(&other.source))
}

/// The order of the versions of two packages.
pub fn cmp_versions(one: &Package, other: &Package) -> Ordering
    ensures { result ≡ version_cmp one.now.version other.now.version }
{
    one.version.cmp(&other.version)
}

/// Whether two packages have one identity.
pub fn are_same(one: &Package, other: &Package) -> bool
    ensures { result ≡ is_same_identity (identity_of one.now) (identity_of other.now) }
{
    cmp_identities(one, other) == Ordering::Equal
}

/// Whether the package is of a git source.
pub fn is_of_git(package: &Package) -> bool
    ensures { Decides result (IsOfGit «package».now) }
{
    match &package.source {
        Some(source) => source.is_git(),
        None => false,
    }
}

/// Whether the package has no source: a member of the workspace, or a package at a path.
pub fn has_no_source(package: &Package) -> bool
    ensures { Decides result («package».now.source ≡ None) }
{
    package.source.is_none()
}

/// Whether the package is of a registry.
pub fn is_of_registry(package: &Package) -> bool
    ensures { Decides result (IsOfRegistry «package».now) }
{
    match &package.source {
        Some(source) => source.is_registry(),
        None => false,
    }
}
