//! How many bytes the versions of dependencies have together.

ghost use Rattle.std.specs.Prelude.{◌≡◌, ◌↔◌, ◌+◌, IsTrue};
ghost use Rattle.semver.specs.Identifiers.{parts_of};
ghost use Rattle.cargo_lock_limit.specs.Lengths.{IsBeyond, capped, dependencies_length};
ghost use Rattle.cargo_lock_limit.specs.Lengths.{packages_length, version_length};

use cargo_lock_parts::dependency::Dependency;
use cargo_lock_parts::package::{Package, Version};

/// Whether the versions of what packages depend on have more bytes together than a limit. Of a
/// version the pre-release and the build metadata count, which are its texts.
///
/// ```
/// let is_large = is_beyond(lockfile.packages.as_slice(), 4);
/// ```
pub fn is_beyond(packages: &[Package], limit: u32) -> bool
    ensures { IsTrue result ↔ IsBeyond limit packages.now }
{
    (limit as usize) < with_packages(0, packages)
}

// A number with the bytes of the versions of what packages depend on, at most the greatest number.
fn with_packages(number: usize, packages: &[Package]) -> usize
    ensures { result ≡ capped (number + packages_length packages.now) }
{
    let mut total = number;
    for package in packages {
        total = with_dependencies(total, package.dependencies.as_slice());
    }
    total
}

// A number with the bytes of the versions of dependencies, at most the greatest number.
fn with_dependencies(number: usize, dependencies: &[Dependency]) -> usize
    ensures { result ≡ capped (number + dependencies_length dependencies.now) }
{
    let mut total = number;
    for dependency in dependencies {
        total = with_version(total, &dependency.version);
    }
    total
}

/// A number with the bytes of a version, at most the greatest number.
pub(crate) fn with_version(number: usize, version: &Version) -> usize
    ensures { result ≡ capped (number + version_length (parts_of version.now)) }
{
    number
        .saturating_add(version.pre.as_str().len())
        .saturating_add(version.build.as_str().len())
}
