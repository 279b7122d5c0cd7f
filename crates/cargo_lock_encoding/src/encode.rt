//! From a lockfile to the values of its table.

ghost use Rattle.std.specs.Prelude.{◌≡◌, IfOk, IsOkUnless, map, option_map};
ghost use Rattle.cargo_lock_parts.specs.declared.error.Error.TheVariants.{Memory};
ghost use Rattle.cargo_lock_parts.specs.Checksum.{digest_of};
ghost use Rattle.cargo_lock_parts.specs.Identity.{identity_of};
ghost use Rattle.cargo_lock_references.specs.WrittenReference.{written_reference, in_full, shorten};
ghost use Rattle.cargo_lock_references.specs.Records.{is_escaped};
ghost use Rattle.cargo_lock_encoding.specs.Table.{encoded_of, encoded_package_of, encoded_root};
ghost use Rattle.cargo_lock_encoding.specs.Table.{written_checksum, written_version};

use crate::values::{EncodableLockfile, LockfileRef};
use cargo_lock_parts::dependency::Dependency;
use cargo_lock_parts::error::Result;
use cargo_lock_parts::package::{Checksum, Package};
use cargo_lock_references::borrowed::{is_escaped, written_source};
use cargo_lock_references::index::Indexed;
use cargo_lock_references::version::ResolveVersion;
use cargo_lock_references::written_metadata::metadata_of;
use cargo_lock_references::{EncodableDependencyRef, EncodablePackage, EncodablePackageRef};
use std::alloc::{AllocError, Global};

impl LockfileRef<'_> {
    /// The values of the lockfile's table, in the lockfile's format. The references of its packages
    /// are without the parts that are redundant among the packages, except in V1. The references of
    /// the root and all replacements are in full. The one error is `Memory`.
    #[tactic(auto, unfolding(crate::specs::Table::encoded_of))]
    pub fn to_encodable(&self, alloc: Global) -> Result<EncodableLockfile>
        ensures ok { IfOk result (λ e. e ≡ encoded_of self.now) }
        ensures err { IsOkUnless result Memory }
    {
        let format = self.version;
        Ok(EncodableLockfile {
            version: written_version(format),
            package: all_encoded_packages(alloc, format, self.packages)?,
            root: root_of(alloc, format, self.root)?,
            metadata: metadata_of(alloc, format, self.metadata, self.packages)?,
            patch: self.patch.clone()?,
        })
    }
}

// The number that is written: from V3 on.
pub(crate) fn written_version(format: ResolveVersion) -> Option<i64>
    ensures { result ≡ written_version format }
{
    match format {
        ResolveVersion::V1 | ResolveVersion::V2 => None,
        ResolveVersion::V3 => Some(3),
        ResolveVersion::V4 => Some(4),
    }
}

// ---- packages

// The packages of a lockfile, as they are written. Their references are without the parts that are
// redundant among the packages, except in V1. Replacements are in full.
fn all_encoded_packages(
    alloc: Global,
    format: ResolveVersion,
    list: &[Package],
) -> Result<Vec<EncodablePackage>>
    ensures ok { IfOk result
        (λ v. v.items ≡ map (encoded_package_of format (map identity_of list.now)) list.now) }
    ensures err { IsOkUnless result Memory }
{
    let packages = Indexed::of(alloc, list)?;
    let mut listed = Vec::with_capacity(alloc, list.len())?;
    for package in list {
        let encoded = encoded_package_of(alloc, format, &packages, package)?;
        listed.push(encoded.to_owned(alloc)?)?;
    }
    Ok(listed)
}

// A package among those of the lockfile, as it is written, with its parts borrowed.
pub(crate) fn encoded_package_of<'a>(
    alloc: Global,
    format: ResolveVersion,
    list: &Indexed<'a, Package>,
    package: &'a Package,
) -> std::result::Result<EncodablePackageRef<'a>, AllocError>
    ensures { IfOk
        result (λ e. e ≡ encoded_package_of format (map identity_of list.now) «package».now) }
{
    let dependencies = written_references(alloc, format, list, package.dependencies.as_slice())?;
    Ok(EncodablePackageRef {
        name: &package.name,
        version: &package.version,
        source: written_source(is_escaped(format), &package.source),
        checksum: written_checksum(format, &package.checksum),
        dependencies,
        replace: full_replace(format, &package.replace),
    })
}

// The root as it is written: its references are in full.
fn root_of(
    alloc: Global,
    format: ResolveVersion,
    root: &Option<Package>,
) -> Result<Option<EncodablePackage>>
    ensures ok { IfOk result (λ e. e ≡ option_map (encoded_root format) root.now) }
    ensures err { IsOkUnless result Memory }
{
    match root {
        Some(package) => {
            let encoded = encoded_root(alloc, format, package)?;
            Ok(Some(encoded.to_owned(alloc)?))
        }
        None => Ok(None),
    }
}

// The root as it is written, with its parts borrowed.
pub(crate) fn encoded_root(
    alloc: Global,
    format: ResolveVersion,
    package: &Package,
) -> std::result::Result<EncodablePackageRef<'_>, AllocError>
    ensures { IfOk result (λ e. e ≡ encoded_root format «package».now) }
{
    let dependencies = all_in_full(alloc, format, package.dependencies.as_slice())?;
    Ok(EncodablePackageRef {
        name: &package.name,
        version: &package.version,
        source: written_source(is_escaped(format), &package.source),
        checksum: package.checksum,
        dependencies,
        replace: full_replace(format, &package.replace),
    })
}

// The checksum that is written with a package. In V1 the metadata has it.
fn written_checksum(format: ResolveVersion, checksum: &Option<Checksum>) -> Option<Checksum>
    ensures { option_map digest_of result
        ≡ written_checksum format (option_map digest_of checksum.now) }
{
    match format {
        ResolveVersion::V1 => None,
        ResolveVersion::V2 | ResolveVersion::V3 | ResolveVersion::V4 => *checksum,
    }
}

// ---- references

// A dependency as it is written among these packages.
#[tactic(auto, unfolding(cargo_lock_references::specs::WrittenReference::written_reference))]
pub(crate) fn written_reference<'a>(
    format: ResolveVersion,
    list: &Indexed<'a, Package>,
    dependency: &'a Dependency,
) -> EncodableDependencyRef<'a>
    ensures { result ≡ written_reference format (map identity_of list.now) dependency.now }
{
    match format {
        ResolveVersion::V1 => EncodableDependencyRef::from_dependency(dependency, format),
        ResolveVersion::V2 | ResolveVersion::V3 | ResolveVersion::V4 => {
            shortest_reference(format, list, dependency)
        }
    }
}

// A dependency without redundant parts.
fn shortest_reference<'a>(
    format: ResolveVersion,
    list: &Indexed<'a, Package>,
    dependency: &'a Dependency,
) -> EncodableDependencyRef<'a>
    ensures { result
        ≡ shorten (map identity_of list.now) (in_full (is_escaped format) dependency.now) }
{
    let name = &dependency.name;
    let version = &dependency.version;
    if list.is_name_unique(name) {
        return EncodableDependencyRef {
            name,
            version: None,
            source: None,
        };
    }
    if list.is_version_unique(name, version) {
        return EncodableDependencyRef {
            name,
            version: Some(version),
            source: None,
        };
    }
    EncodableDependencyRef::from_dependency(dependency, format)
}

fn written_references<'a>(
    alloc: Global,
    format: ResolveVersion,
    list: &Indexed<'a, Package>,
    dependencies: &'a [Dependency],
) -> std::result::Result<Vec<EncodableDependencyRef<'a>>, AllocError>
    ensures { IfOk result
        (λ v. v.items
        ≡ map (written_reference format (map identity_of list.now)) dependencies.now) }
{
    let mut references = Vec::with_capacity(alloc, dependencies.len())?;
    for dependency in dependencies {
        references.push(written_reference(format, list, dependency))?;
    }
    Ok(references)
}

fn all_in_full(
    alloc: Global,
    format: ResolveVersion,
    dependencies: &[Dependency],
) -> std::result::Result<Vec<EncodableDependencyRef<'_>>, AllocError>
    ensures { IfOk result (λ v. v.items ≡ map (in_full (is_escaped format)) dependencies.now) }
{
    let mut references = Vec::with_capacity(alloc, dependencies.len())?;
    for dependency in dependencies {
        references.push(EncodableDependencyRef::from_dependency(dependency, format))?;
    }
    Ok(references)
}

// A replacement in full.
fn full_replace(
    format: ResolveVersion,
    replace: &Option<Dependency>,
) -> Option<EncodableDependencyRef<'_>>
    ensures { result ≡ option_map (in_full (is_escaped format)) replace.now }
{
    match replace {
        Some(replace) => Some(EncodableDependencyRef::from_dependency(replace, format)),
        None => None,
    }
}
