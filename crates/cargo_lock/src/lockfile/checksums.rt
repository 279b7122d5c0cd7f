//! The checksums of packages as Cargo reads them.

ghost use Rattle.std.specs.Prelude.{◌≡◌, None, IfOk, IsOkUnless, OnOk, map, option_copied, option_map};
ghost use Rattle.std.specs.FinMap.{get};
ghost use Rattle.cargo_lock_parts.specs.declared.error.Error.TheVariants.{Memory};
ghost use Rattle.cargo_lock_parts.specs.Checksum.{digest_in, digest_of};
ghost use Rattle.cargo_lock_parts.specs.Source.{git_reference};
ghost use Rattle.cargo_lock_references.specs.Records.{texts_of};
ghost use Rattle.cargo_lock.specs.CargoChecksums.{cargo_checksum, default_branch, digest_of_key, key_from, value_from, with_cargo_checksums};

use crate::error::{Error, Result};
use crate::lockfile::Lockfile;
use cargo_lock_parts::dependency::Dependency;
use cargo_lock_parts::package::{Checksum, GitReference, Package, SourceId};
use cargo_lock_references::{Metadata, MetadataKey, MetadataValue, ResolveVersion};
use std::alloc::Global;

impl Lockfile {
    ghost use Rattle.cargo_lock.specs.CargoChecksums.{with_cargo_checksums_in};

    /// The lockfile with the checksums that Cargo reads, for tools that compare checksums. From V2
    /// on these are those of the packages, and nothing changes.
    ///
    /// In V1 the checksum of a package is the value at the key in the metadata that has its name,
    /// its version and its source without the commit. If the source is the branch `master` of a
    /// repository and has no such key, it is the value at the key of the repository's default
    /// branch, which Cargo writes for both. A package without a source has no checksum, nor does
    /// one whose value is not a checksum, such as `<none>`. In contrast, a lockfile that was read
    /// has for each package the value at the first key of its name and version, whatever the source
    /// (see `EncodableLockfile::find_checksum`). So a package of another registry may have the
    /// checksum of its namesake.
    ///
    /// The one error is `Memory`.
    ///
    /// ```
    /// let lockfile = Lockfile::from_str(alloc, text)?.with_cargo_checksums(alloc)?;
    /// ```
    pub fn with_cargo_checksums(mut self, alloc: Global) -> Result<Lockfile>
        ensures ok { IfOk result (λ l. l ≡ with_cargo_checksums_in self) }
        ensures err { IsOkUnless result Memory }
    {
        put_checksums(alloc, self.version, &self.metadata, &mut self.packages)?;
        Ok(self)
    }

    /// The checksums that Cargo reads, package by package, as `with_cargo_checksums` sets them. The
    /// one error is `Memory`.
    ///
    /// ```
    /// for checksum in lockfile.cargo_checksums(rt.alloc())?.as_slice() {
    ///     match checksum {
    ///         Some(checksum) => println!(rt; "{checksum}")?,
    ///         None => println!(rt; "no checksum")?,
    ///     }
    /// }
    /// ```
    pub fn cargo_checksums(&self, alloc: Global) -> Result<Vec<Option<Checksum>>>
        ensures ok { IfOk result (λ all. map (option_map digest_of) all.items
            ≡ map (cargo_checksum self.now.version self.now.metadata) self.now.packages) }
        ensures err { IsOkUnless result Memory }
    {
        checksums_of(alloc, self.version, &self.metadata, &self.packages)
    }
}

// Sets the checksum of each package to the one that Cargo reads.
fn put_checksums(
    alloc: Global,
    version: ResolveVersion,
    metadata: &Metadata,
    packages: &mut [Package],
) -> Result<()>
    ensures ok { OnOk result (packages.new
        ≡ with_cargo_checksums version (texts_of metadata.now.entries) packages.old) }
    ensures err { IsOkUnless result Memory }
{
    for package in packages.iter_mut() {
        package.checksum = cargo_checksum(alloc, version, metadata, package)?;
    }
    Ok(())
}

fn checksums_of(
    alloc: Global,
    version: ResolveVersion,
    metadata: &Metadata,
    packages: &[Package],
) -> Result<Vec<Option<Checksum>>>
    ensures ok { IfOk result (λ all. map (option_map digest_of) all.items
        ≡ map (cargo_checksum version (texts_of metadata.now.entries)) packages.now) }
    ensures err { IsOkUnless result Memory }
{
    let mut all = Vec::with_capacity(alloc, packages.len())?;
    for package in packages {
        let checksum = cargo_checksum(alloc, version, metadata, package)?;
        all.push(checksum)?;
    }
    Ok(all)
}

fn cargo_checksum(
    alloc: Global,
    version: ResolveVersion,
    metadata: &Metadata,
    package: &Package,
) -> Result<Option<Checksum>>
    ensures ok { IfOk result (λ found. option_map digest_of found
        ≡ cargo_checksum version (texts_of metadata.now.entries) «package».now) }
    ensures err { IsOkUnless result Memory }
{
    match version {
        ResolveVersion::V1 => checksum_by_key(alloc, metadata, package),
        ResolveVersion::V2 | ResolveVersion::V3 | ResolveVersion::V4 => Ok(package.checksum),
    }
}

// The checksum at the key of a package.
fn checksum_by_key(
    alloc: Global,
    metadata: &Metadata,
    package: &Package,
) -> Result<Option<Checksum>>
    ensures ok { IfOk result (λ found. option_map digest_of found
        ≡ digest_of_key (texts_of metadata.now.entries) «package».now) }
    ensures err { IsOkUnless result Memory }
{
    let Some(source) = &package.source else {
        return Ok(None);
    };
    match value_from(alloc, metadata, package, source)? {
        Some(value) => digest_in(alloc, value),
        None => Ok(None),
    }
}

// The checksum that a value reads as, if it does.
fn digest_in(alloc: Global, value: &MetadataValue) -> Result<Option<Checksum>>
    ensures ok { IfOk result (λ found. option_map digest_of found ≡ digest_in value.now) }
    ensures err { IsOkUnless result Memory }
{
    match value.checksum(alloc) {
        Ok(checksum) => Ok(Some(checksum)),
        Err(Error::Memory) => Err(Error::Memory),
        Err(_) => Ok(None),
    }
}

// The value at the key of a package from this source.
fn value_from<'a>(
    alloc: Global,
    metadata: &'a Metadata,
    package: &Package,
    source: &SourceId,
) -> Result<Option<&'a MetadataValue>>
    ensures ok { IfOk result (λ found. option_copied found
        ≡ value_from (texts_of metadata.now.entries) «package».now source.now) }
    ensures err { IsOkUnless result Memory }
{
    if let Some(value) = value_at(alloc, metadata, package, source)? {
        return Ok(Some(value));
    }
    match default_branch(source)? {
        Some(other) => value_at(alloc, metadata, package, &other),
        None => Ok(None),
    }
}

// The default branch of a repository, if the source is its branch `master`.
fn default_branch(source: &SourceId) -> Result<Option<SourceId>>
    ensures ok { IfOk result
        (λ other. other ≡ default_branch source.now (git_reference source.now.kind)) }
    ensures err { IsOkUnless result Memory }
{
    match source.git_reference() {
        Some(GitReference::Branch(name)) if name.as_str() == "master" => {
            let other = SourceId::for_git(source.url(), GitReference::DefaultBranch)?;
            Ok(Some(other))
        }
        _ => Ok(None),
    }
}

// The value at the key of a package from exactly this source.
fn value_at<'a>(
    alloc: Global,
    metadata: &'a Metadata,
    package: &Package,
    source: &SourceId,
) -> Result<Option<&'a MetadataValue>>
    ensures ok { IfOk result (λ found. option_copied found
        ≡ get (texts_of metadata.now.entries) (key_from «package».now source.now)) }
    ensures err { IsOkUnless result Memory }
{
    let key = checksum_key(alloc, package, source)?;
    Ok(value_of(metadata, &key))
}

fn value_of<'a>(metadata: &'a Metadata, key: &MetadataKey) -> Option<&'a MetadataValue>
    ensures { option_copied result ≡ get (texts_of metadata.now.entries) key.now }
{
    metadata.get(key)
}

/// The key in the metadata of V1 at which Cargo has the checksum of a package from this source: its
/// name, its version and the source without the commit.
///
/// # Errors
///
/// `Memory`.
///
/// ```
/// let key = checksum_key(alloc, package, source)?;
/// ```
pub fn checksum_key(alloc: Global, package: &Package, source: &SourceId) -> Result<MetadataKey>
    ensures ok { IfOk result (λ key. key ≡ key_from «package».now source.now) }
    ensures err { IsOkUnless result Memory }
{
    let dependency = Dependency {
        name: package.name.clone()?,
        version: package.version.clone()?,
        source: Some(source.with_precise(None)?),
    };
    MetadataKey::for_checksum(alloc, &dependency)
}
