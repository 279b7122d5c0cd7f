//! Whether a lockfile survives a format.

ghost use Rattle.std.specs.Prelude.{◌≡◌, ◌↔◌, IfOk, IfSome, IsOkUnless, IsTrue, map, option_map};
ghost use Rattle.std.specs.List.{AllByRecursion};
ghost use Rattle.cargo_lock_parts.specs.declared.error.Error.TheVariants.{Memory};
ghost use Rattle.cargo_lock_parts.specs.Checksum.{digest_of};
ghost use Rattle.cargo_lock_parts.specs.Identity.{identity_of};
ghost use Rattle.cargo_lock_references.specs.declared.version.ResolveVersion.TheVariants.{V1};
ghost use Rattle.cargo_lock_references.specs.ReadBack.{DigestReadsBack};
ghost use Rattle.cargo_lock_references.specs.Records.{texts_of};
ghost use Rattle.cargo_lock_encoding.specs.Survives.{ChecksumSurvives, FormatSurvives};
ghost use Rattle.cargo_lock_encoding.specs.Survives.{FullReferenceSurvives, ListedSurvives};
ghost use Rattle.cargo_lock_encoding.specs.Survives.{OwnPartsSurvive, PatchSurvives, RootSurvives};
ghost use Rattle.cargo_lock_encoding.specs.Survives.{Survives};
ghost use Rattle.cargo_lock_encoding.specs.Survives.{WrittenReferenceSurvives};

use crate::encode::written_reference;
use crate::values::LockfileRef;
use cargo_lock_parts::dependency::Dependency;
use cargo_lock_parts::error::Result;
use cargo_lock_parts::laws::checksums_read_back;
use cargo_lock_parts::package::{Checksum, Package};
use cargo_lock_references::borrowed::is_escaped;
use cargo_lock_references::checksums::has_checksum_key;
use cargo_lock_references::index::Indexed;
use cargo_lock_references::metadata::Metadata;
use cargo_lock_references::read_back::{
    reference_survives, reference_survives_alone, source_survives, version_survives,
};
use cargo_lock_references::read_keys::ReadMetadata;
use cargo_lock_references::read_sources::ReadSources;
use cargo_lock_references::written_metadata::metadata_of;
use cargo_lock_references::{EncodableDependencyRef, ResolveVersion};
use std::alloc::Global;

impl LockfileRef<'_> {
    /// Whether the lockfile survives a format: whether its table, written in this format, reads
    /// back as a lockfile of this format with equal packages, root and patches. This is decided
    /// part by part, without writing the table: every version and source reads back from its text,
    /// each reference, as it is written, resolves to its dependency, checksums are found again, and
    /// the table reads back as V1 or as V2 by its metadata.
    ///
    /// A path source is not written, so a package with one survives no format. The one error is
    /// `Memory`, which is also the error for a source of 4 GB or more.
    pub fn survives(&self, alloc: Global, format: ResolveVersion) -> Result<bool>
        ensures ok { IfOk result (λ b. IsTrue b ↔ Survives self.now format) }
        ensures err { IsOkUnless result Memory }
    {
        let metadata = metadata_of(alloc, format, self.metadata, self.packages)?;
        let patch = self.patch;
        Ok(
            format_survives(format, &metadata)
                && patches_survive(alloc, format, patch.unused.as_slice())?
                && root_survives(alloc, format, self.root)?
                && packages_survive(alloc, format, &metadata, self.packages)?,
        )
    }
}

// Whether the format follows from the written metadata, if the table has no number.
fn format_survives(format: ResolveVersion, metadata: &Metadata) -> bool
    ensures { IsTrue result ↔ FormatSurvives format (texts_of metadata.now.entries) }
{
    match format {
        ResolveVersion::V1 => has_checksum_key(metadata),
        ResolveVersion::V2 => !has_checksum_key(metadata),
        ResolveVersion::V3 | ResolveVersion::V4 => true,
    }
}

fn patches_survive(alloc: Global, format: ResolveVersion, patches: &[Dependency]) -> Result<bool>
    ensures ok { IfOk result (λ b. IsTrue b
        ↔ AllByRecursion (PatchSurvives format) patches.now) }
    ensures err { IsOkUnless result Memory }
{
    let mut sources = ReadSources::new(alloc);
    for patch in patches {
        if !patch_survives(alloc, &mut sources, format, patch)? {
            return Ok(false);
        }
    }
    Ok(true)
}

fn patch_survives(
    alloc: Global,
    sources: &mut ReadSources,
    format: ResolveVersion,
    patch: &Dependency,
) -> Result<bool>
    ensures ok { IfOk result (λ b. IsTrue b ↔ PatchSurvives format patch.now) }
    ensures err { IsOkUnless result Memory }
{
    Ok(
        version_survives(alloc, &patch.version)?
            && source_survives(alloc, sources, is_escaped(format), &patch.source)?,
    )
}

fn root_survives(alloc: Global, format: ResolveVersion, root: &Option<Package>) -> Result<bool>
    ensures ok { IfOk result (λ b. IsTrue b ↔ IfSome root.now (RootSurvives format)) }
    ensures err { IsOkUnless result Memory }
{
    match root {
        Some(package) => {
            let mut sources = ReadSources::new(alloc);
            one_root_survives(alloc, &mut sources, format, package)
        }
        None => Ok(true),
    }
}

// The references of the root are in full.
fn one_root_survives(
    alloc: Global,
    sources: &mut ReadSources,
    format: ResolveVersion,
    package: &Package,
) -> Result<bool>
    ensures ok { IfOk result (λ b. IsTrue b ↔ RootSurvives format «package».now) }
    ensures err { IsOkUnless result Memory }
{
    digest_reads_back(&package.checksum);
    Ok(
        own_parts_survive(alloc, sources, format, package)?
            && full_references_survive(alloc, sources, format, package.dependencies.as_slice())?,
    )
}

fn packages_survive(
    alloc: Global,
    format: ResolveVersion,
    metadata: &Metadata,
    list: &[Package],
) -> Result<bool>
    ensures ok { IfOk result (λ b. IsTrue b
        ↔ AllByRecursion
        (ListedSurvives format (map identity_of list.now) (texts_of metadata.now.entries))
        list.now) }
    ensures err { IsOkUnless result Memory }
{
    let packages = Indexed::of(alloc, list)?;
    // Its keys are looked up only in V1. From V2 on only the keys of no package are left.
    let read = ReadMetadata::of(alloc, metadata)?;
    each_survives(alloc, format, &read, &packages, list)
}

fn each_survives<'a>(
    alloc: Global,
    format: ResolveVersion,
    metadata: &ReadMetadata<'_>,
    packages: &Indexed<'a, Package>,
    list: &'a [Package],
) -> Result<bool>
    ensures ok { IfOk result (λ b. IsTrue b
        ↔ AllByRecursion
        (ListedSurvives format (map identity_of packages.now) metadata.now) list.now) }
    ensures err { IsOkUnless result Memory }
{
    let mut sources = ReadSources::new(alloc);
    for package in list {
        if !package_survives(alloc, &mut sources, format, metadata, packages, package)? {
            return Ok(false);
        }
    }
    Ok(true)
}

// Whether the parts of a package, its references and its checksum survive.
fn package_survives<'a>(
    alloc: Global,
    sources: &mut ReadSources,
    format: ResolveVersion,
    metadata: &ReadMetadata<'_>,
    packages: &Indexed<'a, Package>,
    package: &'a Package,
) -> Result<bool>
    ensures ok { IfOk result (λ b. IsTrue b
        ↔ ListedSurvives format (map identity_of packages.now) metadata.now «package».now) }
    ensures err { IsOkUnless result Memory }
{
    let dependencies = package.dependencies.as_slice();
    Ok(
        own_parts_survive(alloc, sources, format, package)?
            && references_survive(alloc, sources, format, packages, dependencies)?
            && checksum_survives(format, metadata, package)?,
    )
}

// Whether the version, the source and the replacement survive.
fn own_parts_survive(
    alloc: Global,
    sources: &mut ReadSources,
    format: ResolveVersion,
    package: &Package,
) -> Result<bool>
    ensures ok { IfOk result (λ b. IsTrue b ↔ OwnPartsSurvive format «package».now) }
    ensures err { IsOkUnless result Memory }
{
    Ok(
        version_survives(alloc, &package.version)?
            && source_survives(alloc, sources, is_escaped(format), &package.source)?
            && replace_survives(alloc, sources, format, &package.replace)?,
    )
}

// A replacement is in full, and resolved without a list.
fn replace_survives(
    alloc: Global,
    sources: &mut ReadSources,
    format: ResolveVersion,
    replace: &Option<Dependency>,
) -> Result<bool>
    ensures ok { IfOk result
        (λ b. IsTrue b ↔ IfSome replace.now (FullReferenceSurvives format)) }
    ensures err { IsOkUnless result Memory }
{
    match replace {
        Some(dependency) => full_reference_survives(alloc, sources, format, dependency),
        None => Ok(true),
    }
}

// ---- checksums

// Whether the checksum is found again: in V1 in the written metadata. From V2 on every one is
// found.
fn checksum_survives(
    format: ResolveVersion,
    metadata: &ReadMetadata<'_>,
    package: &Package,
) -> Result<bool>
    ensures ok { IfOk result (λ b. IsTrue b ↔ ChecksumSurvives format metadata.now «package».now) }
    ensures err { IsOkUnless result Memory }
{
    match format {
        ResolveVersion::V1 => is_told_alike(metadata, package),
        ResolveVersion::V2 | ResolveVersion::V3 | ResolveVersion::V4 => {
            digest_reads_back(&package.checksum);
            Ok(true)
        }
    }
}

// Whether the metadata has for the package the checksum that the package has, or none if it has
// none.
fn is_told_alike(metadata: &ReadMetadata<'_>, package: &Package) -> Result<bool>
    ensures ok { IfOk result (λ b. IsTrue b ↔ ChecksumSurvives V1 metadata.now «package».now) }
    ensures err { IsOkUnless result Memory }
{
    let found = metadata.checksum(&package.name, &package.version)?;
    Ok(same_checksum(&found, &package.checksum))
}

fn same_checksum(a: &Option<Checksum>, b: &Option<Checksum>) -> bool
    ensures { IsTrue result ↔ (option_map digest_of a.now ≡ option_map digest_of b.now) }
{
    match (a, b) {
        (None, None) => true,
        (Some(a), Some(b)) => a == b,
        (None, Some(_)) | (Some(_), None) => false,
    }
}

// The contract says that every checksum reads back from its text.
fn digest_reads_back(checksum: &Option<Checksum>)
    ensures { IfSome (option_map digest_of checksum.now) DigestReadsBack }
{
    if let Some(Checksum::Sha256(digest)) = checksum {
        bytes_read_back(digest);
    }
}

fn bytes_read_back(digest: &[u8; 32])
    ensures { DigestReadsBack digest.now }
{
    checksums_read_back();
}

// ---- references

fn references_survive<'a>(
    alloc: Global,
    sources: &mut ReadSources,
    format: ResolveVersion,
    list: &Indexed<'a, Package>,
    dependencies: &'a [Dependency],
) -> Result<bool>
    ensures ok { IfOk result (λ b. IsTrue b
        ↔ AllByRecursion
        (WrittenReferenceSurvives format (map identity_of list.now)) dependencies.now) }
    ensures err { IsOkUnless result Memory }
{
    for dependency in dependencies {
        if !written_reference_survives(alloc, sources, format, list, dependency)? {
            return Ok(false);
        }
    }
    Ok(true)
}

// Whether a reference, as it is written, survives where it is resolved: in V1 without a list.
fn written_reference_survives<'a>(
    alloc: Global,
    sources: &mut ReadSources,
    format: ResolveVersion,
    list: &Indexed<'a, Package>,
    dependency: &'a Dependency,
) -> Result<bool>
    ensures ok { IfOk result (λ b. IsTrue b
        ↔ WrittenReferenceSurvives format (map identity_of list.now) dependency.now) }
    ensures err { IsOkUnless result Memory }
{
    let reference = written_reference(format, list, dependency);
    let survives = match format {
        ResolveVersion::V1 => reference_survives_alone(alloc, sources, &reference, dependency)?,
        ResolveVersion::V2 | ResolveVersion::V3 | ResolveVersion::V4 => {
            reference_survives(alloc, sources, &reference, list, dependency)?
        }
    };
    Ok(survives)
}

fn full_references_survive(
    alloc: Global,
    sources: &mut ReadSources,
    format: ResolveVersion,
    dependencies: &[Dependency],
) -> Result<bool>
    ensures ok { IfOk result (λ b. IsTrue b
        ↔ AllByRecursion (FullReferenceSurvives format) dependencies.now) }
    ensures err { IsOkUnless result Memory }
{
    for dependency in dependencies {
        if !full_reference_survives(alloc, sources, format, dependency)? {
            return Ok(false);
        }
    }
    Ok(true)
}

fn full_reference_survives(
    alloc: Global,
    sources: &mut ReadSources,
    format: ResolveVersion,
    dependency: &Dependency,
) -> Result<bool>
    ensures ok { IfOk result
        (λ b. IsTrue b ↔ FullReferenceSurvives format dependency.now) }
    ensures err { IsOkUnless result Memory }
{
    let reference = EncodableDependencyRef::from_dependency(dependency, format);
    let survives = reference_survives_alone(alloc, sources, &reference, dependency)?;
    Ok(survives)
}
