//! What the values of a table mean: their format is determined, and their references are resolved.

ghost use Rattle.std.specs.Prelude.{◌≡◌, [], map, option_map};
ghost use Rattle.cargo_lock_parts.specs.Checksum.{digest_of};
ghost use Rattle.cargo_lock_parts.specs.Error.{Reads};
ghost use Rattle.cargo_lock_references.specs.declared.version.ResolveVersion.TheVariants.{V1};
ghost use Rattle.cargo_lock_encoding.specs.Meaning.{all_packages, listed_package, package_of};
ghost use Rattle.cargo_lock_encoding.specs.Meaning.{resolved_values, root_package};
ghost use Rattle.cargo_lock_encoding.specs.Lockfiles.{format_of};
ghost use Rattle.cargo_lock_parts.specs.Optional.{map_all, map_some};
ghost use Rattle.cargo_lock_references.specs.Records.{encoded_identity, texts_of};
ghost use Rattle.cargo_lock_references.specs.ResolutionSearch.{resolution_of};

use crate::values::EncodableLockfile;
use cargo_lock_parts::dependency::Dependency;
use cargo_lock_parts::error::Result;
use cargo_lock_parts::package::{Checksum, Package};
use cargo_lock_references::identified::{Identified, copy_source};
use cargo_lock_references::index::Indexed;
use cargo_lock_references::read_keys::ReadMetadata;
use cargo_lock_references::resolution::resolve_among;
use cargo_lock_references::version::format_of_values;
use cargo_lock_references::{EncodableDependency, EncodablePackage, Metadata, ResolveVersion};
use std::alloc::Global;
use std::marker::Model;

/// What is determined from the values of a table, with each reference resolved.
#[derive(Debug, Drop)]
pub struct Resolved {
    /// The format.
    pub version: ResolveVersion,

    /// The packages.
    pub packages: Vec<Package>,

    /// The root package.
    pub root: Option<Package>,
}

impl Model for Resolved {
    ghost use Rattle.cargo_lock_encoding.specs.Meaning.{ResolvedData};

    ghost Value = { ResolvedData };

    ghost view = { λ r. record {
      version = r.version;
      packages = r.packages.items;
      root = r.root;
    } };
}

/// What is determined from values: their format, and the packages and the root with each reference
/// resolved. In V1 the references are in full, and the checksums are those in the metadata. From V2
/// on the references of packages are resolved among the packages. Replacements and the references
/// of the root are in full in every format.
///
/// `Parse` means that the values have no format, or that a reference does not resolve. The other
/// error is `Memory`.
pub fn resolved_values(alloc: Global, values: &EncodableLockfile) -> Result<Resolved>
    ensures { Reads (λ r. r) result (resolved_values values.now) }
{
    let version = values.format(alloc)?;
    let packages = values.packages_in(alloc, version)?;
    let root = values.root_package(alloc)?;
    Ok(Resolved {
        version,
        packages,
        root,
    })
}

impl EncodableLockfile {
    fn format(&self, alloc: Global) -> Result<ResolveVersion>
        ensures { Reads (λ v. v) result (format_of self.now) }
    {
        format_of_values(alloc, self.version, self.package.as_slice(), &self.metadata)
    }

    fn packages_in(&self, alloc: Global, format: ResolveVersion) -> Result<Vec<Package>>
        ensures { Reads
            (λ v. v.items) result (all_packages format self.now.metadata self.now.packages) }
    {
        all_packages(alloc, format, &self.metadata, self.package.as_slice())
    }

    fn root_package(&self, alloc: Global) -> Result<Option<Package>>
        ensures { Reads (λ o. o) result (map_some root_package self.now.root) }
    {
        match &self.root {
            Some(encoded) => Ok(Some(root_package(alloc, encoded)?)),
            None => Ok(None),
        }
    }
}

// The packages of these encoded packages in this format, with each reference resolved. In V1 the
// references are in full, and the checksums are those in the metadata. From V2 on the references
// are resolved among the encoded packages. Replacements are in full in every format.
fn all_packages(
    alloc: Global,
    format: ResolveVersion,
    metadata: &Metadata,
    listed: &[EncodablePackage],
) -> Result<Vec<Package>>
    ensures { Reads
        (λ v. v.items) result (all_packages format (texts_of metadata.now.entries) listed.now) }
{
    match format {
        ResolveVersion::V1 => packages_in_full(alloc, metadata, listed),
        ResolveVersion::V2 | ResolveVersion::V3 | ResolveVersion::V4 => {
            packages_by_name(alloc, listed)
        }
    }
}

// The packages of V1: their references are in full, and the metadata has their checksums.
fn packages_in_full(
    alloc: Global,
    metadata: &Metadata,
    listed: &[EncodablePackage],
) -> Result<Vec<Package>>
    ensures { Reads
        (λ v. v.items) result
        (map_all (listed_package V1 [] (texts_of metadata.now.entries)) listed.now) }
{
    let read = ReadMetadata::of(alloc, metadata)?;
    each_in_full(alloc, &read, listed)
}

fn each_in_full(
    alloc: Global,
    metadata: &ReadMetadata<'_>,
    listed: &[EncodablePackage],
) -> Result<Vec<Package>>
    ensures { Reads (λ v. v.items) result (map_all (listed_package V1 [] metadata.now) listed.now) }
{
    let mut found = Vec::with_capacity(alloc, listed.len())?;
    for encoded in listed {
        let package = package_in_full(alloc, metadata, encoded)?;
        found.push(package)?;
    }
    Ok(found)
}

fn package_in_full(
    alloc: Global,
    metadata: &ReadMetadata<'_>,
    encoded: &EncodablePackage,
) -> Result<Package>
    ensures { Reads (λ p. p) result (listed_package V1 [] metadata.now encoded.now) }
{
    let checksum = metadata.checksum(&encoded.name, &encoded.version)?;
    with_references(alloc, encoded, checksum, &Indexed::empty(alloc))
}

// The packages from V2 on: their references are resolved by name, and they have their checksums.
fn packages_by_name(alloc: Global, listed: &[EncodablePackage]) -> Result<Vec<Package>>
    ensures { Reads (λ v. v.items) result
        (map_all (λ e. package_of (map encoded_identity listed.now) e.checksum e) listed.now) }
{
    let list = Indexed::of(alloc, listed)?;
    each_by_name(alloc, listed, &list)
}

fn each_by_name<'a>(
    alloc: Global,
    listed: &'a [EncodablePackage],
    list: &Indexed<'a, EncodablePackage>,
) -> Result<Vec<Package>>
    ensures { Reads (λ v. v.items) result
        (map_all (λ e. package_of (map encoded_identity list.now) e.checksum e) listed.now) }
{
    let mut packages = Vec::with_capacity(alloc, listed.len())?;
    for encoded in listed {
        let package = with_references(alloc, encoded, own_checksum(encoded), list)?;
        packages.push(package)?;
    }
    Ok(packages)
}

// The package of the root, whose references are in full in every format.
fn root_package(alloc: Global, encoded: &EncodablePackage) -> Result<Package>
    ensures { Reads (λ p. p) result (root_package encoded.now) }
{
    let checksum = own_checksum(encoded);
    with_references(alloc, encoded, checksum, &Indexed::empty(alloc))
}

fn own_checksum(encoded: &EncodablePackage) -> Option<Checksum>
    ensures { option_map digest_of result ≡ encoded.now.checksum }
{
    encoded.checksum
}

// The package of an encoded package, with its references resolved in this list.
fn with_references<'a>(
    alloc: Global,
    encoded: &'a EncodablePackage,
    checksum: Option<Checksum>,
    list: &Indexed<'a, EncodablePackage>,
) -> Result<Package>
    ensures { Reads (λ p. p) result
        (package_of (map encoded_identity list.now) (option_map digest_of checksum) encoded.now) }
{
    let dependencies = resolve_all(alloc, encoded.dependencies.as_slice(), list)?;
    let replace = resolve_some(alloc, &encoded.replace)?;
    Ok(Package {
        name: encoded.name.clone()?,
        version: encoded.version.clone()?,
        source: copy_source(encoded.source())?,
        checksum,
        dependencies,
        replace,
    })
}

fn resolve_all<'a>(
    alloc: Global,
    references: &'a [EncodableDependency],
    list: &Indexed<'a, EncodablePackage>,
) -> Result<Vec<Dependency>>
    ensures { Reads
        (λ v. v.items)
        result (map_all (λ f. resolution_of f (map encoded_identity list.now)) references.now) }
{
    let mut dependencies = Vec::with_capacity(alloc, references.len())?;
    for reference in references {
        let dependency = resolve_among(alloc, reference, list)?;
        dependencies.push(dependency)?;
    }
    Ok(dependencies)
}

fn resolve_some(
    alloc: Global,
    reference: &Option<EncodableDependency>,
) -> Result<Option<Dependency>>
    ensures { Reads (λ o. o) result (map_some (λ f. resolution_of f []) reference.now) }
{
    match reference {
        Some(reference) => Ok(Some(resolve_among(alloc, reference, &Indexed::empty(alloc))?)),
        None => Ok(None),
    }
}
