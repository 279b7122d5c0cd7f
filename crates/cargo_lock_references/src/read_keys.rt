//! The checksums in the metadata, by name and version, with each key read once.

ghost use Rattle.std.specs.Prelude.{◌≡◌, if◌then◌else◌, ℕ, List, Some, None, IfOk, OnOk, cond};
ghost use Rattle.std.specs.Prelude.{option_map};
ghost use Rattle.std.specs.BTreeMap.{get, is_at};
ghost use Rattle.std.specs.Option.{option_or};
ghost use Rattle.semver.specs.Identifiers.{parts_of};
ghost use Rattle.semver.specs.Parse.{Parts};
ghost use Rattle.cargo_lock_parts.specs.Checksum.{digest_in, digest_of};
ghost use Rattle.cargo_lock_references.specs.Reference.{Reference, two_words};
ghost use Rattle.cargo_lock_references.specs.ReferenceOrder.{reference_cmp};
ghost use Rattle.cargo_lock_references.specs.Metadata.{checksum_in, is_named, key_identity};
ghost use Rattle.cargo_lock_references.specs.Metadata.{reads_as};
ghost use Rattle.cargo_lock_references.specs.ReadKeys.{AreFirstValues, value_at};
ghost use Rattle.cargo_lock_references.specs.Records.{texts_of};

use crate::EncodableDependency;
use crate::checksums::keys_ascend;
use crate::metadata::{Metadata, MetadataKey, MetadataValue};
use crate::read_sources::ReadSources;
use cargo_lock_parts::dependency::Dependency;
use cargo_lock_parts::error::Error;
use cargo_lock_parts::package::{Checksum, Name, Version};
use std::alloc::{AllocError, Global};
use std::collections::BTreeMap;
use std::marker::Model;

// The checksums by name and version. A value that is not a checksum counts as no checksum.
type Checksums = BTreeMap<EncodableDependency, Option<Checksum>>;

/// Metadata, each of whose keys was read, with its checksums by name and version.
#[derive(Drop)]
pub struct ReadMetadata<'a> {
    metadata: &'a Metadata,
    checksums: Checksums,
}

impl<'a> Model for ReadMetadata<'a> {
    ghost use Rattle.cargo_lock_references.specs.ReadKeys.{AreFirstValues};
    ghost use Rattle.cargo_lock_references.specs.Records.{Texts, texts_code, texts_of};

    ghost Value = { Texts };

    ghost coded = { texts_code };

    ghost view = { λ m. texts_of m.metadata.now.entries };

    ghost invariant = { λ m. AreFirstValues m.metadata.now.entries m.checksums };
}

impl<'a> ReadMetadata<'a> {
    /// Reads each key of the metadata. Keys that do not read are ignored. Fails when out of memory;
    /// a key with a URL of 4 GB or more fails in this way too.
    pub fn of(alloc: Global, metadata: &'a Metadata) -> Result<ReadMetadata<'a>, AllocError>
        ensures { IfOk result (λ read. read ≡ texts_of metadata.now.entries) }
    {
        let checksums = read_checksums(alloc, metadata)?;
        Ok(ReadMetadata {
            metadata,
            checksums,
        })
    }

    /// The checksum in the metadata at the first key, in byte order, that reads as this name and
    /// version. A value that is not a checksum counts as no checksum. Fails when out of memory.
    #[tactic(auto, unfolding(crate::specs::Metadata::checksum_in))]
    pub fn checksum(&self, name: &Name, version: &Version) -> Result<Option<Checksum>, AllocError>
        ensures { IfOk result
            (λ found. option_map digest_of found
            ≡ checksum_in self.now name.now (parts_of version.now)) }
    {
        keys_ascend(self.metadata);
        let key = wanted_key(name, version)?;
        match self.checksums.get(&key) {
            Some(checksum) => Ok(*checksum),
            None => Ok(None),
        }
    }
}

// Reads each key.
fn read_checksums(alloc: Global, metadata: &Metadata) -> Result<Checksums, AllocError>
    ensures { IfOk result (λ checksums. AreFirstValues metadata.now.entries checksums) }
{
    let mut sources = ReadSources::new(alloc);
    read_each(alloc, &mut sources, metadata)
}

fn read_each(
    alloc: Global,
    sources: &mut ReadSources,
    metadata: &Metadata,
) -> Result<Checksums, AllocError>
    ensures { IfOk result (λ checksums. AreFirstValues metadata.now.entries checksums) }
{
    let mut checksums = BTreeMap::new(alloc);
    for (key, value) in metadata {
        read_pair(alloc, sources, &mut checksums, key, value)?;
    }
    Ok(checksums)
}

// Reads a key. Its value is used if no earlier key reads as the same name and version.
fn read_pair(
    alloc: Global,
    sources: &mut ReadSources,
    checksums: &mut Checksums,
    key: &MetadataKey,
    value: &MetadataValue,
) -> Result<(), AllocError>
    ensures { OnOk result ((name : List ℕ) (version : Parts) → value_at checksums.new name version
        ≡ option_or (value_at checksums.old name version)
        (if reads_as name version key.now then Some (digest_in value.now) else None)) }
{
    match read_key(alloc, sources, key)? {
        Some(dependency) => put_first(alloc, checksums, dependency, value),
        None => Ok(()),
    }
}

// What a key reads as. Out of memory is an error, and so is a URL of 4 GB or more, which is
// reported as out of memory.
fn read_key(
    alloc: Global,
    sources: &mut ReadSources,
    key: &MetadataKey,
) -> Result<Option<Dependency>, AllocError>
    ensures { IfOk result (λ d. d ≡ key_identity key.now) }
{
    match key.dependency_by(alloc, sources) {
        Ok(dependency) => Ok(Some(dependency)),
        Err(Error::Memory) => Err(AllocError),
        Err(fault) if fault.is_too_long() => Err(AllocError),
        Err(_) => Ok(None),
    }
}

// Sets the checksum at a dependency's name and version, unless there is one.
fn put_first(
    alloc: Global,
    checksums: &mut Checksums,
    dependency: Dependency,
    value: &MetadataValue,
) -> Result<(), AllocError>
    ensures { OnOk result ((name : List ℕ) (version : Parts) → value_at checksums.new name version
        ≡ option_or (value_at checksums.old name version)
        (if is_named name version (Some dependency) then Some (digest_in value.now) else None)) }
{
    let key = key_of(dependency);
    if checksums.contains_key(&key) {
        return Ok(());
    }
    let checksum = checksum_in(alloc, value)?;
    put(checksums, key, checksum)?;
    Ok(())
}

// The checksum that a value reads as, if it does.
fn checksum_in(alloc: Global, value: &MetadataValue) -> Result<Option<Checksum>, AllocError>
    ensures { IfOk result (λ found. option_map digest_of found ≡ digest_in value.now) }
{
    match value.checksum(alloc) {
        Ok(checksum) => Ok(Some(checksum)),
        Err(Error::Memory) => Err(AllocError),
        Err(_) => Ok(None),
    }
}

fn put(
    checksums: &mut Checksums,
    key: EncodableDependency,
    checksum: Option<Checksum>,
) -> Result<(), AllocError>
    ensures { OnOk result
        ((q : Reference) → get reference_cmp checksums.new q
        ≡ cond (is_at (reference_cmp key) q) (Some checksum) (get reference_cmp checksums.old q)) }
{
    checksums.insert(key, checksum)?;
    Ok(())
}

// The name and the version of a dependency.
fn key_of(dependency: Dependency) -> EncodableDependency
    ensures { result ≡ two_words dependency.name dependency.version }
{
    let Dependency {
        name,
        version,
        source: _,
    } = dependency;
    EncodableDependency {
        name,
        version: Some(version),
        source: None,
    }
}

fn wanted_key(name: &Name, version: &Version) -> Result<EncodableDependency, AllocError>
    ensures { IfOk result (λ key. key ≡ two_words name.now (parts_of version.now)) }
{
    Ok(EncodableDependency {
        name: name.clone()?,
        version: Some(version.clone()?),
        source: None,
    })
}
