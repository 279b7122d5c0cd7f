//! The values of a table.
//!
//! The values are read in the order in which the keys are named here, and the first error is
//! returned. An error of `semver` is `Parse` here, so a table is refused only with `Parse`.

ghost use Rattle.std.specs.Prelude.{◌≡◌, ◌⊎◌, ◌++◌, IsOkUnless, IsSomeAnd, OnOk, codes, option_map};
ghost use Rattle.std.specs.FinMap.{insert};
ghost use Rattle.toml.specs.Data.{get_member};
ghost use Rattle.toml.specs.View.{items_view, table_view, view};
ghost use Rattle.cargo_lock_parts.specs.Checksum.{digest_of};
ghost use Rattle.cargo_lock_parts.specs.Error.{IsLong, IsParse, IsParseOrMemory, Reads, ReadsUrls};
ghost use Rattle.cargo_lock_parts.specs.declared.error.Error.TheVariants.{Memory};
ghost use Rattle.cargo_lock_references.specs.Reference.{reference_of, mark_plain};
ghost use Rattle.cargo_lock_references.specs.Records.{texts_of};
ghost use Rattle.cargo_lock_encoding.specs.LongTexts.{HasLongPackage, HasLongPart, HasLongRoot};
ghost use Rattle.cargo_lock_encoding.specs.LongTexts.{HasLongSource, HasLongUnused, HasLongUrlText};
ghost use Rattle.cargo_lock_encoding.specs.LongTexts.{IsLongPackage, IsLongPatch, IsLongPatches};
ghost use Rattle.cargo_lock_encoding.specs.LongTexts.{IsLongText, SomeItem};
ghost use Rattle.toml_fields.specs.Fields.{items_in, number_in, optional_by, optional_list};
ghost use Rattle.toml_fields.specs.Fields.{read_all, required_list, required_text, text_in};
ghost use Rattle.cargo_lock_encoding.specs.TableReading.{all_encoded_packages_at, checksum_from};
ghost use Rattle.cargo_lock_encoding.specs.TableReading.{encoded_at, encoded_package_in};
ghost use Rattle.cargo_lock_encoding.specs.TableReading.{encoded_packages_at, identity_at};
ghost use Rattle.cargo_lock_encoding.specs.TableReading.{metadata_in, package_at_key, patch_at};
ghost use Rattle.cargo_lock_encoding.specs.TableReading.{patch_in, reference_in, source_in};
ghost use Rattle.cargo_lock_encoding.specs.TableReading.{texts_in, unused_patch_in};

use crate::values::EncodableLockfile;
use cargo_lock_parts::dependency::Dependency;
use cargo_lock_parts::error::{Error, Result};
use cargo_lock_parts::package::{Checksum, Name, SourceId, Version};
use cargo_lock_parts::patch::Patch;
use cargo_lock_references::metadata::{Metadata, MetadataKey, MetadataValue};
use cargo_lock_references::package_version::version_of;
use cargo_lock_references::read_sources::ReadSources;
use cargo_lock_references::written_metadata::set;
use cargo_lock_references::{EncodableDependency, EncodablePackage, EncodableSourceId};
use std::alloc::Global;
use std::marker::Model;
use toml::{Table, Value};
use toml_fields::{
    list_in, missing_key, number_at, optional_list, required_list, required_text, text_in,
    value_at, wrong_type,
};

/// Reads the values of a table. `Parse` says which value is refused: the first one that is absent,
/// of another type, or a text that does not read, in the order of the keys here. `Parse` also comes
/// for a URL of 4 GB or more, which only a text of 2^28 bytes or more has. The other error is
/// `Memory`.
#[tactic(auto, unfolding(crate::specs::TableReading::encoded_at, crate::specs::LongTexts::HasLongUrlText))]
pub fn encoded_at(alloc: Global, table: &Table) -> Result<EncodableLockfile>
    ensures { ReadsUrls
        (HasLongUrlText (table_view table.now))
        (λ e. e) result (encoded_at (table_view table.now)) }
{
    let version = number_at(alloc, table, "version")?;
    let all = all_encoded_packages_at(alloc, table)?;
    let metadata = metadata_at(alloc, table, "metadata")?;
    let patch = patch_at_key(alloc, table, "patch")?;
    let AllEncodedPackages { listed, root } = all;
    Ok(EncodableLockfile {
        version,
        package: listed,
        root,
        metadata,
        patch,
    })
}

// The packages of a lockfile and its root.
#[derive(Drop)]
struct AllEncodedPackages {
    listed: Vec<EncodablePackage>,
    root: Option<EncodablePackage>,
}

impl Model for AllEncodedPackages {
    ghost use Rattle.cargo_lock_encoding.specs.TableReading.{EncodedPackages};

    ghost Value = { EncodedPackages };

    ghost view = { λ e. record { listed = e.listed.items; root = e.root } };
}

// The packages of a table, under `package`, and its root, under `root`.
#[tactic(auto, unfolding(crate::specs::TableReading::all_encoded_packages_at))]
fn all_encoded_packages_at(alloc: Global, table: &Table) -> Result<AllEncodedPackages>
    ensures { ReadsUrls
        (HasLongPackage (table_view table.now) ⊎ HasLongRoot (table_view table.now))
        (λ e. e) result (all_encoded_packages_at (table_view table.now)) }
{
    let mut sources = ReadSources::new(alloc);
    let listed = encoded_packages_at(alloc, &mut sources, table)?;
    let root = table_at_key(alloc, &mut sources, table, "root")?;
    Ok(AllEncodedPackages { listed, root })
}

// ---- texts

// The source that a value reads as.
fn source_in(alloc: Global, sources: &mut ReadSources, value: &Value, key: &str) -> Result<SourceId>
    ensures { ReadsUrls
        (IsLongText (view value.now)) (λ s. s) result (source_in (view value.now)) }
{
    let text = text_in(alloc, value, key)?;
    let source = sources.read(alloc, text)?;
    Ok(source)
}

// The source at a key, if the key is present.
fn source_at(
    alloc: Global,
    sources: &mut ReadSources,
    table: &Table,
    key: &str,
) -> Result<Option<SourceId>>
    ensures { ReadsUrls
        (IsSomeAnd (get_member key.now (table_view table.now)) IsLongText)
        (λ o. o) result (optional_by source_in (get_member key.now (table_view table.now))) }
{
    match value_at(table, key) {
        Some(value) => Ok(Some(source_in(alloc, sources, value, key)?)),
        None => Ok(None),
    }
}

// A source that was read, which is marked plain.
pub(crate) fn mark_plain(source: Option<SourceId>) -> Option<EncodableSourceId>
    ensures { result ≡ option_map mark_plain source }
{
    match source {
        Some(source) => Some(EncodableSourceId::without_url_encoded(source)),
        None => None,
    }
}

// The checksum that a value reads as.
fn checksum_from(alloc: Global, value: &Value, key: &str) -> Result<Checksum>
    ensures { Reads digest_of result (checksum_from (view value.now)) }
{
    let text = text_in(alloc, value, key)?;
    let checksum = Checksum::from_str(alloc, text)?;
    Ok(checksum)
}

// The checksum at a key, if the key is present.
fn checksum_at(alloc: Global, table: &Table, key: &str) -> Result<Option<Checksum>>
    ensures { Reads (option_map digest_of) result
        (optional_by checksum_from (get_member key.now (table_view table.now))) }
{
    match value_at(table, key) {
        Some(value) => Ok(Some(checksum_from(alloc, value, key)?)),
        None => Ok(None),
    }
}

// The reference that a text reads as.
pub(crate) fn reference_of(
    alloc: Global,
    sources: &mut ReadSources,
    text: &str,
) -> Result<EncodableDependency>
    ensures { ReadsUrls (IsLong text.now) (λ f. f) result (reference_of text.now) }
{
    match EncodableDependency::from_str_by(alloc, sources, text) {
        Err(Error::Version(fault)) => {
            Err(Error::parse(format!(in alloc; "version error: {fault}")))
        }
        result => result,
    }
}

// The reference that a value reads as.
fn reference_in(
    alloc: Global,
    sources: &mut ReadSources,
    value: &Value,
    key: &str,
) -> Result<EncodableDependency>
    ensures { ReadsUrls
        (IsLongText (view value.now)) (λ f. f) result (reference_in (view value.now)) }
{
    let text = text_in(alloc, value, key)?;
    let reference = reference_of(alloc, sources, text)?;
    Ok(reference)
}

// The reference at a key, if the key is present.
fn reference_at_key(
    alloc: Global,
    sources: &mut ReadSources,
    table: &Table,
    key: &str,
) -> Result<Option<EncodableDependency>>
    ensures { ReadsUrls
        (IsSomeAnd (get_member key.now (table_view table.now)) IsLongText)
        (λ o. o) result (optional_by reference_in (get_member key.now (table_view table.now))) }
{
    match value_at(table, key) {
        Some(value) => Ok(Some(reference_in(alloc, sources, value, key)?)),
        None => Ok(None),
    }
}

fn references_of(
    alloc: Global,
    sources: &mut ReadSources,
    list: &[Value],
    key: &str,
) -> Result<Vec<EncodableDependency>>
    ensures { ReadsUrls
        (SomeItem IsLongText (items_view list.now))
        (λ v. v.items) result (read_all reference_in (items_view list.now)) }
{
    let mut references = Vec::with_capacity(alloc, list.len())?;
    for value in list {
        let reference = reference_in(alloc, sources, value, key)?;
        references.push(reference)?;
    }
    Ok(references)
}

// ---- packages

// The name, the version and the source of a table.
#[tactic(auto, unfolding(crate::specs::TableReading::identity_at))]
fn identity_at(alloc: Global, sources: &mut ReadSources, table: &Table) -> Result<Dependency>
    ensures { ReadsUrls
        (HasLongSource (table_view table.now))
        (λ e. e) result (identity_at (table_view table.now)) }
{
    let written = required_text(alloc, table, "name")?;
    let name = Name::from_str(alloc, written)?;
    let version = required_text(alloc, table, "version")?;
    let version = version_of(alloc, version)?;
    let source = source_at(alloc, sources, table, "source")?;
    Ok(Dependency {
        name,
        version,
        source,
    })
}

#[tactic(auto, unfolding(crate::specs::TableReading::package_at_key))]
fn package_at_key(
    alloc: Global,
    sources: &mut ReadSources,
    table: &Table,
) -> Result<EncodablePackage>
    ensures { ReadsUrls
        (HasLongPart (table_view table.now))
        (λ e. e) result (package_at_key (table_view table.now)) }
{
    let Dependency {
        name,
        version,
        source,
    } = identity_at(alloc, sources, table)?;
    let checksum = checksum_at(alloc, table, "checksum")?;
    let dependencies = optional_list(alloc, table, "dependencies")?;
    let dependencies = references_of(alloc, sources, dependencies, "dependencies")?;
    let replace = reference_at_key(alloc, sources, table, "replace")?;
    Ok(EncodablePackage {
        name,
        version,
        source: mark_plain(source),
        checksum,
        dependencies,
        replace,
    })
}

fn encoded_package_in(
    alloc: Global,
    sources: &mut ReadSources,
    value: &Value,
    key: &str,
) -> Result<EncodablePackage>
    ensures { ReadsUrls
        (IsLongPackage (view value.now)) (λ e. e) result (encoded_package_in (view value.now)) }
{
    match value.as_table() {
        Some(table) => package_at_key(alloc, sources, table),
        None => Err(wrong_type(alloc, key)),
    }
}

fn encoded_packages_of(
    alloc: Global,
    sources: &mut ReadSources,
    list: &[Value],
    key: &str,
) -> Result<Vec<EncodablePackage>>
    ensures { ReadsUrls
        (SomeItem IsLongPackage (items_view list.now))
        (λ v. v.items) result (read_all encoded_package_in (items_view list.now)) }
{
    let mut listed = Vec::with_capacity(alloc, list.len())?;
    for value in list {
        let encoded = encoded_package_in(alloc, sources, value, key)?;
        listed.push(encoded)?;
    }
    Ok(listed)
}

#[tactic(auto, unfolding(crate::specs::TableReading::encoded_packages_at))]
fn encoded_packages_at(
    alloc: Global,
    sources: &mut ReadSources,
    table: &Table,
) -> Result<Vec<EncodablePackage>>
    ensures { ReadsUrls
        (HasLongPackage (table_view table.now))
        (λ v. v.items) result (encoded_packages_at (table_view table.now)) }
{
    let list = optional_list(alloc, table, "package")?;
    encoded_packages_of(alloc, sources, list, "package")
}

// The package at a key, if the key is present.
fn table_at_key(
    alloc: Global,
    sources: &mut ReadSources,
    table: &Table,
    key: &str,
) -> Result<Option<EncodablePackage>>
    ensures { ReadsUrls
        (IsSomeAnd (get_member key.now (table_view table.now)) IsLongPackage)
        (λ o. o) result
        (optional_by encoded_package_in (get_member key.now (table_view table.now))) }
{
    match value_at(table, key) {
        Some(value) => Ok(Some(encoded_package_in(alloc, sources, value, key)?)),
        None => Ok(None),
    }
}

// ---- metadata

// Sets a key to a text.
pub(crate) fn put_text(alloc: Global, metadata: &mut Metadata, key: &str, value: &str) -> Result<()>
    ensures ok { OnOk result
        (texts_of metadata.new.entries ≡ insert (texts_of metadata.old.entries) key.now value.now) }
    ensures err { IsOkUnless result Memory }
{
    let key = MetadataKey::from_str(alloc, key)?;
    let value = MetadataValue::from_str(alloc, value)?;
    set(metadata, key, value)?;
    Ok(())
}

// The texts of a table, in the order of its keys.
fn texts_in(alloc: Global, table: &Table) -> Result<Metadata>
    ensures { Reads (λ m. texts_of m.entries) result (texts_in (table_view table.now)) }
{
    let mut metadata = Metadata::new(alloc);
    for (key, value) in table {
        let text = text_in(alloc, value, "metadata")?;
        put_text(alloc, &mut metadata, key.as_str(), text)?;
    }
    Ok(metadata)
}

// The metadata at a key, empty if the key is absent.
fn metadata_at(alloc: Global, table: &Table, key: &str) -> Result<Metadata>
    ensures { Reads
        (λ m. texts_of m.entries) result (metadata_in (get_member key.now (table_view table.now))) }
{
    let Some(value) = value_at(table, key) else {
        return Ok(Metadata::new(alloc));
    };
    match value.as_table() {
        Some(table) => texts_in(alloc, table),
        None => Err(wrong_type(alloc, key)),
    }
}

// ---- patches

fn unused_patch_in(
    alloc: Global,
    sources: &mut ReadSources,
    value: &Value,
    key: &str,
) -> Result<Dependency>
    ensures { ReadsUrls
        (IsLongPatch (view value.now)) (λ e. e) result (unused_patch_in (view value.now)) }
{
    match value.as_table() {
        Some(table) => identity_at(alloc, sources, table),
        None => Err(wrong_type(alloc, key)),
    }
}

fn patches_of(
    alloc: Global,
    sources: &mut ReadSources,
    list: &[Value],
    key: &str,
) -> Result<Vec<Dependency>>
    ensures { ReadsUrls
        (SomeItem IsLongPatch (items_view list.now))
        (λ v. v.items) result (read_all unused_patch_in (items_view list.now)) }
{
    let mut patches = Vec::with_capacity(alloc, list.len())?;
    for value in list {
        let patch = unused_patch_in(alloc, sources, value, key)?;
        patches.push(patch)?;
    }
    Ok(patches)
}

// The unused patches of a table.
fn patch_at(alloc: Global, table: &Table) -> Result<Patch>
    ensures { ReadsUrls
        (HasLongUnused (table_view table.now)) (λ p. p) result (patch_at (table_view table.now)) }
{
    let list = required_list(alloc, table, "unused")?;
    let mut sources = ReadSources::new(alloc);
    let unused = patches_of(alloc, &mut sources, list, "unused")?;
    Ok(Patch { unused })
}

// The unused patches at a key, none if the key is absent.
fn patch_at_key(alloc: Global, table: &Table, key: &str) -> Result<Patch>
    ensures { ReadsUrls
        (IsSomeAnd (get_member key.now (table_view table.now)) IsLongPatches)
        (λ p. p) result (patch_in (get_member key.now (table_view table.now))) }
{
    let Some(value) = value_at(table, key) else {
        return Ok(Patch::new(alloc));
    };
    match value.as_table() {
        Some(table) => patch_at(alloc, table),
        None => Err(wrong_type(alloc, key)),
    }
}
