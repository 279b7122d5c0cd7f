//! From encoded packages to the values of a table.

ghost use Rattle.std.specs.Prelude.{◌≡◌, ◌∷◌, [], Some, IfOk, IsOkUnless, OnOk, codes, map};
ghost use Rattle.std.specs.Prelude.{option_map};
ghost use Rattle.semver.specs.Identifiers.{parts_of, parts_text};
ghost use Rattle.toml.specs.Data.{integer, string};
ghost use Rattle.toml.specs.View.{table_view, view};
ghost use Rattle.cargo_lock_parts.specs.Checksum.{digest_of};
ghost use Rattle.cargo_lock_parts.specs.Identity.{identity_of};
ghost use Rattle.cargo_lock_references.specs.Records.{texts_of};
ghost use Rattle.cargo_lock_lines.specs.TableOfWords.{present_members, text_members, unless_empty};
ghost use Rattle.cargo_lock_lines.specs.TableOfWords.{unless_no_patch};
ghost use Rattle.cargo_lock_encoding.specs.Lockfiles.{is_escaped_number};
ghost use Rattle.cargo_lock_encoding.specs.Table.{checksum_value, encoded_package_of};
ghost use Rattle.cargo_lock_encoding.specs.Table.{package_table, encoded_package_value};
ghost use Rattle.cargo_lock_encoding.specs.Table.{reference_value, metadata_value, packages_value};
ghost use Rattle.cargo_lock_encoding.specs.Table.{unused_patch_value, patch_table, put};
ghost use Rattle.cargo_lock_encoding.specs.Table.{put_present, encoded_root, source_value};
ghost use Rattle.cargo_lock_encoding.specs.Table.{table_of};
ghost use Rattle.cargo_lock_parts.specs.declared.error.Error.TheVariants.{Memory};
ghost use Rattle.cargo_lock_references.specs.Metadata.{metadata_of};

use crate::encode::{encoded_package_of, encoded_root, written_version};
use crate::values::LockfileRef;
use cargo_lock_parts::dependency::Dependency;
use cargo_lock_parts::error::Result;
use cargo_lock_parts::package::source::SourceIdAsUrl;
use cargo_lock_parts::package::{Checksum, Package, Version};
use cargo_lock_parts::patch::Patch;
use cargo_lock_references::borrowed::written_source;
use cargo_lock_references::checksums::keys_ascend;
use cargo_lock_references::index::Indexed;
use cargo_lock_references::metadata::{Metadata, MetadataKey, MetadataValue};
use cargo_lock_references::written_metadata::metadata_of;
use cargo_lock_references::{EncodableDependencyRef, EncodablePackageRef, ResolveVersion};
use std::alloc::{AllocError, Global};
use toml::{Table, Value};

impl LockfileRef<'_> {
    /// The table of the lockfile, in the lockfile's format, as Cargo writes it. The one error is
    /// `Memory`.
    #[tactic(auto, unfolding(crate::specs::Table::encoded_of, crate::specs::Table::encoded_table))]
    pub fn to_table(&self, alloc: Global) -> Result<Table>
        ensures ok { IfOk result (λ t. table_view t ≡ table_of self.now) }
        ensures err { IsOkUnless result Memory }
    {
        let format = self.version;
        let metadata = self.metadata_value(alloc)?;
        let packages = packages_value(alloc, format, self.packages)?;
        let number = written_version(format);
        let patch = patch_value(alloc, is_escaped_number(&number), self.patch)?;
        let root = root_value(alloc, format, self.root)?;
        let version = version_number(number);
        let table = lockfile_members(alloc, metadata, packages, patch, root, version)?;
        Ok(table)
    }

    // The table of the metadata that is written.
    fn metadata_value(&self, alloc: Global) -> Result<Option<Value>>
        ensures ok { IfOk result (λ v. option_map view v
            ≡ metadata_value (metadata_of self.now.version self.now.metadata self.now.packages)) }
        ensures err { IsOkUnless result Memory }
    {
        let metadata = metadata_of(alloc, self.version, self.metadata, self.packages)?;
        Ok(metadata_value(alloc, &metadata)?)
    }
}

// Whether the sources of patches are escaped if the table has this number: it is that of V4.
pub(crate) fn is_escaped_number(number: &Option<i64>) -> bool
    ensures { result ≡ is_escaped_number number.now }
{
    matches!(number, Some(4))
}

// The table of those values of a lockfile that are present.
fn lockfile_members(
    alloc: Global,
    metadata: Option<Value>,
    packages: Value,
    patch: Option<Value>,
    root: Option<Value>,
    version: Option<Value>,
) -> std::result::Result<Table, AllocError>
    ensures { IfOk result (λ t. table_view t ≡ present_members (
        (codes "metadata", option_map view metadata)
        ∷ (codes "package", Some (view packages))
        ∷ (codes "patch", option_map view patch)
        ∷ (codes "root", option_map view root)
        ∷ (codes "version", option_map view version) ∷ [])) }
{
    let mut table = Table::new(alloc);
    put_present(alloc, &mut table, "metadata", metadata)?;
    put(alloc, &mut table, "package", packages)?;
    put_present(alloc, &mut table, "patch", patch)?;
    put_present(alloc, &mut table, "root", root)?;
    put_present(alloc, &mut table, "version", version)?;
    Ok(table)
}

// The value of the number of a format.
fn version_number(version: Option<i64>) -> Option<Value>
    ensures { option_map view result ≡ option_map integer version }
{
    match version {
        Some(number) => Some(Value::from(number)),
        None => None,
    }
}

// ---- packages

// The list of the tables of the packages of a lockfile, as they are written in a format.
fn packages_value(
    alloc: Global,
    format: ResolveVersion,
    list: &[Package],
) -> std::result::Result<Value, AllocError>
    ensures { IfOk result
        (λ v. view v
        ≡ packages_value (map (encoded_package_of format (map identity_of list.now)) list.now)) }
{
    let packages = Indexed::of(alloc, list)?;
    each_value(alloc, format, &packages, list)
}

fn each_value<'a>(
    alloc: Global,
    format: ResolveVersion,
    packages: &Indexed<'a, Package>,
    list: &'a [Package],
) -> std::result::Result<Value, AllocError>
    ensures { IfOk result
        (λ v. view v ≡ packages_value
        (map (encoded_package_of format (map identity_of packages.now)) list.now)) }
{
    let mut values = Vec::with_capacity(alloc, list.len())?;
    for package in list {
        let value = package_value(alloc, format, packages, package)?;
        values.push(value)?;
    }
    Ok(Value::from(values))
}

fn package_value<'a>(
    alloc: Global,
    format: ResolveVersion,
    packages: &Indexed<'a, Package>,
    package: &'a Package,
) -> std::result::Result<Value, AllocError>
    ensures { IfOk result (λ v. view v ≡ encoded_package_value
        (encoded_package_of format (map identity_of packages.now) «package».now)) }
{
    let encoded = encoded_package_of(alloc, format, packages, package)?;
    encoded_package_value(alloc, &encoded)
}

// The table of the root of a lockfile, as it is written in a format, if there is a root.
fn root_value(
    alloc: Global,
    format: ResolveVersion,
    root: &Option<Package>,
) -> std::result::Result<Option<Value>, AllocError>
    ensures { IfOk result
        (λ v. option_map view v
        ≡ option_map encoded_package_value (option_map (encoded_root format) root.now)) }
{
    match root {
        Some(package) => {
            let encoded = encoded_root(alloc, format, package)?;
            Ok(Some(encoded_package_value(alloc, &encoded)?))
        }
        None => Ok(None),
    }
}

fn encoded_package_value(
    alloc: Global,
    package: &EncodablePackageRef<'_>,
) -> std::result::Result<Value, AllocError>
    ensures { IfOk result (λ v. view v ≡ encoded_package_value «package».now) }
{
    let table = package_table(alloc, package)?;
    Ok(Value::from(table))
}

fn package_table(
    alloc: Global,
    package: &EncodablePackageRef<'_>,
) -> std::result::Result<Table, AllocError>
    ensures { IfOk result (λ t. table_view t ≡ package_table «package».now) }
{
    let checksum = checksum_value(alloc, &package.checksum)?;
    let dependencies = reference_values(alloc, package.dependencies.as_slice())?;
    let dependencies = unless_empty(dependencies);
    let name = Value::string(alloc, package.name.as_str())?;
    let replace = replace_value(alloc, &package.replace)?;
    let source = source_value(alloc, &package.source)?;
    let version = version_value(alloc, package.version)?;
    package_members(
        alloc,
        checksum,
        dependencies,
        name,
        replace,
        source,
        version,
    )
}

// A table of those values of a package that are present.
fn package_members(
    alloc: Global,
    checksum: Option<Value>,
    dependencies: Option<Value>,
    name: Value,
    replace: Option<Value>,
    source: Option<Value>,
    version: Value,
) -> std::result::Result<Table, AllocError>
    ensures { IfOk result (λ t. table_view t ≡ present_members (
        (codes "checksum", option_map view checksum)
        ∷ (codes "dependencies", option_map view dependencies)
        ∷ (codes "name", Some (view name))
        ∷ (codes "replace", option_map view replace)
        ∷ (codes "source", option_map view source)
        ∷ (codes "version", Some (view version)) ∷ [])) }
{
    let mut table = Table::new(alloc);
    put_present(alloc, &mut table, "checksum", checksum)?;
    put_present(alloc, &mut table, "dependencies", dependencies)?;
    put(alloc, &mut table, "name", name)?;
    put_present(alloc, &mut table, "replace", replace)?;
    put_present(alloc, &mut table, "source", source)?;
    put(alloc, &mut table, "version", version)?;
    Ok(table)
}

fn checksum_value(
    alloc: Global,
    checksum: &Option<Checksum>,
) -> std::result::Result<Option<Value>, AllocError>
    ensures { IfOk result
        (λ v. option_map view v ≡ option_map checksum_value (option_map digest_of checksum.now)) }
{
    match checksum {
        Some(checksum) => {
            let text = format!(in alloc; "{checksum}")?;
            Ok(Some(Value::from(text)))
        }
        None => Ok(None),
    }
}

// The references, as texts.
fn reference_values(
    alloc: Global,
    references: &[EncodableDependencyRef<'_>],
) -> std::result::Result<Vec<Value>, AllocError>
    ensures { IfOk result (λ v. map view v.items ≡ map reference_value references.now) }
{
    let mut values = Vec::new(alloc);
    for reference in references {
        let value = reference_value(alloc, reference)?;
        values.push(value)?;
    }
    Ok(values)
}

fn reference_value(
    alloc: Global,
    reference: &EncodableDependencyRef<'_>,
) -> std::result::Result<Value, AllocError>
    ensures { IfOk result (λ v. view v ≡ reference_value reference.now) }
{
    let text = format!(in alloc; "{reference}")?;
    Ok(Value::from(text))
}

fn replace_value(
    alloc: Global,
    replace: &Option<EncodableDependencyRef<'_>>,
) -> std::result::Result<Option<Value>, AllocError>
    ensures { IfOk result (λ v. option_map view v ≡ option_map reference_value replace.now) }
{
    match replace {
        Some(reference) => Ok(Some(reference_value(alloc, reference)?)),
        None => Ok(None),
    }
}

fn source_value(
    alloc: Global,
    source: &Option<SourceIdAsUrl<'_>>,
) -> std::result::Result<Option<Value>, AllocError>
    ensures { IfOk result (λ v. option_map view v ≡ option_map source_value source.now) }
{
    match source {
        Some(source) => {
            let text = format!(in alloc; "{source}")?;
            Ok(Some(Value::from(text)))
        }
        None => Ok(None),
    }
}

fn version_value(alloc: Global, version: &Version) -> std::result::Result<Value, AllocError>
    ensures { IfOk result (λ v. view v ≡ string (parts_text (parts_of version.now))) }
{
    let text = format!(in alloc; "{version}")?;
    Ok(Value::from(text))
}

// ---- patches

// The table of the unused patches, their sources escaped or plain, unless there are none.
fn patch_value(
    alloc: Global,
    escaped: bool,
    patch: &Patch,
) -> std::result::Result<Option<Value>, AllocError>
    ensures { IfOk result
        (λ v. option_map view v ≡ unless_no_patch (map (unused_patch_value escaped) patch.now)) }
{
    let unused = patch_values(alloc, escaped, patch.unused.as_slice())?;
    unused_value(alloc, unused)
}

// A table of unused patches, unless there are none.
fn unused_value(alloc: Global, unused: Vec<Value>) -> std::result::Result<Option<Value>, AllocError>
    ensures { IfOk result (λ v. option_map view v ≡ unless_no_patch (map view unused.items)) }
{
    let Some(value) = unless_empty(unused) else {
        return Ok(None);
    };
    let mut table = Table::new(alloc);
    put(alloc, &mut table, "unused", value)?;
    Ok(Some(Value::from(table)))
}

fn patch_values(
    alloc: Global,
    escaped: bool,
    unused: &[Dependency],
) -> std::result::Result<Vec<Value>, AllocError>
    ensures { IfOk result (λ v. map view v.items ≡ map (unused_patch_value escaped) unused.now) }
{
    let mut values = Vec::new(alloc);
    for dependency in unused {
        let table = patch_table(alloc, escaped, dependency)?;
        values.push(Value::from(table))?;
    }
    Ok(values)
}

fn patch_table(
    alloc: Global,
    escaped: bool,
    dependency: &Dependency,
) -> std::result::Result<Table, AllocError>
    ensures { IfOk result (λ t. table_view t ≡ patch_table escaped dependency.now) }
{
    let name = Value::string(alloc, dependency.name.as_str())?;
    let source = source_value(alloc, &written_source(escaped, &dependency.source))?;
    let version = version_value(alloc, &dependency.version)?;
    patch_members(alloc, name, source, version)
}

// A table of those values of an unused patch that are present.
fn patch_members(
    alloc: Global,
    name: Value,
    source: Option<Value>,
    version: Value,
) -> std::result::Result<Table, AllocError>
    ensures { IfOk result (λ t. table_view t ≡ present_members (
        (codes "name", Some (view name))
        ∷ (codes "source", option_map view source)
        ∷ (codes "version", Some (view version)) ∷ [])) }
{
    let mut table = Table::new(alloc);
    put(alloc, &mut table, "name", name)?;
    put_present(alloc, &mut table, "source", source)?;
    put(alloc, &mut table, "version", version)?;
    Ok(table)
}

// ---- metadata

// The table of the metadata, unless it is empty.
fn metadata_value(
    alloc: Global,
    metadata: &Metadata,
) -> std::result::Result<Option<Value>, AllocError>
    ensures { IfOk result
        (λ v. option_map view v ≡ metadata_value (texts_of metadata.now.entries)) }
{
    keys_ascend(metadata);
    if metadata.is_empty() {
        return Ok(None);
    }
    let table = text_table(alloc, metadata)?;
    Ok(Some(Value::from(table)))
}

// A table of texts. `len` says that the keys ascend, so each text is added after those before it.
fn text_table(alloc: Global, metadata: &Metadata) -> std::result::Result<Table, AllocError>
    ensures { IfOk result (λ t. table_view t ≡ text_members metadata.now.entries) }
{
    let _length = metadata.len();
    let mut table = Table::new(alloc);
    for (key, value) in metadata {
        put_text(alloc, &mut table, key, value)?;
    }
    Ok(table)
}

fn put_text(
    alloc: Global,
    table: &mut Table,
    key: &MetadataKey,
    value: &MetadataValue,
) -> std::result::Result<(), AllocError>
    ensures { OnOk result
        (table_view table.new ≡ put key.now (string value.now) (table_view table.old)) }
{
    let value = Value::string(alloc, value.as_str())?;
    put(alloc, table, key.as_str(), value)?;
    Ok(())
}

// ---- values

// The values as a list, unless there are none.
fn unless_empty(values: Vec<Value>) -> Option<Value>
    ensures { option_map view result ≡ unless_empty (map view values.items) }
{
    if values.is_empty() {
        None
    } else {
        Some(Value::from(values))
    }
}

// Puts a value at a key, if there is one.
fn put_present(
    alloc: Global,
    table: &mut Table,
    key: &str,
    value: Option<Value>,
) -> std::result::Result<(), AllocError>
    ensures { OnOk result
        (table_view table.new
        ≡ put_present key.now (option_map view value) (table_view table.old)) }
{
    match value {
        Some(value) => put(alloc, table, key, value),
        None => Ok(()),
    }
}

fn put(
    alloc: Global,
    table: &mut Table,
    key: &str,
    value: Value,
) -> std::result::Result<(), AllocError>
    ensures { OnOk result (table_view table.new ≡ put key.now (view value) (table_view table.old)) }
{
    let key = String::from_str(alloc, key)?;
    table.insert(key, value)?;
    Ok(())
}
