//! The metadata that is written: in V1 with the checksums of the packages, and from V2 on without
//! their keys.

ghost use Rattle.std.specs.Prelude.{◌≡◌, [], ◌∷◌, IfOk, IsOkUnless, OnOk};
ghost use Rattle.std.specs.FinMap.{insert, remove};
ghost use Rattle.cargo_lock_parts.specs.declared.error.Error.TheVariants.{Memory};
ghost use Rattle.cargo_lock_parts.specs.Identity.{identity_of};
ghost use Rattle.cargo_lock_references.specs.Metadata.{checksum_key, metadata_of};
ghost use Rattle.cargo_lock_references.specs.Metadata.{with_checksums, without_checksums};
ghost use Rattle.cargo_lock_references.specs.Records.{texts_of};

use crate::metadata::{Metadata, MetadataKey, MetadataValue};
use crate::version::ResolveVersion;
use cargo_lock_parts::dependency::Dependency;
use cargo_lock_parts::error::Result;
use cargo_lock_parts::package::{Checksum, Package};
use std::alloc::{AllocError, Global};

/// The metadata that is written for these packages in this format: in V1 with their checksums, and
/// from V2 on without their checksum keys. The one error is `Memory`.
pub fn metadata_of(
    alloc: Global,
    format: ResolveVersion,
    metadata: &Metadata,
    packages: &[Package],
) -> Result<Metadata>
    ensures ok { IfOk result
        (λ m. texts_of m.entries
        ≡ metadata_of format (texts_of metadata.now.entries) packages.now) }
    ensures err { IsOkUnless result Memory }
{
    let mut written = copy_metadata(metadata)?;
    for package in packages {
        write_checksum(alloc, format, &mut written, package)?;
    }
    Ok(written)
}

fn copy_metadata(metadata: &Metadata) -> std::result::Result<Metadata, AllocError>
    ensures { IfOk result (λ m. m.entries ≡ metadata.now.entries) }
{
    metadata.clone()
}

// Writes what the metadata says of one package: in V1 sets its checksum key, and from V2 on removes
// that key.
fn write_checksum(
    alloc: Global,
    format: ResolveVersion,
    metadata: &mut Metadata,
    package: &Package,
) -> Result<()>
    ensures ok { OnOk result (texts_of metadata.new.entries
        ≡ metadata_of format (texts_of metadata.old.entries) («package».now ∷ [])) }
    ensures err { IsOkUnless result Memory }
{
    match format {
        ResolveVersion::V1 => put_checksum(alloc, metadata, package),
        ResolveVersion::V2 | ResolveVersion::V3 | ResolveVersion::V4 => {
            take_checksum(alloc, metadata, package)
        }
    }
}

// Sets the checksum key of a package, if the package has a checksum.
fn put_checksum(alloc: Global, metadata: &mut Metadata, package: &Package) -> Result<()>
    ensures ok { OnOk result (texts_of metadata.new.entries
        ≡ with_checksums (texts_of metadata.old.entries) («package».now ∷ [])) }
    ensures err { IsOkUnless result Memory }
{
    let Some(checksum) = &package.checksum else {
        return Ok(());
    };
    let key = key_of(alloc, package)?;
    let value = MetadataValue::of_checksum(alloc, checksum)?;
    set(metadata, key, value)?;
    Ok(())
}

// Removes the checksum key of a package.
fn take_checksum(alloc: Global, metadata: &mut Metadata, package: &Package) -> Result<()>
    ensures ok { OnOk result (texts_of metadata.new.entries
        ≡ without_checksums (texts_of metadata.old.entries) («package».now ∷ [])) }
    ensures err { IsOkUnless result Memory }
{
    if metadata.is_empty() {
        return Ok(());
    }
    let key = key_of(alloc, package)?;
    remove_key(metadata, &key);
    Ok(())
}

fn key_of(alloc: Global, package: &Package) -> Result<MetadataKey>
    ensures ok { IfOk result (λ key. key ≡ checksum_key (identity_of «package».now)) }
    ensures err { IsOkUnless result Memory }
{
    let dependency = Dependency::of(package)?;
    MetadataKey::for_checksum(alloc, &dependency)
}

impl MetadataValue {
    ghost use Rattle.cargo_lock_parts.specs.Checksum.{digest_of, digest_text};

    // The text of a checksum.
    fn of_checksum(alloc: Global, checksum: &Checksum) -> Result<MetadataValue>
        ensures ok { IfOk result (λ value. value ≡ digest_text (digest_of checksum.now)) }
        ensures err { IsOkUnless result Memory }
    {
        let text = checksum.to_lower_hex(alloc)?;
        MetadataValue::from_str(alloc, text.as_str())
    }
}

fn remove_key(metadata: &mut Metadata, key: &MetadataKey)
    ensures { texts_of metadata.new.entries ≡ remove (texts_of metadata.old.entries) key.now }
{
    metadata.remove(key);
}

/// Sets a key to a value. Fails when out of memory.
pub fn set(
    metadata: &mut Metadata,
    key: MetadataKey,
    value: MetadataValue,
) -> std::result::Result<(), AllocError>
    ensures { OnOk result
        (texts_of metadata.new.entries ≡ insert (texts_of metadata.old.entries) key value) }
{
    metadata.insert(key, value)?;
    Ok(())
}
