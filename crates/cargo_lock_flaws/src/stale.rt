//! Checksums in the metadata that are of no package.

ghost use Rattle.std.specs.Prelude.{◌≡◌, IfOk, IsOkUnless, map};
ghost use Rattle.std.specs.List.{filter};
ghost use Rattle.cargo_lock_parts.specs.declared.error.Error.TheVariants.{Memory};
ghost use Rattle.cargo_lock_references.specs.Records.{texts_of};
ghost use Rattle.cargo_lock_flaws.specs.Stale.{is_of_checksum, stale_keys};

use cargo_lock_parts::error::Result;
use cargo_lock_parts::package::Package;
use cargo_lock_references::checksums::keys_ascend;
use cargo_lock_references::written_metadata::metadata_of;
use cargo_lock_references::{Metadata, MetadataKey, MetadataValue, ResolveVersion};
use std::alloc::{AllocError, Global};

/// The keys of checksums, in order, that are of none of these packages. In V1 Cargo writes `<none>`
/// for a package without a checksum; such keys are left out. The one error is `Memory`.
///
/// ```
/// let keys = stale_keys(rt.alloc(), &lockfile.metadata, &lockfile.packages)?;
/// ```
pub fn stale_keys(
    alloc: Global,
    metadata: &Metadata,
    packages: &[Package],
) -> Result<Vec<MetadataKey>>
    ensures ok { IfOk result
        (λ keys. keys.items ≡ stale_keys (texts_of metadata.now.entries) packages.now) }
    ensures err { IsOkUnless result Memory }
{
    let others = metadata_of(alloc, ResolveVersion::V2, metadata, packages)?;
    keys_ascend(&others);
    let keys = checksum_keys(alloc, &others)?;
    Ok(keys)
}

fn checksum_keys(
    alloc: Global,
    metadata: &Metadata,
) -> std::result::Result<Vec<MetadataKey>, AllocError>
    ensures { IfOk result (λ keys. keys.items
        ≡ map (λ e. e.0) (filter is_of_checksum metadata.now.entries)) }
{
    let mut keys = Vec::new(alloc);
    for (key, value) in metadata {
        if is_of_checksum(key, value) {
            keys.push(key.clone()?)?;
        }
    }
    Ok(keys)
}

fn is_of_checksum(key: &MetadataKey, value: &MetadataValue) -> bool
    ensures { result ≡ is_of_checksum (key.now, value.now) }
{
    key.is_checksum() && value.as_str() != "<none>"
}
