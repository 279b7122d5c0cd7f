//! The checksums that the metadata holds.

ghost use Rattle.std.specs.Prelude.{◌≡◌, IfOk, option_map};
ghost use Rattle.std.specs.FinMap.{entries};
ghost use Rattle.std.specs.List.{list_any};
ghost use Rattle.semver.specs.Identifiers.{parts_of};
ghost use Rattle.cargo_lock_parts.specs.Checksum.{digest_of};
ghost use Rattle.cargo_lock_references.specs.LeastKey.{IsFoundAtLeastKey};
ghost use Rattle.cargo_lock_references.specs.Metadata.{checksum_in, has_checksum_key, is_checksum};
ghost use Rattle.cargo_lock_references.specs.Records.{texts_of};

use crate::metadata::Metadata;
use crate::read_keys::ReadMetadata;
use cargo_lock_parts::package::{Checksum, Name, Version};
use std::alloc::{AllocError, Global};

/// The checksum in the metadata at the first key, in byte order, that reads as this name and
/// version. Keys that do not read are ignored, and a value that is not a checksum counts as no
/// checksum. Fails when out of memory; a key with a URL of 4 GB or more fails in this way too.
pub fn find_checksum(
    alloc: Global,
    metadata: &Metadata,
    name: &Name,
    version: &Version,
) -> Result<Option<Checksum>, AllocError>
    ensures found { IfOk result (λ found. option_map digest_of found
        ≡ checksum_in (texts_of metadata.now.entries) name.now (parts_of version.now)) }
    ensures least { IfOk result (λ found. IsFoundAtLeastKey (texts_of metadata.now.entries) name.now
        (parts_of version.now) (option_map digest_of found)) }
{
    let read = ReadMetadata::of(alloc, metadata)?;
    read.checksum(name, version)
}

/// Does nothing; its contract says that the keys of a map ascend.
pub fn keys_ascend(metadata: &Metadata)
    ensures { entries (texts_of metadata.now.entries) ≡ metadata.now.entries }
{
    let _length = metadata.len();
}

/// Whether some key begins with `checksum `.
#[tactic(auto, unfolding(crate::specs::Metadata::has_checksum_key))]
pub fn has_checksum_key(metadata: &Metadata) -> bool
    ensures { result ≡ has_checksum_key (texts_of metadata.now.entries) }
{
    keys_ascend(metadata);
    has_checksum_among(metadata)
}

fn has_checksum_among(metadata: &Metadata) -> bool
    ensures { result ≡ list_any (λ e. is_checksum e.0) metadata.now.entries }
{
    for (key, _) in metadata {
        if key.is_checksum() {
            return true;
        }
    }
    false
}
