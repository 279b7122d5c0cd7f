//! Laws of references, of the metadata and of formats, each the contract of a function without a
//! body, but for that of the order that formats derive.

ghost use Rattle.std.specs.Prelude.{◌≡◌};
ghost use Rattle.cargo_lock_references.specs.Format.{format_cmp};
ghost use Rattle.cargo_lock_references.specs.WrittenReference.{ShortenedByPlaces, ShortenedTwice};
ghost use Rattle.cargo_lock_references.specs.ReferenceOrder.{EqualMarkedSources, EqualReferences};
ghost use Rattle.cargo_lock_references.specs.LeastKey.{ChecksumAtLeastKey};
ghost use Rattle.cargo_lock_references.specs.WrittenMetadata.{ChecksumsAtKeys, NoChecksumKeys};

use crate::version::ResolveVersion;
use std::cmp::Ordering;

/// A reference is shortened to its name exactly if one package has the name, and otherwise to name
/// and version exactly if one package has both.
pub fn references_are_shortened_by_places()
    ensures { ShortenedByPlaces }
{}

/// A shortened reference is not shortened any further.
pub fn shortened_references_stay()
    ensures { ShortenedTwice }
{}

/// The checksum in the metadata for a package is the value at the least key that reads as the
/// package's name and version, and there is none if no key reads as them.
pub fn checksums_stand_at_least_keys()
    ensures { ChecksumAtLeastKey }
{}

/// In V1 the written metadata has, at the checksum key of packages with checksums, the text of the
/// last one's checksum, and at every other key the old value. From V2 on it has nothing at the
/// checksum key of a package, and at every other key the old value.
pub fn written_metadata_key_by_key()
    ensures v1 { ChecksumsAtKeys }
    ensures later { NoChecksumKeys }
{}

/// Two references are equal exactly if their names, their versions and the keys of their sources
/// are.
pub fn references_are_equal_by_keys()
    ensures { EqualReferences }
{}

/// Two marked sources are equal exactly if the keys of the sources are, whatever their marks.
pub fn marked_sources_are_equal_by_keys()
    ensures { EqualMarkedSources }
{}

/// A format with a lower number is less.
pub fn formats_compare_by_number(one: &ResolveVersion, other: &ResolveVersion) -> Ordering
    ensures { result ≡ format_cmp one.now other.now }
{
    one.cmp(other)
}
