//! The versions of packages, from their texts.

ghost use Rattle.std.specs.Prelude.{◌≡◌, ◌↔◌, IsTrue};
ghost use Rattle.semver.specs.Identifiers.{parts_of};
ghost use Rattle.semver.specs.Parse.{memory_error};
ghost use Rattle.cargo_lock_parts.specs.Error.{Reads};
ghost use Rattle.cargo_lock_references.specs.Reference.{version_of};
ghost use Rattle.cargo_lock_references.specs.ResolutionSearch.{same_parts};

use cargo_lock_parts::error::{Error, Result};
use cargo_lock_parts::package::Version;
use semver::Error as VersionError;
use std::alloc::{AllocError, Global};

/// Whether two versions are equal.
pub fn same_version(a: &Version, b: &Version) -> bool
    ensures { result ≡ same_parts (parts_of a.now) (parts_of b.now) }
{
    a == b
}

/// The version that a text reads as. An error of `semver` is `Parse` here. The other error is
/// `Memory`.
#[tactic(auto, unfolding(crate::specs::Reference::version_of))]
pub fn version_of(alloc: Global, text: &str) -> Result<Version>
    ensures { Reads parts_of result (version_of text.now) }
{
    match Version::parse(alloc, text) {
        Ok(version) => Ok(version),
        Err(fault) if is_memory(&fault) => Err(Error::Memory),
        Err(fault) => Err(Error::parse(format!(in alloc; "version error: {fault}"))),
    }
}

// Whether `semver` ran out of memory.
fn is_memory(fault: &VersionError) -> bool
    ensures { IsTrue result ↔ (fault.now ≡ memory_error) }
{
    *fault == VersionError::from(AllocError)
}
