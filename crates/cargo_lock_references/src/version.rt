//! The formats of lockfiles.

ghost use Rattle.std.specs.Prelude.{◌≡◌, ◌≤◌, ◌↔◌, ◌⊎◌, IfSome, IsOk, IsSome, decimal};
ghost use Rattle.std.specs.Fmt.{signed_decimal};
ghost use Rattle.std.specs.Str.Parse.{digits_value, without_leading_plus};
ghost use Rattle.cargo_lock_parts.specs.declared.error.Error.TheVariants.{Memory};
ghost use Rattle.cargo_lock_parts.specs.Error.{IsParse, IsParseOrMemory, Reads, RefusesWith};
ghost use Rattle.cargo_lock_references.specs.Finds.{Finds};
ghost use Rattle.cargo_lock_references.specs.Format.{HasFormat, IsFormatText, IsNumberText};
ghost use Rattle.cargo_lock_references.specs.Format.{checksums_refusal, format_by, format_refusal};
ghost use Rattle.cargo_lock_references.specs.Format.{format_without_number, has_checksum};
ghost use Rattle.cargo_lock_references.specs.Format.{format_numbered, format_of_number, refusal_by};
ghost use Rattle.cargo_lock_references.specs.Records.{texts_of};

use crate::EncodablePackage;
use crate::checksums::has_checksum_key;
use crate::metadata::Metadata;
use cargo_lock_parts::error::{Error, Result};
use serde::{Deserialize, Serialize};
use std::alloc::Global;
use std::fmt;

/// A format of lockfiles. Its number, which is also that of the variant, is in the file from V3 on.
#[derive(Clone, Copy, Debug, PartialEq, Eq, PartialOrd, Ord, Hash, Serialize, Deserialize)]
pub enum ResolveVersion {
    /// The first format: references in full, and checksums in the metadata.
    V1 = 1,

    /// References without redundant parts, and checksums in the packages.
    V2 = 2,

    /// As V2, and the number of the format is in the file.
    V3 = 3,

    /// As V3, and the references of git sources are escaped.
    V4 = 4,
}

impl Default for ResolveVersion {
    ghost use Rattle.std.specs.Prelude.{◌≡◌};
    ghost use Rattle.cargo_lock_references.specs.declared.version.ResolveVersion.TheVariants.{V3};

    ghost is_default = { λ version. version ≡ V3 };

    fn default() -> ResolveVersion {
        ResolveVersion::V3
    }
}

impl From<ResolveVersion> for u32 {
    ghost use Rattle.std.specs.Prelude.{◌≡◌};
    ghost use Rattle.cargo_lock_references.specs.Format.{number_of};

    ghost from_gives = { λ version number. number ≡ number_of version };

    fn from(version: ResolveVersion) -> u32 {
        version as u32
    }
}

impl ResolveVersion {
    /// The format with this number. A number outside 1 to 4 is `Parse`, which quotes it; only this
    /// text allocates, and if memory for it runs out, the error is `Memory`.
    pub fn from_number(alloc: Global, number: u32) -> Result<ResolveVersion>
        ensures read { Reads (λ version. version) result (format_numbered number) }
        ensures accepted { IsOk result ↔ ((1 ≤ number) × (number ≤ 4)) }
        ensures refused { RefusesWith result (format_refusal (decimal number)) }
    {
        match format_numbered(number) {
            Some(version) => Ok(version),
            None => Err(invalid_format(alloc, number)),
        }
    }

    /// The format whose number the text is, as Rust reads a `u32`: `3`, `+3` and `03` are V3. It
    /// allocates nothing.
    ///
    /// Any other text is `Parse`. It quotes the number if the text is one, so `5` for `05`, and
    /// otherwise the text itself. If memory for that runs out, the error is `Memory`.
    ///
    /// ```
    /// let format = ResolveVersion::from_str(alloc, "4")?;
    /// ```
    pub fn from_str(alloc: Global, text: &str) -> Result<ResolveVersion>
        ensures read { Finds (IsFormatText text.now) result }
        ensures accepted { IsOk result ↔ HasFormat text.now }
        ensures number { IsNumberText text.now → RefusesWith result (format_refusal
            (decimal (digits_value 10 (without_leading_plus text.now)))) }
        ensures other { ¬ IsNumberText text.now → RefusesWith result (format_refusal text.now) }
    {
        match text.parse::<u32>() {
            Ok(number) => ResolveVersion::from_number(alloc, number),
            Err(_) => Err(invalid_format(alloc, text)),
        }
    }

    /// The format of a lockfile whose table has no `version`: V1 if some key of the metadata begins
    /// with `checksum `, otherwise V2. It allocates nothing. Checksums in both places are `Parse`;
    /// if memory for its text runs out, the error is `Memory`. The root's checksum is ignored.
    pub fn detect(
        alloc: Global,
        packages: &[EncodablePackage],
        metadata: &Metadata,
    ) -> Result<ResolveVersion>
        ensures read { Reads (λ version. version) result
            (format_without_number packages.now (texts_of metadata.now.entries)) }
        ensures accepted { IsOk result
            ↔ IsSome (format_without_number packages.now (texts_of metadata.now.entries)) }
        ensures refused { RefusesWith result checksums_refusal }
    {
        if !has_checksum_key(metadata) {
            return Ok(ResolveVersion::V2);
        }
        if !has_checksum(packages) {
            return Ok(ResolveVersion::V1);
        }
        Err(Error::parse(String::from_str(
            alloc,
            "malformed lockfile: contains checksums in both [[package]] and [[metadata]] sections",
        )))
    }

    // The format with this number, which may be below 0.
    fn from_table_number(alloc: Global, number: i64) -> Result<ResolveVersion>
        ensures read { Reads (λ version. version) result (format_of_number number) }
        ensures accepted { IsOk result ↔ IsSome (format_of_number number) }
        ensures refused { RefusesWith result (format_refusal (signed_decimal number)) }
    {
        match number {
            1 => Ok(ResolveVersion::V1),
            2 => Ok(ResolveVersion::V2),
            3 => Ok(ResolveVersion::V3),
            4 => Ok(ResolveVersion::V4),
            _ => Err(invalid_format(alloc, number)),
        }
    }
}

/// The format of the values of a table: that of the number, or without a number, what `detect`
/// finds. It allocates nothing. If there is no format, the error is `Parse`, or `Memory` if memory
/// for its text runs out.
pub fn format_of_values(
    alloc: Global,
    version: Option<i64>,
    packages: &[EncodablePackage],
    metadata: &Metadata,
) -> Result<ResolveVersion>
    ensures read { Reads (λ version. version) result
        (format_by version packages.now (texts_of metadata.now.entries)) }
    ensures accepted { IsOk result
        ↔ IsSome (format_by version packages.now (texts_of metadata.now.entries)) }
    ensures refused { RefusesWith result (refusal_by version) }
{
    match version {
        Some(number) => ResolveVersion::from_table_number(alloc, number),
        None => ResolveVersion::detect(alloc, packages, metadata),
    }
}

// The format with this number, if there is one.
fn format_numbered(number: u32) -> Option<ResolveVersion>
    ensures { result ≡ format_numbered number }
{
    match number {
        1 => Some(ResolveVersion::V1),
        2 => Some(ResolveVersion::V2),
        3 => Some(ResolveVersion::V3),
        4 => Some(ResolveVersion::V4),
        _ => None,
    }
}

// The error for what is not the number of a format.
fn invalid_format<T: fmt::Display + Drop>(alloc: Global, number: T) -> Error
    ensures kind { IsParseOrMemory result }
    ensures text { IfSome (T.output number)
        (λ shown. (result ≡ Memory) ⊎ IsParse result (format_refusal shown)) }
{
    Error::parse(format!(in alloc; "invalid Cargo.lock format version: `{number}`"))
}

fn has_checksum(packages: &[EncodablePackage]) -> bool
    ensures { result ≡ has_checksum packages.now }
{
    for encoded in packages {
        if encoded.checksum.is_some() {
            return true;
        }
    }
    false
}
