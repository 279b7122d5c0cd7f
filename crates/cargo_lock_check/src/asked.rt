//! Findings about checksums, and those that are only looked for if the format loses no source.

ghost use Rattle.std.specs.Prelude.{◌≡◌, ◌↔◌, [], None, true, IfOk, IsOkUnless, IsTrue, length, map, string_bytes};
ghost use Rattle.cargo_lock_parts.specs.declared.error.Error.TheVariants.{Memory};
ghost use Rattle.cargo_lock_encoding.specs.Survives.{Survives};
ghost use Rattle.cargo_lock.specs.CargoChecksums.{with_cargo_checksums_in};
ghost use Rattle.cargo_lock_check.specs.Findings.{AreLossy, AreOrphans, IsAskedUnless, IsOtherLine, checked_packages};
ghost use Rattle.cargo_lock_check.specs.Findings.{has_own_checksums};
ghost use Rattle.cargo_lock_flaws.specs.Lost.{AreLost};
ghost use Rattle.cargo_lock_flaws.specs.Packages.{IsUnchecked, IsWithoutChecksum};
ghost use Rattle.lists.specs.Places.{IsPlaces};
ghost use Rattle.cargo_lock_flaws.specs.Stale.{stale_keys};

use crate::text::OtherLine;
use crate::written::other_line;
use cargo_lock::Lockfile;
use cargo_lock_flaws::unmatched::Unmatched;
use cargo_lock_flaws::{packages_without_checksum, stale_keys, unchecked_registries};
use cargo_lock_parts::error::Result;
use cargo_lock_references::{MetadataKey, ResolveVersion};
use std::alloc::{AllocError, Global};

/// The findings about checksums.
#[derive(Drop)]
pub(crate) struct ChecksumFindings {
    pub(crate) without_checksum: Vec<usize>,
    pub(crate) unchecked: Vec<usize>,
    pub(crate) stale: Vec<MetadataKey>,
}

impl ChecksumFindings {
    // Those of a lockfile, where `checked` is the lockfile with the checksums that Cargo reads.
    fn of(alloc: Global, lockfile: &Lockfile, checked: &Lockfile) -> Result<ChecksumFindings>
        requires { checked.now ≡ with_cargo_checksums_in lockfile.now }
        ensures without_checksum { IfOk result
            (λ f. IsPlaces (IsWithoutChecksum (checked_packages lockfile.now))
            (length lockfile.now.packages) f.without_checksum.items) }
        ensures unchecked { IfOk result
            (λ f. IsPlaces (IsUnchecked (checked_packages lockfile.now))
            (length lockfile.now.packages) f.unchecked.items) }
        ensures stale { IfOk result (λ f. f.stale.items
            ≡ stale_keys lockfile.now.metadata lockfile.now.packages) }
        ensures err { IsOkUnless result Memory }
    {
        Ok(ChecksumFindings {
            without_checksum: without_checksum(alloc, lockfile, checked)?,
            unchecked: unchecked(alloc, lockfile, checked)?,
            stale: stale_keys(alloc, &lockfile.metadata, &lockfile.packages)?,
        })
    }
}

// The packages without a checksum, by the checksums that Cargo reads.
fn without_checksum(
    alloc: Global,
    lockfile: &Lockfile,
    checked: &Lockfile,
) -> std::result::Result<Vec<usize>, AllocError>
    requires { checked.now ≡ with_cargo_checksums_in lockfile.now }
    ensures { IfOk result
        (λ places. IsPlaces (IsWithoutChecksum (checked_packages lockfile.now))
        (length lockfile.now.packages) places.items) }
{
    packages_without_checksum(alloc, &checked.packages)
}

// The first packages from registries without checksums, by the checksums that Cargo reads.
fn unchecked(
    alloc: Global,
    lockfile: &Lockfile,
    checked: &Lockfile,
) -> std::result::Result<Vec<usize>, AllocError>
    requires { checked.now ≡ with_cargo_checksums_in lockfile.now }
    ensures { IfOk result
        (λ places. IsPlaces (IsUnchecked (checked_packages lockfile.now))
        (length lockfile.now.packages) places.items) }
{
    unchecked_registries(alloc, &checked.packages)
}

// Whether the checksums that Cargo reads are those of the packages. In V1 they are in the metadata.
fn has_own_checksums(version: ResolveVersion) -> bool
    ensures { result ≡ has_own_checksums version }
{
    match version {
        ResolveVersion::V1 => false,
        ResolveVersion::V2 | ResolveVersion::V3 | ResolveVersion::V4 => true,
    }
}

// The lockfile with the checksums that Cargo reads.
fn checked_lockfile(alloc: Global, lockfile: &Lockfile) -> Result<Lockfile>
    ensures ok { IfOk result (λ checked. checked ≡ with_cargo_checksums_in lockfile.now) }
    ensures err { IsOkUnless result Memory }
{
    let checked = lockfile.clone()?.with_cargo_checksums(alloc)?;
    Ok(checked)
}

/// The findings about checksums, the sources that the format loses, and the findings that are only
/// looked for if it loses none.
#[derive(Drop)]
pub(crate) struct TextFindings {
    pub(crate) checksums: ChecksumFindings,
    pub(crate) lossy: Vec<String>,
    pub(crate) asked: AskedFindings,
}

impl TextFindings {
    /// Those of a text and its lockfile.
    pub(crate) fn of(alloc: Global, text: &str, lockfile: &Lockfile) -> Result<TextFindings>
        ensures without_checksum { IfOk result
            (λ f. IsPlaces (IsWithoutChecksum (checked_packages lockfile.now))
            (length lockfile.now.packages) f.checksums.without_checksum.items) }
        ensures unchecked { IfOk result
            (λ f. IsPlaces (IsUnchecked (checked_packages lockfile.now))
            (length lockfile.now.packages) f.checksums.unchecked.items) }
        ensures stale { IfOk result (λ f. f.checksums.stale.items
            ≡ stale_keys lockfile.now.metadata lockfile.now.packages) }
        ensures lossy { IfOk result (λ f.
            AreLossy lockfile.now.version text.now (map string_bytes f.lossy.items)) }
        ensures lost_dependencies { IfOk result (λ f. IsAskedUnless (map string_bytes f.lossy.items)
            (AreLost lockfile.now.packages f.asked.lost_dependencies.items)
            (f.asked.lost_dependencies.items ≡ [])) }
        ensures orphans { IfOk result (λ f. IsAskedUnless (map string_bytes f.lossy.items)
            (AreOrphans lockfile.now f.asked.orphans.items) (f.asked.orphans.items ≡ [])) }
        ensures is_kept { IfOk result (λ f. IsAskedUnless (map string_bytes f.lossy.items)
            (IsTrue f.asked.is_kept ↔ Survives lockfile.now lockfile.now.version)
            (f.asked.is_kept ≡ true)) }
        ensures other_line { IfOk result (λ f. IsAskedUnless (map string_bytes f.lossy.items)
            (IsOtherLine text.now lockfile.now f.asked.other_line) (f.asked.other_line ≡ None)) }
        ensures err { IsOkUnless result Memory }
    {
        if has_own_checksums(lockfile.version) {
            return TextFindings::of_checked(alloc, text, lockfile, lockfile);
        }
        let checked = checked_lockfile(alloc, lockfile)?;
        TextFindings::of_checked(alloc, text, lockfile, &checked)
    }

    // Those of a text and its lockfile, where `checked` is the lockfile with the checksums that
    // Cargo reads.
    fn of_checked(
        alloc: Global,
        text: &str,
        lockfile: &Lockfile,
        checked: &Lockfile,
    ) -> Result<TextFindings>
        requires { checked.now ≡ with_cargo_checksums_in lockfile.now }
        ensures without_checksum { IfOk result
            (λ f. IsPlaces (IsWithoutChecksum (checked_packages lockfile.now))
            (length lockfile.now.packages) f.checksums.without_checksum.items) }
        ensures unchecked { IfOk result
            (λ f. IsPlaces (IsUnchecked (checked_packages lockfile.now))
            (length lockfile.now.packages) f.checksums.unchecked.items) }
        ensures stale { IfOk result (λ f. f.checksums.stale.items
            ≡ stale_keys lockfile.now.metadata lockfile.now.packages) }
        ensures lossy { IfOk result (λ f.
            AreLossy lockfile.now.version text.now (map string_bytes f.lossy.items)) }
        ensures lost_dependencies { IfOk result (λ f. IsAskedUnless (map string_bytes f.lossy.items)
            (AreLost lockfile.now.packages f.asked.lost_dependencies.items)
            (f.asked.lost_dependencies.items ≡ [])) }
        ensures orphans { IfOk result (λ f. IsAskedUnless (map string_bytes f.lossy.items)
            (AreOrphans lockfile.now f.asked.orphans.items) (f.asked.orphans.items ≡ [])) }
        ensures is_kept { IfOk result (λ f. IsAskedUnless (map string_bytes f.lossy.items)
            (IsTrue f.asked.is_kept ↔ Survives lockfile.now lockfile.now.version)
            (f.asked.is_kept ≡ true)) }
        ensures other_line { IfOk result (λ f. IsAskedUnless (map string_bytes f.lossy.items)
            (IsOtherLine text.now lockfile.now f.asked.other_line) (f.asked.other_line ≡ None)) }
        ensures err { IsOkUnless result Memory }
    {
        let checksums = ChecksumFindings::of(alloc, lockfile, checked)?;
        let lossy = lossy_sources(alloc, text, lockfile)?;
        let asked = AskedFindings::unless(alloc, text, lockfile, checked, &lossy)?;
        Ok(TextFindings {
            checksums,
            lossy,
            asked,
        })
    }
}

// The sources whose tag, branch or revision the lockfile's format loses.
fn lossy_sources(alloc: Global, text: &str, lockfile: &Lockfile) -> Result<Vec<String>>
    ensures ok { IfOk result (λ found.
        AreLossy lockfile.now.version text.now (map string_bytes found.items)) }
    ensures err { IsOkUnless result Memory }
{
    match lockfile.version {
        ResolveVersion::V1 | ResolveVersion::V2 | ResolveVersion::V3 => {
            Lockfile::lossy_sources(alloc, text)
        }
        ResolveVersion::V4 => Ok(Vec::new(alloc)),
    }
}

/// The findings that are only looked for if no source is lossy.
#[derive(Drop)]
pub(crate) struct AskedFindings {
    pub(crate) lost_dependencies: Vec<(usize, usize)>,
    pub(crate) orphans: Vec<usize>,
    pub(crate) is_kept: bool,
    pub(crate) other_line: Option<OtherLine>,
}

impl AskedFindings {
    // Those of a text and its lockfile, or none if there are lossy sources.
    fn unless(
        alloc: Global,
        text: &str,
        lockfile: &Lockfile,
        checked: &Lockfile,
        lossy: &[String],
    ) -> Result<AskedFindings>
        requires { checked.now ≡ with_cargo_checksums_in lockfile.now }
        ensures lost_dependencies { IfOk result (λ f. IsAskedUnless (map string_bytes lossy.now)
            (AreLost lockfile.now.packages f.lost_dependencies.items)
            (f.lost_dependencies.items ≡ [])) }
        ensures orphans { IfOk result (λ f. IsAskedUnless (map string_bytes lossy.now)
            (AreOrphans lockfile.now f.orphans.items) (f.orphans.items ≡ [])) }
        ensures is_kept { IfOk result (λ f. IsAskedUnless (map string_bytes lossy.now)
            (IsTrue f.is_kept ↔ Survives lockfile.now lockfile.now.version) (f.is_kept ≡ true)) }
        ensures other_line { IfOk result (λ f. IsAskedUnless (map string_bytes lossy.now)
            (IsOtherLine text.now lockfile.now f.other_line) (f.other_line ≡ None)) }
        ensures err { IsOkUnless result Memory }
    {
        if lossy.is_empty() {
            AskedFindings::of(alloc, text, lockfile, checked)
        } else {
            Ok(AskedFindings {
                lost_dependencies: Vec::new(alloc),
                orphans: Vec::new(alloc),
                is_kept: true,
                other_line: None,
            })
        }
    }

    // Those of a text and its lockfile.
    fn of(
        alloc: Global,
        text: &str,
        lockfile: &Lockfile,
        checked: &Lockfile,
    ) -> Result<AskedFindings>
        requires { checked.now ≡ with_cargo_checksums_in lockfile.now }
        ensures lost_dependencies { IfOk result
            (λ f. AreLost lockfile.now.packages f.lost_dependencies.items) }
        ensures orphans { IfOk result (λ f. AreOrphans lockfile.now f.orphans.items) }
        ensures is_kept { IfOk result (λ f. IsTrue f.is_kept
            ↔ Survives lockfile.now lockfile.now.version) }
        ensures other_line { IfOk result
            (λ f. IsOtherLine text.now lockfile.now f.other_line) }
        ensures err { IsOkUnless result Memory }
    {
        let is_kept = lockfile.survives(alloc, lockfile.version)?;
        let other_line = other_line(alloc, text, lockfile, checked, is_kept)?;
        let Unmatched {
            lost_dependencies,
            orphans,
        } = unmatched_in(alloc, lockfile)?;
        Ok(AskedFindings {
            lost_dependencies,
            orphans,
            is_kept,
            other_line,
        })
    }
}

// The dependencies without a package, and the packages that the workspace does not lead to.
fn unmatched_in(alloc: Global, lockfile: &Lockfile) -> std::result::Result<Unmatched, AllocError>
    ensures lost { IfOk result (λ found.
        AreLost lockfile.now.packages found.lost_dependencies.items) }
    ensures orphans { IfOk result (λ found. AreOrphans lockfile.now found.orphans.items) }
{
    Unmatched::of(alloc, &lockfile.packages, &lockfile.root)
}
