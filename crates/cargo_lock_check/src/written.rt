//! Whether a text is as Cargo writes its lockfile.

ghost use Rattle.std.specs.Prelude.{◌≡◌, None, IfOk, IsOkUnless, IsTrue, MatchOption, ◌↔◌};
ghost use Rattle.std.specs.Bool.{Decides};
ghost use Rattle.std.specs.List.{All};
ghost use Rattle.std.specs.Str.Lines.{lines};
ghost use Rattle.cargo_lock_parts.specs.declared.error.Error.TheVariants.{Memory};
ghost use Rattle.cargo_lock_references.specs.declared.version.ResolveVersion.TheVariants.{V1, V2};
ghost use Rattle.cargo_lock_encoding.specs.Survives.{Survives, in_format};
ghost use Rattle.cargo_lock.specs.CargoChecksums.{with_cargo_checksums_in};
ghost use Rattle.cargo_lock_check.specs.Findings.{CanBeV1, IsOtherLine, IsWrittenInV1, printed_lines};
ghost use Rattle.cargo_lock_check.specs.Text.{AreSameLines, IsFirstOther};
ghost use Rattle.cargo_lock_layout.specs.Lines.{cargo_lines};

use crate::text::{OtherLine, first_other_line};
use cargo_lock::Lockfile;
use cargo_lock_parts::error::Result;
use cargo_lock_parts::package::Package;
use cargo_lock_references::ResolveVersion;
use std::alloc::Global;

/// The first line of a text that is not as Cargo writes it, where `checked` is the lockfile with
/// the checksums that Cargo reads.
pub(crate) fn other_line(
    alloc: Global,
    text: &str,
    lockfile: &Lockfile,
    checked: &Lockfile,
    is_kept: bool,
) -> Result<Option<OtherLine>>
    requires checked { checked.now ≡ with_cargo_checksums_in lockfile.now }
    requires kept { IsTrue is_kept ↔ Survives lockfile.now lockfile.now.version }
    ensures ok { IfOk result (IsOtherLine text.now lockfile.now) }
    ensures err { IsOkUnless result Memory }
{
    if lockfile.root.is_some() || !is_kept {
        return Ok(None);
    }
    if is_written_in_v1(alloc, text, lockfile)? {
        return Ok(None);
    }
    let other = other_than_printed(alloc, text, checked)?;
    Ok(other)
}

// Whether the lockfile can be of V1, and the text is as Cargo writes it in V1.
fn is_written_in_v1(alloc: Global, text: &str, lockfile: &Lockfile) -> Result<bool>
    ensures ok { IfOk result (λ written. Decides written (IsWrittenInV1 text.now lockfile.now)) }
    ensures err { IsOkUnless result Memory }
{
    if !can_be_v1(lockfile) {
        return Ok(false);
    }
    let first = in_v1(alloc, lockfile)?;
    let other = other_than_printed(alloc, text, &first)?;
    Ok(other.is_none())
}

// Whether the format is V2 and no package has a checksum, by which V1 would differ from it.
fn can_be_v1(lockfile: &Lockfile) -> bool
    ensures { Decides result (CanBeV1 lockfile.now) }
{
    is_v2(lockfile.version) && are_bare(&lockfile.packages)
}

fn is_v2(version: ResolveVersion) -> bool
    ensures { Decides result (version ≡ V2) }
{
    match version {
        ResolveVersion::V2 => true,
        ResolveVersion::V1 | ResolveVersion::V3 | ResolveVersion::V4 => false,
    }
}

// Whether no package has a checksum.
fn are_bare(packages: &[Package]) -> bool
    ensures { Decides result (All (λ p. p.checksum ≡ None) packages.now) }
{
    packages.iter().all(|one| one.checksum.is_none())
}

// The lockfile in V1, with the checksums that Cargo reads.
fn in_v1(alloc: Global, lockfile: &Lockfile) -> Result<Lockfile>
    ensures ok { IfOk result (λ l. l ≡ with_cargo_checksums_in (in_format V1 lockfile.now)) }
    ensures err { IsOkUnless result Memory }
{
    let mut first = lockfile.clone()?;
    first.version = ResolveVersion::V1;
    first.with_cargo_checksums(alloc)
}

// The first line of a text that is not as Cargo writes a lockfile.
fn other_than_printed(alloc: Global, text: &str, lockfile: &Lockfile) -> Result<Option<OtherLine>>
    ensures ok { IfOk result (λ other. MatchOption other
        (AreSameLines (lines text.now) (cargo_lines (lines text.now) (printed_lines lockfile.now)))
        (IsFirstOther (lines text.now)
        (cargo_lines (lines text.now) (printed_lines lockfile.now)))) }
    ensures err { IsOkUnless result Memory }
{
    let printed = lockfile.to_string(alloc)?;
    let other = first_other_line(alloc, text, printed.as_str())?;
    Ok(other)
}
