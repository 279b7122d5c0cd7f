//! How many bytes the versions have that references match, before any of them resolves.

ghost use Rattle.std.specs.Prelude.{◌≡◌, ◌↔◌, ◌+◌, ◌<◌, IfOk, IsTrue};
ghost use Rattle.cargo_lock_limit.specs.Lengths.{capped};
ghost use Rattle.cargo_lock_limit.specs.Matched.{matched_by_all, matched_by_each, matched_length};

use crate::versions::with_version;
use cargo_lock_references::index::Indexed;
use cargo_lock_references::{EncodableDependency, EncodablePackage};
use std::alloc::{AllocError, Global};

/// Whether the versions of the packages that the references of packages match have more bytes
/// together than a limit. Fails when out of memory.
pub(crate) fn match_beyond(
    alloc: Global,
    packages: &[EncodablePackage],
    limit: u32,
) -> Result<bool, AllocError>
    ensures { IfOk result (λ found.
        IsTrue found ↔ (limit < matched_by_all packages.now packages.now)) }
{
    let list = Indexed::of(alloc, packages)?;
    Ok((limit as usize) < with_all(0, &list, packages))
}

// A number with the bytes of what the references of packages match in a list, at most the greatest
// number.
fn with_all(
    number: usize,
    list: &Indexed<'_, EncodablePackage>,
    packages: &[EncodablePackage],
) -> usize
    ensures { result ≡ capped (number + matched_by_all list.now packages.now) }
{
    let mut total = number;
    for package in packages {
        total = with_each(total, list, package.dependencies.as_slice());
    }
    total
}

// The same of references.
fn with_each(
    number: usize,
    list: &Indexed<'_, EncodablePackage>,
    references: &[EncodableDependency],
) -> usize
    ensures { result ≡ capped (number + matched_by_each list.now references.now) }
{
    let mut total = number;
    for reference in references {
        total = with_matched(total, list, reference);
    }
    total
}

// The same of one reference.
fn with_matched(
    number: usize,
    list: &Indexed<'_, EncodablePackage>,
    reference: &EncodableDependency,
) -> usize
    ensures { result ≡ capped (number + matched_length list.now reference.now) }
{
    match list.first_fit(&reference.by_ref()) {
        Some(package) => with_version(number, &package.version),
        None => number,
    }
}
