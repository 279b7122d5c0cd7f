//! What the packages of a pair have in common, part by part.

ghost use Rattle.std.specs.Prelude.{◌≡◌};
ghost use Rattle.cargo_lock_diff.specs.Same as spec;

use crate::likeness::{cmp_checksums, cmp_lines};
use crate::place::{cmp_origins, cmp_places, cmp_replacements};
use cargo_lock_parts::package::Package;
use std::cmp::Ordering;

// Whether the versions are the same.
pub(crate) fn have_one_version(old: &Package, new: &Package) -> bool
    ensures { result ≡ spec.have_one_version old.now new.now }
{
    old.version.cmp(&new.version) == Ordering::Equal
}

// Whether the release lines are the same.
pub(crate) fn have_one_line(old: &Package, new: &Package) -> bool
    ensures { result ≡ spec.have_one_line old.now new.now }
{
    cmp_lines(old, new) == Ordering::Equal
}

// Whether the sources are the same place, or both are absent.
pub(crate) fn have_one_place(old: &Package, new: &Package) -> bool
    ensures { result ≡ spec.have_one_place old.now new.now }
{
    cmp_places(&old.source, &new.source) == Ordering::Equal
}

// Whether the sources are one origin, or both are absent.
pub(crate) fn have_one_origin(old: &Package, new: &Package) -> bool
    ensures { result ≡ spec.have_one_origin old.now new.now }
{
    cmp_origins(&old.source, &new.source) == Ordering::Equal
}

// Whether the checksums are the same, or both are absent.
pub(crate) fn have_one_checksum(old: &Package, new: &Package) -> bool
    ensures { result ≡ spec.have_one_checksum old.now new.now }
{
    cmp_checksums(old, new) == Ordering::Equal
}

// Whether the replacements are the same, or both are absent.
pub(crate) fn have_one_replacement(old: &Package, new: &Package) -> bool
    ensures { result ≡ spec.have_one_replacement old.now new.now }
{
    cmp_replacements(&old.replace, &new.replace) == Ordering::Equal
}
