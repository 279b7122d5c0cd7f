//! How alike two packages are.

ghost use Rattle.std.specs.Prelude.{◌≡◌};
ghost use Rattle.std.specs.Option.{option_cmp};
ghost use Rattle.std.specs.Ordering.{nat_cmp};
ghost use Rattle.std.specs.Cmp.Lexicographic.{slice_cmp};
ghost use Rattle.semver.specs.Identifiers.{parts_of};
ghost use Rattle.cargo_lock_parts.specs.SourceKey.{text_cmp};
ghost use Rattle.cargo_lock_diff.specs.Likeness.{likeness_cmp};
ghost use Rattle.cargo_lock_diff.specs.Likeness as spec;

use crate::place::{cmp_origins, cmp_places, cmp_replacements};
use cargo_lock_parts::package::{Checksum, Package, Version};
use std::cmp::Ordering;

/// What two packages have in common.
///
/// The *place* of a package is where its source is: nowhere without a source, crates.io for either
/// of its two indexes, and otherwise the source with its commit. The *origin* is the place without
/// the commit. The *release line* is the first number of the version that is not zero, and the
/// numbers before it: `1` for 1.2.3, `0.4` for 0.4.20, and `0.0.3` for 0.0.3.
#[derive(Debug, Clone, Copy, PartialEq, Eq)]
pub enum Likeness {
    /// The name.
    Name,

    /// The name and the origin.
    Origin,

    /// The name and the version.
    Version,

    /// The name, the origin and the release line.
    Line,

    /// The name, the version and the place.
    Place,

    /// The name, the version and the checksum.
    Archive,

    /// The name, the version, the place, the checksum and the replacement.
    Whole,
}

impl Likeness {
    /// The order of two packages by what they are to have in common: they tie if they have it. An
    /// absent source, checksum or replacement is before a present one.
    pub fn compare(self, one: &Package, other: &Package) -> Ordering
        ensures { result ≡ likeness_cmp self one.now other.now }
    {
        match self {
            Likeness::Name => one.name.cmp(&other.name),
            Likeness::Origin => by_origin(one, other),
            Likeness::Version => by_version(one, other),
            Likeness::Line => by_line(one, other),
            Likeness::Place => by_place(one, other),
            Likeness::Archive => by_version(one, other).then(cmp_checksums(one, other)),
            Likeness::Whole => by_all(one, other),
        }
    }
}

// The order by name and origin.
fn by_origin(one: &Package, other: &Package) -> Ordering
    ensures { result ≡ likeness_cmp Likeness.Origin one.now other.now }
{
    one.name
        .cmp(&other.name)
        .then(cmp_origins(&one.source, &other.source))
}

// The order by name and version.
fn by_version(one: &Package, other: &Package) -> Ordering
    ensures { result ≡ likeness_cmp Likeness.Version one.now other.now }
{
    one.name
        .cmp(&other.name)
        .then(one.version.cmp(&other.version))
}

// The order by name, origin and release line.
fn by_line(one: &Package, other: &Package) -> Ordering
    ensures { result ≡ likeness_cmp Likeness.Line one.now other.now }
{
    by_origin(one, other).then(cmp_lines(one, other))
}

// The order by name, version and place.
fn by_place(one: &Package, other: &Package) -> Ordering
    ensures { result ≡ likeness_cmp Likeness.Place one.now other.now }
{
    by_version(one, other).then(cmp_places(&one.source, &other.source))
}

// The order by name, version, place, checksum and replacement.
fn by_all(one: &Package, other: &Package) -> Ordering
    ensures { result ≡ likeness_cmp Likeness.Whole one.now other.now }
{
    by_place(one, other)
        .then(cmp_checksums(one, other))
        .then(cmp_replacements(&one.replace, &other.replace))
}

/// The order of the release lines.
pub(crate) fn cmp_lines(one: &Package, other: &Package) -> Ordering
    ensures { result ≡ slice_cmp nat_cmp (spec.release_line one.now.version)
        (spec.release_line other.now.version) }
{
    release_line(&one.version).cmp(&release_line(&other.version))
}

// The release line of a version, with zero for each number after it.
fn release_line(version: &Version) -> [u64; 3]
    ensures { result ≡ spec.release_line (parts_of version.now) }
{
    if version.major != 0 {
        [version.major, 0, 0]
    } else if version.minor != 0 {
        [0, version.minor, 0]
    } else {
        [0, 0, version.patch]
    }
}

// The order of the checksums, an absent one before a present one.
pub(crate) fn cmp_checksums(one: &Package, other: &Package) -> Ordering
    ensures { result ≡ option_cmp text_cmp one.now.checksum other.now.checksum }
{
    digest(one).cmp(&digest(other))
}

fn digest(one: &Package) -> Option<[u8; 32]>
    ensures { result ≡ one.now.checksum }
{
    one.checksum.as_ref().and_then(Checksum::as_sha256)
}
