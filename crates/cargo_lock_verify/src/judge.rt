//! By what the archives of a package are judged: its checksum and those of its namesakes, and the
//! folders in which its archives lie.

ghost use Rattle.std.specs.Prelude.{◌≡◌, IfOk, map};
ghost use Rattle.std.specs.List.{list_any};
ghost use Rattle.cargo_lock_parts.specs.Checksum.{digest_of};
ghost use Rattle.std.specs.Prelude.{option_map};
ghost use Rattle.cargo_lock_verify.specs.Archives as spec;
ghost use Rattle.cargo_lock_verify.specs.Archives.{archive_of, archive_subject_of, cache_of};

use crate::finding::Archive;
use crate::hosts::Hosts;
use crate::subject::{Cache, Subject};
use cargo_lock_parts::package::{Checksum, Package};
use cargo_lock_references::package_version::same_version;
use std::alloc::{AllocError, Global};
use std::marker::Model;

/// A package, and what its archives are judged by.
#[derive(Drop)]
pub(crate) struct Judge<'p, 'a> {
    cache: Cache<'p, 'a>,
    package: &'p Package,

    // The hosts of its source.
    hosts: Hosts<'p>,
}

impl<'p, 'a> Model for Judge<'p, 'a> {
    ghost use Rattle.std.specs.Prelude.{◌≡◌};
    ghost use Rattle.cargo_lock_verify.specs.Archives.{JudgeData, cache_of};
    ghost use Rattle.cargo_lock_verify.specs.Hosts.{hosts_data, hosts_of};

    ghost Value = { JudgeData };

    ghost view = { λ j. record { cache = cache_of j.cache; content = j.«package».now } };

    ghost invariant = { λ j. hosts_data j.hosts ≡ hosts_of j.«package».now.source };
}

impl<'p, 'a> Judge<'p, 'a> {
    /// The judge of the archives of a package. Fails when out of memory.
    pub(crate) fn of(
        alloc: Global,
        cache: &Cache<'p, 'a>,
        package: &'p Package,
    ) -> Result<Judge<'p, 'a>, AllocError>
        ensures { IfOk result (λ judge.
            judge ≡ record { cache = cache_of cache.now; content = «package».now }) }
    {
        let hosts = Hosts::of(alloc, package)?;
        let cache = *cache;
        Ok(Judge {
            cache,
            package,
            hosts,
        })
    }

    /// The package.
    pub(crate) fn package(&self) -> &'p Package
        ensures { result.now ≡ self.now.content }
    {
        self.package
    }

    /// Whether one of these archives is changed.
    pub(crate) fn has_changed(&self, archives: &[Archive]) -> bool
        ensures { result ≡ list_any (spec.is_changed self.now.cache self.now.content)
            (map archive_of archives.now) }
    {
        self.is_one_changed(archives)
    }

    // The same, as a test of each archive.
    fn is_one_changed(&self, archives: &[Archive]) -> bool
        ensures { result ≡ list_any
            (λ a. spec.is_changed self.now.cache self.now.content (archive_of a)) archives.now }
    {
        archives.iter().any(|archive| self.is_changed(archive))
    }

    /// Whether the archive lies where those of the package do, and no package of that name and version
    /// has its digest.
    pub(crate) fn is_changed(&self, archive: &Archive) -> bool
        ensures { result
            ≡ spec.is_changed self.now.cache self.now.content (archive_of archive.now) }
    {
        self.is_in_its_place(archive) && !self.is_expected(archive)
    }

    /// Whether the archive lies where those of other registries do, and no package of that name and
    /// version has its digest.
    pub(crate) fn is_of_another(&self, archive: &Archive) -> bool
        ensures { result
            ≡ spec.is_of_another self.now.cache self.now.content (archive_of archive.now) }
    {
        !self.is_in_its_place(archive) && !self.is_expected(archive)
    }

    // Whether the archive lies where those of the package do.
    fn is_in_its_place(&self, archive: &Archive) -> bool
        ensures { result
            ≡ spec.is_in_its_place self.now.cache self.now.content (archive_of archive.now) }
    {
        self.hosts.reach(self.cache.mirrors, &archive.host)
    }

    // Whether a package of that name and version has the digest of the archive.
    fn is_expected(&self, archive: &Archive) -> bool
        ensures { result
            ≡ spec.is_expected self.now.cache self.now.content (archive_of archive.now) }
    {
        let package = self.package;
        has_digest_if(&package.checksum, archive)
            || is_of_namesake(self.cache.subjects, package, archive)
    }
}

// Whether the archive has this checksum.
fn has_digest_if(checksum: &Option<Checksum>, archive: &Archive) -> bool
    ensures { result ≡ spec.has_digest_if (option_map digest_of checksum.now) (archive_of archive.now) }
{
    match checksum {
        Some(checksum) => archive.digest == *checksum,
        None => false,
    }
}

// Whether the archive has the checksum of one of these packages, which has this one's name and version.
fn is_of_namesake(subjects: &[Subject<'_>], package: &Package, archive: &Archive) -> bool
    ensures { result ≡ list_any
        (λ s. spec.is_archive_of «package».now (archive_of archive.now) s.content)
        (map archive_subject_of subjects.now) }
{
    is_one(subjects, package, archive)
}

// The same, as a test of each package.
fn is_one(subjects: &[Subject<'_>], package: &Package, archive: &Archive) -> bool
    ensures { result ≡ list_any (λ s. spec.is_archive_of «package».now (archive_of archive.now)
        s.«package».now) subjects.now }
{
    subjects
        .iter()
        .any(|subject| is_archive_of(package, archive, subject.package))
}

// Whether the second package has the name and the version of the first, and the archive its checksum.
fn is_archive_of(package: &Package, archive: &Archive, other: &Package) -> bool
    ensures { result ≡ spec.is_archive_of «package».now (archive_of archive.now) other.now }
{
    other.name.as_str() == package.name.as_str()
        && same_version(&other.version, &package.version)
        && has_digest_if(&other.checksum, archive)
}
