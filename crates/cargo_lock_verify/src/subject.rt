//! What is wrong with the archives of packages.

ghost use Rattle.std.specs.Prelude.{◌≡◌, ◌++◌, [], ◌∷◌, IfOk, OnOk, filter, map};
ghost use Rattle.std.specs.List.{list_any};
ghost use Rattle.cargo_lock_parts.specs.Checksum.{digest_of};
ghost use Rattle.cargo_lock_verify.specs.Archives.{Changed, archive_class, archive_finding_of};
ghost use Rattle.cargo_lock_verify.specs.Archives.{archive_findings, archive_of};
ghost use Rattle.cargo_lock_verify.specs.Archives.{archive_subject_of, cache_of};
ghost use Rattle.cargo_lock_verify.specs.Archives.{class_of_unchecked, class_with_checksum};
ghost use Rattle.cargo_lock_verify.specs.Archives.{found_if, found_in, found_of_unchecked};
ghost use Rattle.cargo_lock_verify.specs.Archives.{found_unless, is_changed, is_digest};

use crate::class::Class;
use crate::finding::{Archive, Finding};
use crate::judge::Judge;
use cargo_lock_parts::package::{Checksum, Package, is_of_registry};
use std::alloc::{AllocError, Global};

/// A package, and the archives of its name and version.
#[derive(Drop)]
pub struct Subject<'a> {
    /// The package.
    pub package: &'a Package,

    /// The archives. Which are of its name and version is for the caller to say.
    pub archives: Vec<Archive>,
}

/// The packages of a lockfile, each with its archives.
#[derive(Clone, Copy)]
pub struct Cache<'p, 'a> {
    /// The packages.
    pub subjects: &'a [Subject<'p>],

    /// The hosts of mirrors, such as `mirror.example`: archives in their index folders may be of any
    /// package.
    pub mirrors: &'a [&'a str],
}

/// What is wrong with the archives, in the order of the packages: each archive of a package with a
/// checksum that is changed; each such package without an archive that has its checksum, or one that
/// is changed; and each package of a registry without a checksum.
///
/// An archive is changed if no package of that name and version has its digest, and it lies where Cargo
/// has those of the package: in the folder of archives itself, or in an index folder of the host of its
/// registry or of a mirror.
///
/// # Errors
///
/// Fails when out of memory.
///
/// ```
/// let found = findings(alloc, &cache)?;
/// ```
pub fn findings<'p, 'a>(
    alloc: Global,
    cache: &Cache<'p, 'a>,
) -> Result<Vec<Finding<'p, 'a>>, AllocError>
    ensures { IfOk result (λ found. map archive_finding_of found.items
        ≡ archive_findings (cache_of cache.now)) }
{
    let mut found = Vec::new(alloc);
    for subject in cache.subjects {
        put_findings(alloc, &mut found, cache, subject)?;
    }
    Ok(found)
}

// Adds what is wrong with the archives of a package.
fn put_findings<'p, 'a>(
    alloc: Global,
    found: &mut Vec<Finding<'p, 'a>>,
    cache: &Cache<'p, 'a>,
    subject: &'a Subject<'p>,
) -> Result<(), AllocError>
    ensures { OnOk result (map archive_finding_of found.new.items
        ≡ map archive_finding_of found.old.items
        ++ found_in (cache_of cache.now) (archive_subject_of subject.now)) }
{
    let package = subject.package;
    match &package.checksum {
        Some(checksum) => {
            let judge = Judge::of(alloc, cache, package)?;
            put_compared(found, &judge, &subject.archives, checksum)
        }
        None => put_unchecked(found, package),
    }
}

// Adds that a package without a checksum has none, if it is of a registry.
fn put_unchecked<'p, 'a>(
    found: &mut Vec<Finding<'p, 'a>>,
    package: &'p Package,
) -> Result<(), AllocError>
    ensures { OnOk result (map archive_finding_of found.new.items
        ≡ map archive_finding_of found.old.items ++ found_of_unchecked «package».now) }
{
    if is_of_registry(&package.source) {
        found.push(Finding::NoChecksum(package))?;
    }
    Ok(())
}

// Adds what is wrong with the archives of a package that has this checksum.
fn put_compared<'p, 'a>(
    found: &mut Vec<Finding<'p, 'a>>,
    judge: &Judge<'p, 'a>,
    archives: &'a [Archive],
    checksum: &Checksum,
) -> Result<(), AllocError>
    ensures { OnOk result (map archive_finding_of found.new.items
        ≡ map archive_finding_of found.old.items ++ found_if judge.now.cache judge.now.content
        (map archive_of archives.now) (digest_of checksum.now)) }
{
    if judge.has_changed(archives) {
        put_changed(found, judge, archives)
    } else {
        put_unless(found, judge.package(), has_checksum(archives, checksum))
    }
}

// Adds each changed archive of a package.
fn put_changed<'p, 'a>(
    found: &mut Vec<Finding<'p, 'a>>,
    judge: &Judge<'p, 'a>,
    archives: &'a [Archive],
) -> Result<(), AllocError>
    ensures { OnOk result (map archive_finding_of found.new.items
        ≡ map archive_finding_of found.old.items ++ map (Changed judge.now.content)
        (filter (is_changed judge.now.cache judge.now.content) (map archive_of archives.now))) }
{
    for archive in archives {
        put_if_changed(found, judge, archive)?;
    }
    Ok(())
}

// Adds an archive of a package, if it is changed.
fn put_if_changed<'p, 'a>(
    found: &mut Vec<Finding<'p, 'a>>,
    judge: &Judge<'p, 'a>,
    archive: &'a Archive,
) -> Result<(), AllocError>
    ensures { OnOk result (map archive_finding_of found.new.items
        ≡ map archive_finding_of found.old.items ++ map (Changed judge.now.content)
        (filter (is_changed judge.now.cache judge.now.content) (archive_of archive.now ∷ []))) }
{
    if judge.is_changed(archive) {
        found.push(Finding::Changed(judge.package(), archive))?;
    }
    Ok(())
}

// Adds that a package has no archive of its own, unless it has one.
fn put_unless<'p, 'a>(
    found: &mut Vec<Finding<'p, 'a>>,
    package: &'p Package,
    has_one: bool,
) -> Result<(), AllocError>
    ensures { OnOk result (map archive_finding_of found.new.items
        ≡ map archive_finding_of found.old.items ++ found_unless «package».now has_one) }
{
    if !has_one {
        found.push(Finding::Missing(package))?;
    }
    Ok(())
}

/// Whether one of the archives has the checksum.
pub(crate) fn has_checksum(archives: &[Archive], checksum: &Checksum) -> bool
    ensures { result ≡ list_any (is_digest (digest_of checksum.now)) (map archive_of archives.now) }
{
    is_among(archives, checksum)
}

// The same, as a test of each archive.
fn is_among(archives: &[Archive], checksum: &Checksum) -> bool
    ensures { result ≡ list_any (λ a. is_digest (digest_of checksum.now) (archive_of a))
        archives.now }
{
    archives.iter().any(|archive| archive.digest == *checksum)
}

/// The class of a subject. Fails when out of memory.
pub(crate) fn class_of<'p, 'a>(
    alloc: Global,
    cache: &Cache<'p, 'a>,
    subject: &'a Subject<'p>,
) -> Result<Class, AllocError>
    ensures { IfOk result
        (λ class. class ≡ archive_class (cache_of cache.now) (archive_subject_of subject.now)) }
{
    let package = subject.package;
    match &package.checksum {
        Some(checksum) => {
            let judge = Judge::of(alloc, cache, package)?;
            Ok(class_with(&judge, &subject.archives, checksum))
        }
        None => Ok(class_without(package)),
    }
}

// The class of a package with this checksum.
fn class_with(judge: &Judge<'_, '_>, archives: &[Archive], checksum: &Checksum) -> Class
    ensures { result ≡ class_with_checksum judge.now.cache judge.now.content
        (map archive_of archives.now) (digest_of checksum.now) }
{
    if judge.has_changed(archives) {
        Class::Changed
    } else if has_checksum(archives, checksum) {
        Class::Matches
    } else {
        Class::Missing
    }
}

// The class of a package without a checksum.
fn class_without(package: &Package) -> Class
    ensures { result ≡ class_of_unchecked «package».now }
{
    if is_of_registry(&package.source) {
        Class::NoChecksum
    } else {
        Class::NotCompared
    }
}
