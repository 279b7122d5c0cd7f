//! What is wrong with the folders of packages, as `cargo vendor` leaves them.

ghost use Rattle.std.specs.Prelude.{◌≡◌, ◌++◌, IfOk, OnOk, map, option_map};
ghost use Rattle.std.specs.Bool.{Decides};
ghost use Rattle.cargo_lock_parts.specs.Checksum.{digest_of};
ghost use Rattle.cargo_lock_verify.specs.Vendored.{archive_found, checksum_found, each_found};
ghost use Rattle.cargo_lock_verify.specs.Vendored.{file_found, is_unchecked};
ghost use Rattle.cargo_lock_verify.specs.Vendored.{files_found, folder_finding_of, folder_findings};
ghost use Rattle.cargo_lock_verify.specs.Vendored.{folder_found, folders_found, is_same_archive};
ghost use Rattle.cargo_lock_verify.specs.Vendored.{links_found, listed_found, listed_of, of_file};
ghost use Rattle.cargo_lock_verify.specs.Vendored.{of_listed, vendored_found, vendored_of};

use crate::folder::{FileDigests, Folder, FolderFinding, Vendored};
use cargo_lock_parts::package::{Checksum, Package, is_of_registry};
use std::alloc::{AllocError, Global};

/// What is wrong with the folders of packages, in the order of the packages and of their folders: a
/// package of a registry without a checksum; a package with a source that has no folder; a folder
/// whose list has another SHA-256 of the archive than the lockfile; a file of a list that is missing
/// or has another SHA-256; a file that is in no list; and a link. Packages without a source have no
/// folder. Fails when out of memory.
///
/// That a folder is as its list says does not show that its files are those of the archive.
///
/// ```
/// let found = vendored_findings(alloc, &vendored)?;
/// ```
pub fn vendored_findings<'p, 'a>(
    alloc: Global,
    vendored: &'a [Vendored<'p>],
) -> Result<Vec<FolderFinding<'p, 'a>>, AllocError>
    ensures { IfOk result (λ found. map folder_finding_of found.items
        ≡ folder_findings (map vendored_of vendored.now)) }
{
    let mut found = Vec::new(alloc);
    for one in vendored {
        put_vendored(&mut found, one)?;
    }
    Ok(found)
}

// Adds what is wrong with a package and its folders.
fn put_vendored<'p, 'a>(
    found: &mut Vec<FolderFinding<'p, 'a>>,
    vendored: &'a Vendored<'p>,
) -> Result<(), AllocError>
    ensures { OnOk result (map folder_finding_of found.new.items
        ≡ map folder_finding_of found.old.items ++ vendored_found (vendored_of vendored.now)) }
{
    let package = vendored.package;
    match &package.source {
        Some(_) => {
            put_checksum(found, package)?;
            put_all_folders(found, package, &vendored.folders)
        }
        None => Ok(()),
    }
}

// Adds that a package of a registry has no checksum in the lockfile.
fn put_checksum<'p, 'a>(
    found: &mut Vec<FolderFinding<'p, 'a>>,
    package: &'p Package,
) -> Result<(), AllocError>
    ensures { OnOk result (map folder_finding_of found.new.items
        ≡ map folder_finding_of found.old.items ++ checksum_found «package».now) }
{
    if is_without_checksum(package) {
        found.push(FolderFinding::NoChecksum(package))?;
    }
    Ok(())
}

/// Whether the package is of a registry, and the lockfile has no checksum of it.
pub(crate) fn is_without_checksum(package: &Package) -> bool
    ensures { result ≡ is_unchecked «package».now }
{
    is_of_registry(&package.source) && package.checksum.is_none()
}

/// Adds what is wrong with the folders of a package with a source.
pub(crate) fn put_all_folders<'p, 'a>(
    found: &mut Vec<FolderFinding<'p, 'a>>,
    package: &'p Package,
    folders: &'a [Folder],
) -> Result<(), AllocError>
    ensures { OnOk result (map folder_finding_of found.new.items
        ≡ map folder_finding_of found.old.items ++ folders_found «package».now folders.now) }
{
    if folders.is_empty() {
        found.push(FolderFinding::NoFolder(package))?;
        return Ok(());
    }
    put_folders(found, package, folders)
}

// Adds what is wrong with each folder.
fn put_folders<'p, 'a>(
    found: &mut Vec<FolderFinding<'p, 'a>>,
    package: &'p Package,
    folders: &'a [Folder],
) -> Result<(), AllocError>
    ensures { OnOk result (map folder_finding_of found.new.items
        ≡ map folder_finding_of found.old.items ++ each_found «package».now folders.now) }
{
    for folder in folders {
        put_folder(found, package, folder)?;
    }
    Ok(())
}

// Adds what is wrong with a folder.
fn put_folder<'p, 'a>(
    found: &mut Vec<FolderFinding<'p, 'a>>,
    package: &'p Package,
    folder: &'a Folder,
) -> Result<(), AllocError>
    ensures { OnOk result (map folder_finding_of found.new.items
        ≡ map folder_finding_of found.old.items ++ folder_found «package».now folder.now) }
{
    put_archive(found, package, folder)?;
    put_listed(found, package, folder)?;
    put_files(found, package, folder)?;
    put_links(found, package, folder)
}

// Adds that the list has another digest of the archive than the lockfile.
fn put_archive<'p, 'a>(
    found: &mut Vec<FolderFinding<'p, 'a>>,
    package: &'p Package,
    folder: &'a Folder,
) -> Result<(), AllocError>
    ensures { OnOk result (map folder_finding_of found.new.items
        ≡ map folder_finding_of found.old.items ++ archive_found «package».now folder.now) }
{
    if !has_archive(package, folder) {
        found.push(FolderFinding::OtherArchive(package, folder))?;
    }
    Ok(())
}

// Whether the list has the digest of the archive that the lockfile has.
fn has_archive(package: &Package, folder: &Folder) -> bool
    ensures { result ≡ is_same_archive «package».now folder.now }
{
    folder.archive == package.checksum
}

// Adds each file of the list that is missing or has another digest.
fn put_listed<'p, 'a>(
    found: &mut Vec<FolderFinding<'p, 'a>>,
    package: &'p Package,
    folder: &'a Folder,
) -> Result<(), AllocError>
    ensures { OnOk result (map folder_finding_of found.new.items
        ≡ map folder_finding_of found.old.items ++ listed_found «package».now folder.now) }
{
    for (path, digest) in &folder.listed {
        put_listed_file(found, package, folder, path, digest)?;
    }
    Ok(())
}

// Adds a file of the list if it is missing or has another digest.
fn put_listed_file<'p, 'a>(
    found: &mut Vec<FolderFinding<'p, 'a>>,
    package: &'p Package,
    folder: &'a Folder,
    path: &'a String,
    listed: &'a Checksum,
) -> Result<(), AllocError>
    ensures { OnOk result (map folder_finding_of found.new.items
        ≡ map folder_finding_of found.old.items
        ++ of_listed «package».now folder.now (listed_of path.now listed.now)) }
{
    match folder.files.get(path.as_str()) {
        None => {
            found.push(FolderFinding::Absent(package, folder, path))?;
            Ok(())
        }
        Some(digest) => put_other(
            found,
            package,
            folder,
            FileDigests {
                path,
                digest,
                listed,
            },
        ),
    }
}

// Adds a file if it has another digest than the list says.
fn put_other<'p, 'a>(
    found: &mut Vec<FolderFinding<'p, 'a>>,
    package: &'p Package,
    folder: &'a Folder,
    file: FileDigests<'a>,
) -> Result<(), AllocError>
    ensures { OnOk result (map folder_finding_of found.new.items
        ≡ map folder_finding_of found.old.items ++ file_found «package».now folder.now file.entry) }
{
    if *file.digest != *file.listed {
        found.push(FolderFinding::OtherFile(package, folder, file))?;
    }
    Ok(())
}

// Adds each file that is not in the list.
fn put_files<'p, 'a>(
    found: &mut Vec<FolderFinding<'p, 'a>>,
    package: &'p Package,
    folder: &'a Folder,
) -> Result<(), AllocError>
    ensures { OnOk result (map folder_finding_of found.new.items
        ≡ map folder_finding_of found.old.items ++ files_found «package».now folder.now) }
{
    for (path, digest) in &folder.files {
        put_file(found, package, folder, path, digest)?;
    }
    Ok(())
}

// Adds a file, with this digest, if it is not in the list.
fn put_file<'p, 'a>(
    found: &mut Vec<FolderFinding<'p, 'a>>,
    package: &'p Package,
    folder: &'a Folder,
    path: &'a String,
    digest: &Checksum,
) -> Result<(), AllocError>
    ensures { OnOk result (map folder_finding_of found.new.items
        ≡ map folder_finding_of found.old.items
        ++ of_file «package».now folder.now (listed_of path.now digest.now)) }
{
    let _ = digest;
    if folder.listed.get(path.as_str()).is_none() {
        found.push(FolderFinding::Unlisted(package, folder, path))?;
    }
    Ok(())
}

// Adds each link.
fn put_links<'p, 'a>(
    found: &mut Vec<FolderFinding<'p, 'a>>,
    package: &'p Package,
    folder: &'a Folder,
) -> Result<(), AllocError>
    ensures { OnOk result (map folder_finding_of found.new.items
        ≡ map folder_finding_of found.old.items ++ links_found «package».now folder.now) }
{
    for path in &folder.links {
        found.push(FolderFinding::Link(package, folder, path))?;
    }
    Ok(())
}
