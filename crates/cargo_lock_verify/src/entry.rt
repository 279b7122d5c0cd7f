//! The entries of a folder that `cargo vendor` made, and which of them Cargo may read though no
//! package of the lockfile has them.

ghost use Rattle.std.specs.Prelude.{◌≡◌, ◌++◌, IfOk, OnOk, map};
ghost use Rattle.std.specs.List.{list_any};
ghost use Rattle.semver.specs.Identifiers.{parts_of};
ghost use Rattle.cargo_lock_verify.specs.Entries as spec;
ghost use Rattle.cargo_lock_verify.specs.Entries.{content_of, entry_found, vendored_entry};
ghost use Rattle.cargo_lock_verify.specs.Vendored.{folder_finding_of, vendored_of};

use crate::folder::{FolderFinding, Vendored};
use cargo_lock_parts::package::{Name, Version};
use cargo_lock_references::package_version::same_version;
use std::alloc::{AllocError, Global};

/// An entry of a folder that `cargo vendor` made.
#[derive(Drop)]
pub struct Entry {
    /// Its path.
    pub path: String,

    /// What is there.
    pub content: Content,
}

/// What an entry of such a folder is.
#[derive(Drop)]
pub enum Content {
    /// Cargo passes it over: its name begins with a dot, it is a file, or a folder without an entry
    /// `Cargo.toml`.
    PassedOver,

    /// A link.
    Link,

    /// A folder whose manifest is a link.
    LinkedManifest,

    /// A folder whose manifest has no `package.name` and `package.version`, or no version as SemVer
    /// has it. Cargo may find both elsewhere: in a table `project`, or in a manifest of a workspace.
    Nameless,

    /// A folder whose manifest has this name and this version.
    Folder(Name, Version),
}

/// What is wrong with an entry.
#[derive(Debug, Clone, Copy, PartialEq, Eq)]
pub enum Flaw {
    /// It is a link.
    Link,

    /// It is a folder whose manifest is a link.
    LinkedManifest,

    /// It is a folder whose manifest has no name and version.
    Nameless,

    /// It is a folder of no package with a source.
    OfNoPackage,
}

/// What is said of the folders of other packages than those of the lockfile.
#[derive(Debug, Clone, Copy, PartialEq, Eq)]
pub enum Others {
    /// Each is a finding.
    Reported,

    /// They are passed over, as in a folder that several projects share.
    PassedOver,
}

/// What is wrong with the entries of a folder that `cargo vendor` made, in their order, for these
/// packages: each that Cargo may read though it is no folder of a package with a source. Fails when
/// out of memory.
///
/// ```
/// let found = entry_findings(alloc, &vendored, &entries, Others::Reported)?;
/// ```
pub fn entry_findings<'p, 'a>(
    alloc: Global,
    vendored: &[Vendored<'_>],
    entries: &'a [Entry],
    others: Others,
) -> Result<Vec<FolderFinding<'p, 'a>>, AllocError>
    ensures { IfOk result (λ found. map folder_finding_of found.items
        ≡ spec.entry_findings others (map vendored_of vendored.now) (map vendored_entry entries.now)) }
{
    let mut found = Vec::new(alloc);
    put_entries(&mut found, vendored, entries, others)?;
    Ok(found)
}

/// Adds what is wrong with the entries.
pub(crate) fn put_entries<'p, 'a>(
    found: &mut Vec<FolderFinding<'p, 'a>>,
    vendored: &[Vendored<'_>],
    entries: &'a [Entry],
    others: Others,
) -> Result<(), AllocError>
    ensures { OnOk result (map folder_finding_of found.new.items
        ≡ map folder_finding_of found.old.items
        ++ spec.entry_findings others (map vendored_of vendored.now) (map vendored_entry entries.now)) }
{
    for entry in entries {
        put_entry(found, vendored, entry, others)?;
    }
    Ok(())
}

// Adds what is wrong with an entry.
fn put_entry<'p, 'a>(
    found: &mut Vec<FolderFinding<'p, 'a>>,
    vendored: &[Vendored<'_>],
    entry: &'a Entry,
    others: Others,
) -> Result<(), AllocError>
    ensures { OnOk result (map folder_finding_of found.new.items
        ≡ map folder_finding_of found.old.items
        ++ entry_found others (map vendored_of vendored.now) (vendored_entry entry.now)) }
{
    match flaw_of(vendored, &entry.content, others) {
        Some(flaw) => {
            found.push(FolderFinding::OfEntry(entry, flaw))?;
            Ok(())
        }
        None => Ok(()),
    }
}

// What is wrong with such an entry, if anything is.
fn flaw_of(vendored: &[Vendored<'_>], content: &Content, others: Others) -> Option<Flaw>
    ensures { result ≡ spec.flaw_of others (map vendored_of vendored.now) (content_of content.now) }
{
    match content {
        Content::PassedOver => None,
        Content::Link => Some(Flaw::Link),
        Content::LinkedManifest => Some(Flaw::LinkedManifest),
        Content::Nameless => Some(Flaw::Nameless),
        Content::Folder(name, version) => flaw_of_folder(vendored, name, version, others),
    }
}

// What is wrong with a folder of this name and version.
fn flaw_of_folder(
    vendored: &[Vendored<'_>],
    name: &Name,
    version: &Version,
    others: Others,
) -> Option<Flaw>
    ensures { result ≡ spec.flaw_of_folder others (map vendored_of vendored.now)
        name.now (parts_of version.now) }
{
    if has_folder_of(vendored, name, version) {
        return None;
    }
    match others {
        Others::Reported => Some(Flaw::OfNoPackage),
        Others::PassedOver => None,
    }
}

// Whether a package with a source has this name and version.
fn has_folder_of(vendored: &[Vendored<'_>], name: &Name, version: &Version) -> bool
    ensures { result ≡ spec.has_folder_of (map vendored_of vendored.now)
        name.now (parts_of version.now) }
{
    is_among(vendored, name, version)
}

// The same, as a test of each package.
fn is_among(vendored: &[Vendored<'_>], name: &Name, version: &Version) -> bool
    ensures { result ≡ list_any
        (λ v. spec.is_folder_of name.now (parts_of version.now) (vendored_of v)) vendored.now }
{
    vendored.iter().any(|one| is_folder_of(one, name, version))
}

// Whether the package has a source, and this name and version.
fn is_folder_of(vendored: &Vendored<'_>, name: &Name, version: &Version) -> bool
    ensures { result
        ≡ spec.is_folder_of name.now (parts_of version.now) (vendored_of vendored.now) }
{
    let package = vendored.package;
    package.source.is_some()
        && (package.name.as_str() == name.as_str() && same_version(&package.version, version))
}
