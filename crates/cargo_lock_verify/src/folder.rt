//! Folders of packages, as `cargo vendor` leaves them, and what is found of them, each as a line.

ghost use Rattle.std.specs.Prelude.{Some, string_bytes};
ghost use Rattle.std.specs.Fmt.{DisplaysOnOk};
ghost use Rattle.cargo_lock_parts.specs.Checksum.{digest_of};
ghost use Rattle.cargo_lock_verify.specs.VendoredLines.{entry_line, other_archive_line};
ghost use Rattle.cargo_lock_verify.specs.VendoredLines.{other_file_line};

use crate::entry::{Entry, Flaw};
use cargo_lock_display::{ChecksumText, PackageText};
use cargo_lock_parts::package::{Checksum, Package};
use printing::{Quoted, Shown};
use std::collections::BTreeMap;
use std::fmt;

/// A folder of a package: what its list `.cargo-checksum.json` says, and what is there.
#[derive(Drop)]
pub struct Folder {
    /// Its path.
    pub path: String,

    /// The SHA-256 of the archive of the package, as the list has it, if it has one.
    pub archive: Option<Checksum>,

    /// The files of the list, by their paths in the folder, each with its SHA-256.
    pub listed: BTreeMap<String, Checksum>,

    /// The files that are there besides the list, each with the SHA-256 of its bytes.
    pub files: BTreeMap<String, Checksum>,

    /// The links that are there.
    pub links: Vec<String>,
}

/// A package, and the folders whose manifest has its name and version.
#[derive(Drop)]
pub struct Vendored<'a> {
    /// The package.
    pub package: &'a Package,

    /// The folders. Which are of its name and version is for the caller to say.
    pub folders: Vec<Folder>,
}

/// What is wrong with a package and its folders, or with an entry of the folder that they are in.
#[derive(Drop)]
pub enum FolderFinding<'p, 'a> {
    /// The package has a source and no folder: `- NAME VERSION SRC: no folder`.
    NoFolder(&'p Package),

    /// The list has another SHA-256 of the archive than the lockfile, where `none` is a value too:
    /// ``! NAME VERSION SRC: `FOLDER` has the archive DIGEST, not CHECKSUM``.
    OtherArchive(&'p Package, &'a Folder),

    /// A file of the list is not there: ``- NAME VERSION SRC: `FOLDER/FILE` is missing``.
    Absent(&'p Package, &'a Folder, &'a String),

    /// A file has another SHA-256 than the list says:
    /// ``! NAME VERSION SRC: `FOLDER/FILE` is DIGEST, not DIGEST``.
    OtherFile(&'p Package, &'a Folder, FileDigests<'a>),

    /// A file is not in the list: ``+ NAME VERSION SRC: `FOLDER/FILE` is not in the list``.
    Unlisted(&'p Package, &'a Folder, &'a String),

    /// A link is there: ``! NAME VERSION SRC: `FOLDER/FILE` is a link``.
    Link(&'p Package, &'a Folder, &'a String),

    /// The package is of a registry, and the lockfile has no checksum of it:
    /// `! NAME VERSION SRC: no checksum in the lockfile`.
    NoChecksum(&'p Package),

    /// Something is wrong with an entry of the folder of all folders: ``! `ENTRY`: a link``,
    /// ``! `ENTRY`: its manifest is a link``, ``! `ENTRY`: no name and version``, or
    /// ``+ `ENTRY`: of no package``.
    OfEntry(&'a Entry, Flaw),
}

/// A file of a list, with its SHA-256, and that of the list.
#[derive(Clone, Copy)]
pub struct FileDigests<'a> {
    /// The path of the file in its folder.
    pub path: &'a String,

    /// The SHA-256 of the bytes of the file.
    pub digest: &'a Checksum,

    /// That of the list.
    pub listed: &'a Checksum,
}

impl fmt::Display for FolderFinding<'_, '_> {
    ghost use Rattle.std.specs.Prelude.{Some};
    ghost use Rattle.cargo_lock_verify.specs.Vendored.{folder_finding_of};
    ghost use Rattle.cargo_lock_verify.specs.VendoredLines.{folder_finding_line};

    ghost output = { λ finding. Some (folder_finding_line (folder_finding_of finding)) };

    fn fmt<W: fmt::Write>(&self, f: &mut fmt::Formatter<W>) -> fmt::Result {
        match *self {
            FolderFinding::NoFolder(package) => {
                let package = PackageText(package);
                write!(f, "- {package}: no folder")
            }
            FolderFinding::OtherArchive(package, folder) => write_other_archive(package, folder, f),
            FolderFinding::Absent(package, folder, path) => {
                let file = FileText(package, folder, path);
                write!(f, "- {file} is missing")
            }
            FolderFinding::OtherFile(package, folder, file) => {
                write_other_file(package, folder, &file, f)
            }
            FolderFinding::Unlisted(package, folder, path) => {
                let file = FileText(package, folder, path);
                write!(f, "+ {file} is not in the list")
            }
            FolderFinding::Link(package, folder, path) => {
                let file = FileText(package, folder, path);
                write!(f, "! {file} is a link")
            }
            FolderFinding::NoChecksum(package) => {
                let package = PackageText(package);
                write!(f, "! {package}: no checksum in the lockfile")
            }
            FolderFinding::OfEntry(entry, flaw) => write_entry(entry, flaw, f),
        }
    }
}

fn write_entry<W: fmt::Write>(entry: &Entry, flaw: Flaw, f: &mut fmt::Formatter<W>) -> fmt::Result
    ensures { DisplaysOnOk W.write_str_gives f.old result
        (Some (entry_line (string_bytes entry.now.path) flaw)) f.new }
{
    let path = Quoted(&entry.path);
    match flaw {
        Flaw::Link => write!(f, "! `{path}`: a link"),
        Flaw::LinkedManifest => write!(f, "! `{path}`: its manifest is a link"),
        Flaw::Nameless => write!(f, "! `{path}`: no name and version"),
        Flaw::OfNoPackage => write!(f, "+ `{path}`: of no package"),
    }
}

fn write_other_archive<W: fmt::Write>(
    package: &Package,
    folder: &Folder,
    f: &mut fmt::Formatter<W>,
) -> fmt::Result
    ensures { DisplaysOnOk W.write_str_gives f.old result
        (Some (other_archive_line «package».now folder.now)) f.new }
{
    let path = Quoted(&folder.path);
    let archive = DigestText(&folder.archive);
    let checksum = ChecksumText(package);
    let package = PackageText(package);
    write!(
        f,
        "! {package}: `{path}` has the archive {archive}, not {checksum}"
    )
}

fn write_other_file<W: fmt::Write>(
    package: &Package,
    folder: &Folder,
    file: &FileDigests<'_>,
    f: &mut fmt::Formatter<W>,
) -> fmt::Result
    ensures { DisplaysOnOk W.write_str_gives f.old result
        (Some (other_file_line «package».now folder.now (string_bytes file.now.path.now)
        (digest_of file.now.digest.now) (digest_of file.now.listed.now))) f.new }
{
    let digest = Shown(file.digest);
    let listed = Shown(file.listed);
    let file = FileText(package, folder, file.path);
    write!(f, "! {file} is {digest}, not {listed}")
}

// A package, and the path of a file in its folder.
#[derive(Clone, Copy)]
struct FileText<'p, 'f, 'a>(&'p Package, &'f Folder, &'a String);

impl fmt::Display for FileText<'_, '_, '_> {
    ghost use Rattle.std.specs.Prelude.{Some, string_bytes};
    ghost use Rattle.cargo_lock_verify.specs.VendoredLines.{file_text};

    ghost output = { λ shown.
        Some (file_text shown.0.now shown.1.now (string_bytes shown.2.now)) };

    fn fmt<W: fmt::Write>(&self, f: &mut fmt::Formatter<W>) -> fmt::Result {
        let FileText(package, folder, path) = *self;
        let package = PackageText(package);
        let folder = Quoted(&folder.path);
        let path = Quoted(path);
        write!(f, "{package}: `{folder}/{path}`")
    }
}

// A digest, or `none`.
#[derive(Clone, Copy)]
struct DigestText<'a>(&'a Option<Checksum>);

impl fmt::Display for DigestText<'_> {
    ghost use Rattle.std.specs.Prelude.{Some, option_map};
    ghost use Rattle.cargo_lock_parts.specs.Checksum.{digest_of};
    ghost use Rattle.cargo_lock_display.specs.Line.{checksum_text};

    ghost output = { λ shown. Some (checksum_text (option_map digest_of shown.0.now)) };

    fn fmt<W: fmt::Write>(&self, f: &mut fmt::Formatter<W>) -> fmt::Result {
        let DigestText(digest) = *self;
        match digest {
            Some(digest) => {
                let digest = Shown(digest);
                write!(f, "{digest}")
            }
            None => f.write_str("none"),
        }
    }
}
