//! What is found of folders, as a document of JSON.

ghost use Rattle.std.specs.Prelude.{◌≡◌, ◌∷◌, [], IfOk, codes, map, option_map, string_bytes};
ghost use Rattle.json.specs.Json.{array};
ghost use Rattle.json.specs.Token.{key, string};
ghost use Rattle.json.specs.Tree.{json_tokens};
ghost use Rattle.cargo_lock_parts.specs.Checksum.{digest_of};
ghost use Rattle.cargo_lock_verify.specs.Vendored.{folder_finding_of};
ghost use Rattle.cargo_lock_verify.specs.Vendored as vendored;
ghost use Rattle.cargo_lock_verify.specs.FoldersDocument.{file_path, folder_finding_digest};
ghost use Rattle.cargo_lock_verify.specs.FoldersDocument.{folder_finding_expected};
ghost use Rattle.cargo_lock_verify.specs.FoldersDocument.{folder_finding_json, folder_finding_kind};
ghost use Rattle.cargo_lock_verify.specs.FoldersDocument.{folder_finding_package};
ghost use Rattle.cargo_lock_verify.specs.FoldersDocument.{folder_finding_path};
ghost use Rattle.cargo_lock_verify.specs.FoldersDocument as spec;
ghost use Rattle.printing.specs.Value.{text_or_null};
ghost use Rattle.printing.specs.Json.{Adds, IsJsonText, items_of};

use crate::document::{Compared, compared_document};
use crate::entry::Flaw;
use crate::folder::{Folder, FolderFinding};
use crate::vendor_report::VendorReport;
use cargo_lock_display::{File, put_digest_or_null, put_package_or_null};
use cargo_lock_location::{Lined, PackageLines, locate, put_line};
use cargo_lock_parts::package::{Checksum, Package};
use printing::JsonWriter;
use std::alloc::{AllocError, Global};
use std::collections::BTreeMap;

/// The document of what is found of folders, in one line, as `archives_json` returns it of
/// archives. Fails when out of memory.
///
/// ```
/// let text = folders_json(rt.alloc(), file, report, lines)?;
/// ```
pub fn folders_json(
    alloc: Global,
    file: &File<'_>,
    report: &VendorReport<'_, '_>,
    lines: &PackageLines<'_>,
) -> Result<String, AllocError>
    ensures { IfOk result (λ text. IsJsonText
        (spec.folders_json file.now lines.now report.now.counts
        (map folder_finding_of report.now.findings.items)) (string_bytes text)) }
{
    let findings = locate(alloc, &report.findings, lines)?;
    compared_document(alloc, file, Compared::Folders, report.counts, &findings)
}

impl Lined for FolderFinding<'_, '_> {
    ghost use Rattle.cargo_lock_verify.specs.Vendored.{folder_finding_of};
    ghost use Rattle.cargo_lock_verify.specs.FoldersDocument.{folder_finding_json, folder_finding_line_in};

    ghost line_in = { λ lines finding. folder_finding_line_in lines (folder_finding_of finding) };

    ghost json_at = { λ line finding. folder_finding_json line (folder_finding_of finding) };

    fn line(&self, lines: &PackageLines<'_>) -> Option<usize> {
        match package(self) {
            Some(package) => lines.of(package),
            None => None,
        }
    }

    fn write_json_at(&self, line: Option<usize>, out: &mut JsonWriter) -> Result<(), AllocError> {
        out.begin_object()?;
        out.string_member("kind", kind(self))?;
        out.displayed_member("message", self)?;
        put_line(out, line)?;
        put_package_or_null(out, "package", package(self))?;
        put_path(out, self)?;
        put_digest_or_null(out, "digest", &digest(self))?;
        put_digest_or_null(out, "expected", &expected(self))?;
        out.end_object()
    }
}

// The kind of a finding, as the document has it.
pub(crate) fn kind(finding: &FolderFinding<'_, '_>) -> &'static str
    ensures { result.now ≡ folder_finding_kind (folder_finding_of finding.now) }
{
    match finding {
        FolderFinding::NoFolder(_) => "no-folder",
        FolderFinding::OtherArchive(_, _) => "other-archive",
        FolderFinding::Absent(_, _, _) => "missing-file",
        FolderFinding::OtherFile(_, _, _) => "changed-file",
        FolderFinding::Unlisted(_, _, _) => "unlisted-file",
        FolderFinding::Link(_, _, _) => "link",
        FolderFinding::NoChecksum(_) => "no-checksum",
        FolderFinding::OfEntry(_, flaw) => flaw_kind(*flaw),
    }
}

// The kind of the finding of an entry.
fn flaw_kind(flaw: Flaw) -> &'static str
    ensures { result.now ≡ spec.flaw_kind flaw }
{
    match flaw {
        Flaw::Link => "linked-entry",
        Flaw::LinkedManifest => "linked-manifest",
        Flaw::Nameless => "nameless-entry",
        Flaw::OfNoPackage => "other-package",
    }
}

// The package of the finding, which an entry has not.
pub(crate) fn package<'p>(finding: &FolderFinding<'p, '_>) -> Option<&'p Package>
    ensures { option_map (λ p. p.now) result
        ≡ folder_finding_package (folder_finding_of finding.now) }
{
    match *finding {
        FolderFinding::NoFolder(package)
        | FolderFinding::OtherArchive(package, _)
        | FolderFinding::Absent(package, _, _)
        | FolderFinding::OtherFile(package, _, _)
        | FolderFinding::Unlisted(package, _, _)
        | FolderFinding::Link(package, _, _)
        | FolderFinding::NoChecksum(package) => Some(package),
        FolderFinding::OfEntry(_, _) => None,
    }
}

// Writes the member with the path of the folder, of the file or the link in it, or of the entry.
fn put_path(out: &mut JsonWriter, finding: &FolderFinding<'_, '_>) -> Result<(), AllocError>
    ensures { Adds result out.old out.new (key (codes "path")
        ∷ json_tokens (text_or_null (folder_finding_path (folder_finding_of finding.now)))) }
{
    match *finding {
        FolderFinding::NoFolder(_) | FolderFinding::NoChecksum(_) => out.null_member("path"),
        FolderFinding::OfEntry(entry, _) => out.string_member("path", entry.path.as_str()),
        FolderFinding::OtherArchive(_, folder) => out.string_member("path", folder.path.as_str()),
        FolderFinding::OtherFile(_, folder, file) => put_file_path(out, folder, file.path),
        FolderFinding::Absent(_, folder, path)
        | FolderFinding::Unlisted(_, folder, path)
        | FolderFinding::Link(_, folder, path) => put_file_path(out, folder, path),
    }
}

// Writes the member with the path of a file in a folder.
fn put_file_path(out: &mut JsonWriter, folder: &Folder, path: &str) -> Result<(), AllocError>
    ensures { Adds result out.old out.new (key (codes "path")
        ∷ string (file_path folder.now path.now) ∷ []) }
{
    let folder = folder.path.as_str();
    out.displayed_member("path", &format_args!("{folder}/{path}"))
}

// The digest that was found.
fn digest(finding: &FolderFinding<'_, '_>) -> Option<Checksum>
    ensures { option_map digest_of result ≡ folder_finding_digest (folder_finding_of finding.now) }
{
    match *finding {
        FolderFinding::OtherArchive(_, folder) => folder.archive,
        FolderFinding::OtherFile(_, _, file) => Some(*file.digest),
        FolderFinding::Unlisted(_, folder, path) => digest_at(&folder.files, path),
        _ => None,
    }
}

// The digest that was expected.
fn expected(finding: &FolderFinding<'_, '_>) -> Option<Checksum>
    ensures { option_map digest_of result
        ≡ folder_finding_expected (folder_finding_of finding.now) }
{
    match *finding {
        FolderFinding::NoFolder(package) | FolderFinding::OtherArchive(package, _) => {
            package.checksum
        }
        FolderFinding::Absent(_, folder, path) => digest_at(&folder.listed, path),
        FolderFinding::OtherFile(_, _, file) => Some(*file.listed),
        _ => None,
    }
}

// The digest of the file at a path.
fn digest_at(files: &BTreeMap<String, Checksum>, path: &str) -> Option<Checksum>
    ensures { option_map digest_of result ≡ vendored.digest_at files.now path.now }
{
    files.get(path).copied()
}
