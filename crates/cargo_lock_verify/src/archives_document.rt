//! What is found of archives, as a document of JSON.

ghost use Rattle.std.specs.Prelude.{◌≡◌, IfOk, map, option_map, string_bytes};
ghost use Rattle.json.specs.Json.{array};
ghost use Rattle.json.specs.Token.{key};
ghost use Rattle.json.specs.Tree.{json_tokens};
ghost use Rattle.cargo_lock_parts.specs.Checksum.{digest_of};
ghost use Rattle.cargo_lock_verify.specs.Archives.{archive_finding_of};
ghost use Rattle.cargo_lock_verify.specs.ArchivesDocument.{archive_finding_digest};
ghost use Rattle.cargo_lock_verify.specs.ArchivesDocument.{archive_finding_expected};
ghost use Rattle.cargo_lock_verify.specs.ArchivesDocument.{archive_finding_json};
ghost use Rattle.cargo_lock_verify.specs.ArchivesDocument.{archive_finding_kind};
ghost use Rattle.cargo_lock_verify.specs.ArchivesDocument.{archive_finding_package};
ghost use Rattle.cargo_lock_verify.specs.ArchivesDocument.{archive_finding_path};
ghost use Rattle.cargo_lock_verify.specs.ArchivesDocument as spec;
ghost use Rattle.printing.specs.Json.{Adds, IsJsonText, items_of};

use crate::document::{Compared, compared_document};
use crate::finding::Finding;
use crate::report::Report;
use cargo_lock_display::{File, put_digest_or_null, put_package_or_null};
use cargo_lock_location::{Lined, PackageLines, locate, put_line};
use cargo_lock_parts::package::{Checksum, Package};
use printing::{JsonWriter, write_text_or_null};
use std::alloc::{AllocError, Global};

/// The document of what is found of archives, in one line:
/// `{"schema":"cargo-lock-verify/2","path":"Cargo.lock","format":4,"matches":2,"changed":0,..}`.
/// Each finding is at the line of its package, by these lines. Fails when out of memory.
///
/// ```
/// let text = archives_json(rt.alloc(), file, report, lines)?;
/// ```
pub fn archives_json(
    alloc: Global,
    file: &File<'_>,
    report: &Report<'_, '_>,
    lines: &PackageLines<'_>,
) -> Result<String, AllocError>
    ensures { IfOk result (λ text. IsJsonText
        (spec.archives_json file.now lines.now report.now.counts report.now.others
        (map archive_finding_of report.now.findings.items)) (string_bytes text)) }
{
    let findings = locate(alloc, &report.findings, lines)?;
    compared_document(
        alloc,
        file,
        Compared::Archives(report.others),
        report.counts,
        &findings,
    )
}

impl Lined for Finding<'_, '_> {
    ghost use Rattle.cargo_lock_verify.specs.Archives.{archive_finding_of};
    ghost use Rattle.cargo_lock_verify.specs.ArchivesDocument.{archive_finding_json, archive_finding_line_in};

    ghost line_in = { λ lines finding. archive_finding_line_in lines (archive_finding_of finding) };

    ghost json_at = { λ line finding. archive_finding_json line (archive_finding_of finding) };

    fn line(&self, lines: &PackageLines<'_>) -> Option<usize> {
        lines.of(package(self))
    }

    fn write_json_at(&self, line: Option<usize>, out: &mut JsonWriter) -> Result<(), AllocError> {
        out.begin_object()?;
        out.string_member("kind", kind(self))?;
        out.displayed_member("message", self)?;
        put_line(out, line)?;
        put_package_or_null(out, "package", Some(package(self)))?;
        write_text_or_null(out, "path", path(self))?;
        put_digest_or_null(out, "digest", &digest(self))?;
        put_digest_or_null(out, "expected", &expected(self))?;
        out.end_object()
    }
}

// The kind of a finding, as the document has it.
pub(crate) fn kind(finding: &Finding<'_, '_>) -> &'static str
    ensures { result.now ≡ archive_finding_kind (archive_finding_of finding.now) }
{
    match finding {
        Finding::Changed(_, _) => "changed",
        Finding::Missing(_) => "missing",
        Finding::NoChecksum(_) => "no-checksum",
    }
}

// The package of the finding.
pub(crate) fn package<'p>(finding: &Finding<'p, '_>) -> &'p Package
    ensures { result.now ≡ archive_finding_package (archive_finding_of finding.now) }
{
    match *finding {
        Finding::Changed(package, _) | Finding::Missing(package) | Finding::NoChecksum(package) =>
            package,
    }
}

// The path of the archive.
fn path<'a>(finding: &Finding<'_, 'a>) -> Option<&'a str>
    ensures { option_map (λ t. t.now) result
        ≡ archive_finding_path (archive_finding_of finding.now) }
{
    match *finding {
        Finding::Changed(_, archive) => Some(archive.path.as_str()),
        Finding::Missing(_) | Finding::NoChecksum(_) => None,
    }
}

// The digest of the archive.
fn digest(finding: &Finding<'_, '_>) -> Option<Checksum>
    ensures { option_map digest_of result
        ≡ archive_finding_digest (archive_finding_of finding.now) }
{
    match *finding {
        Finding::Changed(_, archive) => Some(archive.digest),
        Finding::Missing(_) | Finding::NoChecksum(_) => None,
    }
}

// The digest that was expected: that of the lockfile.
fn expected(finding: &Finding<'_, '_>) -> Option<Checksum>
    ensures { option_map digest_of result
        ≡ archive_finding_expected (archive_finding_of finding.now) }
{
    match *finding {
        Finding::Changed(package, _) | Finding::Missing(package) => package.checksum,
        Finding::NoChecksum(_) => None,
    }
}
