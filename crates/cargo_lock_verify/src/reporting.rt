//! What is found of archives and of folders, as findings of reports.

ghost use Rattle.std.specs.Prelude.{◌≡◌, ◌++◌, ◌∷◌, [], IfOk, map};
ghost use Rattle.cargo_lock_report.specs.Reported.{spot_of};
ghost use Rattle.cargo_lock_verify.specs.Archives.{archive_finding_of};
ghost use Rattle.cargo_lock_verify.specs.Reporting as spec;
ghost use Rattle.cargo_lock_verify.specs.Reporting.{archive_finding_reported, reported_archive};
ghost use Rattle.cargo_lock_verify.specs.Vendored.{folder_finding_of};

use crate::finding::Finding;
use crate::folder::FolderFinding;
use crate::report::Report;
use crate::vendor_report::VendorReport;
use crate::{archives_document, folders_document};
use cargo_lock_location::{Lined, PackageLines};
use cargo_lock_report::{Level, Reported, Rule, Spot, ToReport, reports};
use std::alloc::{AllocError, Global};

// ---- archives

/// The findings of a report on the lockfile at a path, as findings of reports, in their order. That a
/// package has no archive counts only if the report is of all packages, or no archive matches, and
/// each other finding counts. Each is at the line of its package, by these lines. Fails when out of
/// memory.
///
/// ```
/// let reported = reported_archives(alloc, "Cargo.lock", report, lines)?;
/// ```
pub fn reported_archives(
    alloc: Global,
    path: &str,
    report: &Report<'_, '_>,
    lines: &PackageLines<'_>,
) -> Result<Vec<Reported>, AllocError>
    ensures { IfOk result (λ reported. reported.items
        ≡ spec.reported_archives report.now.is_of_all report.now.counts path.now lines.now
        (map archive_finding_of report.now.findings.items)) }
{
    let missing = missing_counts(report);
    let findings = report.findings.as_slice();
    let mut reported = Vec::with_capacity(alloc, findings.len())?;
    for finding in findings {
        reported.push(archive_at_line(alloc, path, finding, missing, lines)?)?;
    }
    Ok(reported)
}

// A finding of archives in the lockfile at a path, at the line of its package.
fn archive_at_line(
    alloc: Global,
    path: &str,
    finding: &Finding<'_, '_>,
    missing: bool,
    lines: &PackageLines<'_>,
) -> Result<Reported, AllocError>
    ensures { IfOk result (λ reported. reported
        ≡ reported_archive missing path.now lines.now (archive_finding_of finding.now)) }
{
    let line = finding.line(lines);
    reported_archive(alloc, finding, missing, Spot { path, line })
}

// Whether a package without an archive counts: all packages are asked for, or no archive matches.
fn missing_counts(report: &Report<'_, '_>) -> bool
    ensures { result ≡ spec.missing_counts report.now.is_of_all report.now.counts }
{
    report.is_of_all || report.counts.matches == 0
}

// A finding of archives at a spot, where a package without an archive counts or does not.
#[tactic(auto, unfolding(crate::specs::Reporting::archive_finding_reported))]
fn reported_archive(
    alloc: Global,
    finding: &Finding<'_, '_>,
    missing: bool,
    spot: Spot<'_>,
) -> Result<Reported, AllocError>
    ensures { IfOk result (λ reported. reported ≡ archive_finding_reported missing
        (spot_of spot.entry) (archive_finding_of finding.now)) }
{
    let rule = Rule::of_kind(alloc, archives_document::kind(finding))?;
    let level = Level::of(counts_if(finding, missing));
    let message = format!(in alloc; "{finding}")?;
    let package = archives_document::package(finding);
    Reported::new(alloc, rule, level, message, Some(package), spot)
}

// Whether a finding of archives counts, where a package without an archive does or does not.
fn counts_if(finding: &Finding<'_, '_>, missing: bool) -> bool
    ensures { result ≡ spec.counts_if missing (archive_finding_of finding.now) }
{
    match finding {
        Finding::Missing(_) => missing,
        Finding::Changed(_, _) | Finding::NoChecksum(_) => true,
    }
}

// ---- folders

/// The same of a report on folders. Each finding counts. Fails when out of memory.
///
/// ```
/// let reported = reported_folders(alloc, "Cargo.lock", report, lines)?;
/// ```
pub fn reported_folders(
    alloc: Global,
    path: &str,
    report: &VendorReport<'_, '_>,
    lines: &PackageLines<'_>,
) -> Result<Vec<Reported>, AllocError>
    ensures { IfOk result (λ reported. reported.items ≡ spec.reported_folders path.now lines.now
        (map folder_finding_of report.now.findings.items)) }
{
    reports(alloc, path, &report.findings, lines)
}

impl ToReport for FolderFinding<'_, '_> {
    ghost use Rattle.std.specs.Prelude.{Some};
    ghost use Rattle.cargo_lock_verify.specs.Reporting.{folder_finding_reported};
    ghost use Rattle.cargo_lock_verify.specs.Vendored.{folder_finding_of};

    ghost reported_at = { λ spot finding.
        Some (folder_finding_reported spot (folder_finding_of finding)) };

    #[tactic(auto, unfolding(crate::specs::Reporting::folder_finding_reported))]
    fn report(&self, alloc: Global, spot: Spot<'_>) -> Result<Option<Reported>, AllocError> {
        let rule = Rule::of_kind(alloc, folders_document::kind(self))?;
        let message = format!(in alloc; "{self}")?;
        let package = folders_document::package(self);
        let reported = Reported::new(alloc, rule, Level::Error, message, package, spot)?;
        Ok(Some(reported))
    }
}
