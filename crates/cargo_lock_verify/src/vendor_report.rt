//! What a comparison of folders with their lists and with a lockfile reports.

ghost use Rattle.std.specs.Prelude.{◌≡◌, IfOk, map};
ghost use Rattle.cargo_lock_verify.specs.Entries.{vendored_entry};
ghost use Rattle.cargo_lock_verify.specs.Vendored.{class_of_sourced, folder_class, folder_counts};
ghost use Rattle.cargo_lock_verify.specs.Vendored.{folder_finding_of, is_as_listed, vendored_of};
ghost use Rattle.cargo_lock_verify.specs.VendorReport.{vendor_findings};

use crate::class::{Class, Counts};
use crate::entry::{Entry, Others, put_entries};
use crate::folder::{FolderFinding, Vendored};
use crate::summary::FolderSummary;
use crate::vendored::{is_without_checksum, put_all_folders, vendored_findings};
use std::alloc::{AllocError, Global};
use std::fmt;

/// What a comparison of folders with their lists and with a lockfile reports. `Display` writes a
/// line for each finding, and at last how many packages are in each class, as `39 folders match; 2 do
/// not; 1 package has no folder; 2 packages of a registry have no checksum; 3 packages have no
/// source`, where numbers of zero but the first are left out. Each line has its newline.
#[derive(Drop)]
pub struct VendorReport<'p, 'a> {
    /// The findings: those of packages, and behind them those of entries.
    pub findings: Vec<FolderFinding<'p, 'a>>,

    /// How many packages are in each class.
    pub counts: Counts,
}

impl<'p, 'a> VendorReport<'p, 'a> {
    /// What is reported of these packages and their folders, and of the entries of the folder that
    /// they are in. Fails when out of memory.
    ///
    /// ```
    /// let report = VendorReport::of(alloc, &vendored, &entries, Others::Reported)?;
    /// ```
    pub fn of(
        alloc: Global,
        vendored: &'a [Vendored<'p>],
        entries: &'a [Entry],
        others: Others,
    ) -> Result<VendorReport<'p, 'a>, AllocError>
        ensures findings { IfOk result (λ report. map folder_finding_of report.findings.items
            ≡ vendor_findings others (map vendored_of vendored.now) (map vendored_entry entries.now)) }
        ensures counts { IfOk result (λ report. report.counts
            ≡ folder_counts (map vendored_of vendored.now)) }
    {
        let counts = counts_of(alloc, vendored)?;
        let findings = findings_of(alloc, vendored, entries, others)?;
        Ok(VendorReport { findings, counts })
    }
}

// What is found of packages, and behind it what is found of entries.
fn findings_of<'p, 'a>(
    alloc: Global,
    vendored: &'a [Vendored<'p>],
    entries: &'a [Entry],
    others: Others,
) -> Result<Vec<FolderFinding<'p, 'a>>, AllocError>
    ensures { IfOk result (λ found. map folder_finding_of found.items
        ≡ vendor_findings others (map vendored_of vendored.now) (map vendored_entry entries.now)) }
{
    let mut found = vendored_findings(alloc, vendored)?;
    put_entries(&mut found, vendored, entries, others)?;
    Ok(found)
}

// How many packages are in each class.
fn counts_of(alloc: Global, vendored: &[Vendored<'_>]) -> Result<Counts, AllocError>
    ensures { IfOk result (λ counts. counts ≡ folder_counts (map vendored_of vendored.now)) }
{
    let classes = classes_of(alloc, vendored)?;
    Ok(Counts::of(&classes))
}

// The class of each package.
fn classes_of(alloc: Global, vendored: &[Vendored<'_>]) -> Result<Vec<Class>, AllocError>
    ensures { IfOk result (λ classes. classes.items
        ≡ map folder_class (map vendored_of vendored.now)) }
{
    let mut classes = Vec::with_capacity(alloc, vendored.len())?;
    for one in vendored {
        classes.push(class_of(alloc, one)?)?;
    }
    Ok(classes)
}

// The class of a package.
fn class_of(alloc: Global, vendored: &Vendored<'_>) -> Result<Class, AllocError>
    ensures { IfOk result (λ class. class ≡ folder_class (vendored_of vendored.now)) }
{
    let package = vendored.package;
    match &package.source {
        Some(_) => class_with_source(alloc, vendored),
        None => Ok(Class::NotCompared),
    }
}

// The class of a package with a source.
fn class_with_source(alloc: Global, vendored: &Vendored<'_>) -> Result<Class, AllocError>
    ensures { IfOk result (λ class. class ≡ class_of_sourced (vendored_of vendored.now)) }
{
    if is_without_checksum(vendored.package) {
        return Ok(Class::NoChecksum);
    }
    if vendored.folders.is_empty() {
        return Ok(Class::Missing);
    }
    if are_as_listed(alloc, vendored)? {
        return Ok(Class::Matches);
    }
    Ok(Class::Changed)
}

// Whether nothing is found of the folders of a package.
fn are_as_listed(alloc: Global, vendored: &Vendored<'_>) -> Result<bool, AllocError>
    ensures { IfOk result (λ is. is ≡ is_as_listed (vendored_of vendored.now)) }
{
    let mut found = Vec::new(alloc);
    put_all_folders(&mut found, vendored.package, &vendored.folders)?;
    Ok(found.is_empty())
}

impl fmt::Display for VendorReport<'_, '_> {
    ghost use Rattle.std.specs.Prelude.{Some, map};
    ghost use Rattle.cargo_lock_verify.specs.Vendored.{folder_finding_of};
    ghost use Rattle.cargo_lock_verify.specs.VendorReport.{folder_report_text};

    ghost output = { λ report.
        Some (folder_report_text (map folder_finding_of report.findings.items) report.counts) };

    fn fmt<W: fmt::Write>(&self, f: &mut fmt::Formatter<W>) -> fmt::Result {
        for finding in &self.findings {
            write!(f, "{finding}\n")?;
        }
        let summary = FolderSummary(self.counts);
        write!(f, "{summary}\n")
    }
}
