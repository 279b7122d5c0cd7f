//! What a comparison of archives with a lockfile reports.

ghost use Rattle.std.specs.Prelude.{◌≡◌, IfOk, filter, length, map};
ghost use Rattle.cargo_lock_verify.specs.Archives.{archive_class, archive_counts};
ghost use Rattle.cargo_lock_verify.specs.Archives.{archive_finding_of, archive_findings};
ghost use Rattle.cargo_lock_verify.specs.Archives.{archive_subject_of, archives_of_others, cache_of};
ghost use Rattle.cargo_lock_verify.specs.Report.{is_of_archive, reported};

use crate::class::{Class, Counts};
use crate::finding::Finding;
use crate::passed_over::count_of_others;
use crate::subject::{Cache, class_of, findings};
use crate::summary::ArchiveSummary;
use std::alloc::{AllocError, Global};
use std::fmt;

/// What a comparison of archives with a lockfile reports. `Display` writes a line for each finding,
/// and at last how many packages are in each class, as `39 archives match; 2 do not; 1 package has no
/// archive; 2 packages of a registry have no checksum; 3 packages have no registry; 2 archives of other
/// registries`, where numbers of zero but the first are left out. Each line has its newline.
#[derive(Drop)]
pub struct Report<'p, 'a> {
    /// The findings.
    pub findings: Vec<Finding<'p, 'a>>,

    /// How many packages are in each class.
    pub counts: Counts,

    /// How many archives are passed over: they lie in index folders of other registries, and no package
    /// of their name and version has their digest.
    pub others: usize,

    /// Whether all packages are asked for: then one without an archive counts too.
    pub is_of_all: bool,
}

impl<'p, 'a> Report<'p, 'a> {
    /// What is reported of these packages: all findings, or only those of archives, without packages
    /// of a registry that have no checksum. Fails when out of memory.
    pub fn of(alloc: Global, cache: &Cache<'p, 'a>, all: bool) -> Result<Report<'p, 'a>, AllocError>
        ensures findings { IfOk result (λ report. map archive_finding_of report.findings.items
            ≡ reported all (archive_findings (cache_of cache.now))) }
        ensures counts { IfOk result (λ report. report.counts
            ≡ archive_counts (cache_of cache.now)) }
        ensures others { IfOk result (λ report. report.others
            ≡ length (archives_of_others (cache_of cache.now))) }
        ensures all { IfOk result (λ report. report.is_of_all ≡ all) }
    {
        let counts = counts_of(alloc, cache)?;
        let others = count_of_others(alloc, cache)?;
        let findings = findings_if(alloc, cache, all)?;
        Ok(Report {
            findings,
            counts,
            others,
            is_of_all: all,
        })
    }
}

// All findings, or only those of archives.
fn findings_if<'p, 'a>(
    alloc: Global,
    cache: &Cache<'p, 'a>,
    all: bool,
) -> Result<Vec<Finding<'p, 'a>>, AllocError>
    ensures { IfOk result (λ found. map archive_finding_of found.items
        ≡ reported all (archive_findings (cache_of cache.now))) }
{
    if all {
        findings(alloc, cache)
    } else {
        archives_alone(alloc, cache)
    }
}

// The findings of archives.
fn archives_alone<'p, 'a>(
    alloc: Global,
    cache: &Cache<'p, 'a>,
) -> Result<Vec<Finding<'p, 'a>>, AllocError>
    ensures { IfOk result (λ found. map archive_finding_of found.items
        ≡ filter is_of_archive (archive_findings (cache_of cache.now))) }
{
    let mut found = findings(alloc, cache)?;
    found.retain(is_of_an_archive);
    Ok(found)
}

// Whether the finding is of an archive: one is changed, or there is none of the package.
fn is_of_an_archive(finding: &Finding<'_, '_>) -> bool
    ensures { result ≡ is_of_archive (archive_finding_of finding.now) }
{
    match finding {
        Finding::Changed(_, _) | Finding::Missing(_) => true,
        Finding::NoChecksum(_) => false,
    }
}

// How many subjects are in each class.
fn counts_of(alloc: Global, cache: &Cache<'_, '_>) -> Result<Counts, AllocError>
    ensures { IfOk result (λ counts. counts ≡ archive_counts (cache_of cache.now)) }
{
    let classes = classes_of(alloc, cache)?;
    Ok(Counts::of(&classes))
}

// The class of each subject.
fn classes_of(alloc: Global, cache: &Cache<'_, '_>) -> Result<Vec<Class>, AllocError>
    ensures { IfOk result (λ classes. classes.items
        ≡ map (archive_class (cache_of cache.now)) (cache_of cache.now).subjects) }
{
    let mut classes = Vec::with_capacity(alloc, cache.subjects.len())?;
    for subject in cache.subjects {
        let class = class_of(alloc, cache, subject)?;
        classes.push(class)?;
    }
    Ok(classes)
}

impl fmt::Display for Report<'_, '_> {
    ghost use Rattle.std.specs.Prelude.{Some, map};
    ghost use Rattle.cargo_lock_verify.specs.Archives.{archive_finding_of};
    ghost use Rattle.cargo_lock_verify.specs.Report.{archive_report_text};

    ghost output = { λ report. Some (archive_report_text
        (map archive_finding_of report.findings.items) report.counts report.others) };

    fn fmt<W: fmt::Write>(&self, f: &mut fmt::Formatter<W>) -> fmt::Result {
        for finding in &self.findings {
            write!(f, "{finding}\n")?;
        }
        let summary = ArchiveSummary(self.counts, self.others);
        write!(f, "{summary}\n")
    }
}
