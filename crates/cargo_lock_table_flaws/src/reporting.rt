//! What keeps a table from being read as a lockfile, as findings of reports.

ghost use Rattle.std.specs.Prelude.{◌≡◌, IfOk, string_bytes};
ghost use Rattle.cargo_lock_table_flaws.specs.Finding.{table_finding_of};
ghost use Rattle.cargo_lock_table_flaws.specs.Reporting as spec;
ghost use Rattle.cargo_lock_table_flaws.specs.Reporting.{table_finding_name};
ghost use Rattle.cargo_lock_table_flaws.specs.Reporting.{table_finding_version};

use crate::document::kind;
use crate::finding::TableFinding;
use crate::report::TableReport;
use cargo_lock_location::PackageLines;
use cargo_lock_report::{Level, Reported, Rule, Spot, ToReport, reports};
use std::alloc::{AllocError, Global};

/// The findings of a report on the text at a path, as findings of reports, in their order. Each counts,
/// and is at the line of its package, by these lines. Fails when out of memory.
///
/// ```
/// let reported = reported_table_findings(alloc, "Cargo.lock", report, lines)?;
/// ```
pub fn reported_table_findings(
    alloc: Global,
    path: &str,
    report: &TableReport<'_>,
    lines: &PackageLines<'_>,
) -> Result<Vec<Reported>, AllocError>
    ensures { IfOk result (λ reported. reported.items
        ≡ spec.reported_table_findings path.now lines.now report.now.findings) }
{
    reports(alloc, path, report.findings.as_slice(), lines)
}

impl ToReport for TableFinding<'_> {
    ghost use Rattle.std.specs.Prelude.{Some};
    ghost use Rattle.cargo_lock_table_flaws.specs.Finding.{table_finding_of};
    ghost use Rattle.cargo_lock_table_flaws.specs.Reporting.{table_finding_reported};

    ghost reported_at = { λ spot finding.
        Some (table_finding_reported spot (table_finding_of finding)) };

    #[tactic(auto, unfolding(crate::specs::Reporting::table_finding_reported))]
    fn report(&self, alloc: Global, spot: Spot<'_>) -> Result<Option<Reported>, AllocError> {
        Ok(Some(Reported {
            rule: Rule::of_kind(alloc, kind(self))?,
            level: Level::Error,
            message: format!(in alloc; "{self}")?,
            name: name_of(alloc, self)?,
            version: version_of(alloc, self)?,
            path: String::from_str(alloc, spot.path)?,
            line: spot.line,
        }))
    }
}

// The name of the package of a finding, empty if its table has none.
fn name_of(alloc: Global, finding: &TableFinding<'_>) -> Result<String, AllocError>
    ensures { IfOk result
        (λ name. string_bytes name ≡ table_finding_name (table_finding_of finding.now)) }
{
    match *finding {
        TableFinding::Unread(owner, _, _) => String::from_str(alloc, owner.name.unwrap_or("")),
        TableFinding::Unresolved(_, one, _, _) => String::from_str(alloc, one.name.as_str()),
    }
}

// The version of the package of a finding, empty if its table has none.
fn version_of(alloc: Global, finding: &TableFinding<'_>) -> Result<String, AllocError>
    ensures { IfOk result
        (λ version. string_bytes version ≡ table_finding_version (table_finding_of finding.now)) }
{
    match *finding {
        TableFinding::Unread(owner, _, _) => String::from_str(alloc, owner.version.unwrap_or("")),
        TableFinding::Unresolved(_, one, _, _) => one.version.to_string(alloc),
    }
}
