//! What is found of packages by advisories, as findings of reports.

ghost use Rattle.std.specs.Prelude.{◌≡◌, IfOk};
ghost use Rattle.cargo_lock_audit.specs.Report.{report_data_of};
ghost use Rattle.cargo_lock_audit.specs.Reporting as spec;
ghost use Rattle.cargo_lock_audit.specs.Reporting.{advisory_rule};

use crate::advisory::Advisory;
use crate::finding::Finding;
use crate::report::Report;
use cargo_lock_location::PackageLines;
use cargo_lock_report::{Level, Reported, Rule, Spot, ToReport, reports};
use std::alloc::{AllocError, Global};

/// The findings of a report on the lockfile at a path, as findings of reports, in their order. The rule
/// of each is its advisory. One that is denied counts. Each is at the line of its package, by these
/// lines. Fails when out of memory.
///
/// ```
/// let reported = reported_advisories(alloc, "Cargo.lock", report, lines)?;
/// ```
pub fn reported_advisories(
    alloc: Global,
    path: &str,
    report: &Report<'_, '_, '_>,
    lines: &PackageLines<'_>,
) -> Result<Vec<Reported>, AllocError>
    ensures { IfOk result (λ reported. reported.items ≡ spec.reported_advisories path.now lines.now
        (report_data_of report.now).findings) }
{
    reports(alloc, path, &report.findings, lines)
}

impl ToReport for Finding<'_, '_> {
    ghost use Rattle.std.specs.Prelude.{Some};
    ghost use Rattle.cargo_lock_audit.specs.Findings.{advisory_finding_of};
    ghost use Rattle.cargo_lock_audit.specs.Reporting.{advisory_finding_reported};

    ghost reported_at = { λ spot finding.
        Some (advisory_finding_reported spot (advisory_finding_of finding)) };

    #[tactic(auto, unfolding(crate::specs::Reporting::advisory_finding_reported))]
    fn report(&self, alloc: Global, spot: Spot<'_>) -> Result<Option<Reported>, AllocError> {
        let rule = rule_of(alloc, self.advisory)?;
        let level = Level::of(self.is_denied);
        let message = format!(in alloc; "{self}")?;
        let reported = Reported::new(alloc, rule, level, message, Some(self.package), spot)?;
        Ok(Some(reported))
    }
}

// The rule that an advisory is.
fn rule_of(alloc: Global, advisory: &Advisory) -> Result<Rule, AllocError>
    ensures { IfOk result (λ rule. rule ≡ advisory_rule advisory.now) }
{
    let details = &advisory.details;
    Rule::of_advisory(alloc, &advisory.id, &advisory.title, &details.url)
}
