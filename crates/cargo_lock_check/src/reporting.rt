//! What is wrong with a lockfile, as findings of reports.

ghost use Rattle.std.specs.Prelude.{◌≡◌, IfOk, map};
ghost use Rattle.cargo_lock_check.specs.Findings.{placed_finding_of};
ghost use Rattle.cargo_lock_check.specs.Reporting as spec;

use crate::document::{kind, package};
use crate::placed::PlacedFinding;
use cargo_lock_location::PackageLines;
use cargo_lock_report::{Level, Reported, Rule, Spot, ToReport, reports};
use std::alloc::{AllocError, Global};

/// What is wrong with the lockfile at a path, as findings of reports, in their order. Each counts, and
/// is at the line of its package, by these lines. Fails when out of memory.
///
/// ```
/// let placed = findings.placed(alloc)?;
/// let reported = reported_findings(alloc, "Cargo.lock", &placed, lines)?;
/// ```
pub fn reported_findings(
    alloc: Global,
    path: &str,
    findings: &[PlacedFinding<'_>],
    lines: &PackageLines<'_>,
) -> Result<Vec<Reported>, AllocError>
    ensures { IfOk result (λ reported. reported.items ≡ spec.reported_findings path.now lines.now
        (map placed_finding_of findings.now)) }
{
    reports(alloc, path, findings, lines)
}

impl ToReport for PlacedFinding<'_> {
    ghost use Rattle.std.specs.Prelude.{Some};
    ghost use Rattle.cargo_lock_check.specs.Finding.{lockfile_finding_of};
    ghost use Rattle.cargo_lock_check.specs.Reporting.{lockfile_finding_reported};

    ghost reported_at = { λ spot placed.
        Some (lockfile_finding_reported spot (lockfile_finding_of placed.finding)) };

    #[tactic(auto, unfolding(crate::specs::Reporting::lockfile_finding_reported))]
    fn report(&self, alloc: Global, spot: Spot<'_>) -> Result<Option<Reported>, AllocError> {
        let finding = &self.finding;
        let rule = Rule::of_kind(alloc, kind(finding))?;
        let message = format!(in alloc; "{finding}")?;
        let reported = Reported::new(alloc, rule, Level::Error, message, package(finding), spot)?;
        Ok(Some(reported))
    }
}
