//! What is found of the licences of packages, as findings of reports.

ghost use Rattle.std.specs.Prelude.{◌≡◌, IfOk, map};
ghost use Rattle.cargo_lock_licenses.specs.Judged.{judged_of};
ghost use Rattle.cargo_lock_licenses.specs.Reporting as spec;
ghost use Rattle.cargo_lock_licenses.specs.Reporting.{judged_reported};
ghost use Rattle.cargo_lock_report.specs.Reported.{spot_of};

use crate::document::{kind, package};
use crate::judged::Judged;
use crate::report::Report;
use cargo_lock_location::PackageLines;
use cargo_lock_report::{Level, Reported, Rule, Spot, ToReport, reports};
use std::alloc::{AllocError, Global};

/// The findings of a report on the lockfile at a path, as findings of reports, in their order. Each
/// counts, and is at the line of its package, by these lines. What is allowed is left out. Fails when
/// out of memory.
///
/// ```
/// let reported = reported_licenses(alloc, "Cargo.lock", report, lines)?;
/// ```
pub fn reported_licenses(
    alloc: Global,
    path: &str,
    report: &Report<'_, '_>,
    lines: &PackageLines<'_>,
) -> Result<Vec<Reported>, AllocError>
    ensures { IfOk result (λ reported. reported.items ≡ spec.reported_licenses path.now lines.now
        (map judged_of report.now.judged.items)) }
{
    reports(alloc, path, &report.judged, lines)
}

impl ToReport for Judged<'_, '_> {
    ghost use Rattle.cargo_lock_licenses.specs.Judged.{judged_of};
    ghost use Rattle.cargo_lock_licenses.specs.Reporting.{judged_reported_if};

    ghost reported_at = { λ spot judged. judged_reported_if spot (judged_of judged) };

    fn report(&self, alloc: Global, spot: Spot<'_>) -> Result<Option<Reported>, AllocError> {
        if !self.is_finding() {
            return Ok(None);
        }
        let reported = finding_reported(alloc, self, spot)?;
        Ok(Some(reported))
    }
}

// What is said of a package, as a finding of reports.
#[tactic(auto, unfolding(crate::specs::Reporting::judged_reported))]
fn finding_reported(
    alloc: Global,
    judged: &Judged<'_, '_>,
    spot: Spot<'_>,
) -> Result<Reported, AllocError>
    ensures { IfOk result
        (λ reported. reported ≡ judged_reported (spot_of spot.entry) (judged_of judged.now)) }
{
    let verdict = &judged.verdict;
    let rule = Rule::of_kind(alloc, kind(verdict))?;
    let message = format!(in alloc; "{judged}")?;
    Reported::new(
        alloc,
        rule,
        Level::Error,
        message,
        Some(package(verdict)),
        spot,
    )
}
