//! What is found of a lockfile, for reports.

ghost use Rattle.std.specs.Prelude.{◌≡◌, ◌++◌, IfOk, OnOk};
ghost use Rattle.std.specs.List.{filter_map};
ghost use Rattle.std.specs.Option.{option_to_list};
ghost use Rattle.cargo_lock_report.specs.Reported.{spot_of};

use crate::reported::{Reported, Spot};
use cargo_lock_location::{Lined, PackageLines};
use std::alloc::{AllocError, Global};

/// What may be reported as a finding.
pub trait ToReport: Lined {
    ghost use Rattle.std.specs.Prelude.{◌≡◌, IfOk, Option};
    ghost use Rattle.cargo_lock_report.specs.Reported.{ReportedData, SpotData, spot_of};

    ghost reported_at: { SpotData → Self → Option ReportedData };

    /// The finding at this spot, or none if there is nothing to report. Fails when out of memory.
    fn report(&self, alloc: Global, spot: Spot<'_>) -> Result<Option<Reported>, AllocError>
        ensures { IfOk result (λ reported. reported ≡ reported_at (spot_of spot.entry) self.now) };
}

/// The findings of a lockfile at a path, by the lines of its packages, in their order. Fails when out
/// of memory.
///
/// ```
/// let reported = reports(alloc, "Cargo.lock", findings, lines)?;
/// ```
pub fn reports<T: ToReport>(
    alloc: Global,
    path: &str,
    all: &[T],
    lines: &PackageLines<'_>,
) -> Result<Vec<Reported>, AllocError>
    ensures { IfOk result (λ reported. reported.items ≡ filter_map
        (λ x. T.reported_at (record { path = path.now; line = T.line_in lines.now x }) x) all.now) }
{
    let mut reported = Vec::new(alloc);
    for found in all {
        let line = found.line(lines);
        put_report(alloc, &mut reported, found, Spot { path, line })?;
    }
    Ok(reported)
}

// Adds what is reported of this, if there is something.
fn put_report<T: ToReport>(
    alloc: Global,
    reported: &mut Vec<Reported>,
    found: &T,
    spot: Spot<'_>,
) -> Result<(), AllocError>
    ensures { OnOk result (reported.new.items ≡ reported.old.items
        ++ option_to_list (T.reported_at (spot_of spot.entry) found.now)) }
{
    if let Some(one) = found.report(alloc, spot)? {
        reported.push(one)?;
    }
    Ok(())
}
