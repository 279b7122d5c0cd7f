//! What is reported of a table that is no lockfile.

ghost use Rattle.std.specs.Prelude.{◌≡◌, ◌≢◌, [], IfOk, IsOkUnless, MatchOption, Some, map};
ghost use Rattle.toml.specs.View.{items_view, table_view, view};
ghost use Rattle.cargo_lock_encoding.specs.Lockfiles.{format_of};
ghost use Rattle.cargo_lock_encoding.specs.TableReading.{encoded_at};
ghost use Rattle.cargo_lock_parts.specs.declared.error.Error.TheVariants.{Memory};
ghost use Rattle.cargo_lock_table_flaws.specs.Finding.{table_finding_of};
ghost use Rattle.cargo_lock_table_flaws.specs.Format.{said_format};
ghost use Rattle.cargo_lock_table_flaws.specs.Report.{IsUnreadReport, IsUnresolvedReport};
ghost use Rattle.cargo_lock_table_flaws.specs.Report.{IsWithoutUnread, IsWithoutUnresolved};
ghost use Rattle.cargo_lock_table_flaws.specs.Report.{item_count, items_count, listed_count};

use crate::finding::TableFinding;
use crate::format::said_format;
use crate::table::value_at;
use crate::unread::unread_values;
use crate::unresolved::unresolved_references;
use cargo_lock_encoding::{EncodableLockfile, encoded_at};
use cargo_lock_parts::error::{Error, Result};
use cargo_lock_references::ResolveVersion;
use cargo_lock_references::version::format_of_values;
use std::alloc::Global;
use std::fmt;
use std::marker::Model;
use toml::{Table, Value};

/// What keeps a table from being read as a lockfile. `Display` writes its findings in their order,
/// each with its newline.
#[derive(Drop)]
pub struct TableReport<'a> {
    /// The format of the table.
    pub format: ResolveVersion,

    /// How many packages the table lists.
    pub packages: usize,

    /// The findings, of which there is at least one.
    pub findings: Vec<TableFinding<'a>>,
}

impl<'a> Model for TableReport<'a> {
    ghost use Rattle.std.specs.Prelude.{map};
    ghost use Rattle.cargo_lock_table_flaws.specs.Finding.{table_finding_of};
    ghost use Rattle.cargo_lock_table_flaws.specs.Report.{TableReportData};

    ghost Value = { TableReportData };

    ghost view = { λ r. record {
      format = r.format;
      packages = r.packages;
      findings = map table_finding_of r.findings.items;
    } };
}

impl fmt::Display for TableReport<'_> {
    ghost use Rattle.std.specs.Prelude.{Some};
    ghost use Rattle.cargo_lock_table_flaws.specs.Finding.{table_findings_text};

    ghost output = { λ report. Some (table_findings_text report.findings) };

    fn fmt<W: fmt::Write>(&self, f: &mut fmt::Formatter<W>) -> fmt::Result {
        let findings = self.findings.as_slice();
        for finding in findings {
            write!(f, "{finding}\n")?;
        }
        Ok(())
    }
}

/// What does not read in a table, if there is such a thing: each value under `name`, `version`,
/// `source`, `checksum`, `dependencies` or `replace` of a package, of the root or of an unused
/// patch. A table that says no format, by a number that is none, has no report. The one error is
/// `Memory`, which is also the error for a URL of 4 GB or more.
///
/// ```
/// if let Some(report) = unread_report(rt.alloc(), table)? {
///     println!(rt; "{report}")?;
/// }
/// ```
pub fn unread_report<'a>(alloc: Global, table: &'a Table) -> Result<Option<TableReport<'a>>>
    ensures ok { IfOk result (λ report. MatchOption report (IsWithoutUnread (table_view table.now))
        (IsUnreadReport (table_view table.now))) }
    ensures err { IsOkUnless result Memory }
{
    match said_format(alloc, table)? {
        Some(format) => unread_in(alloc, format, table),
        None => Ok(None),
    }
}

// The same of a table that says this format.
fn unread_in<'a>(
    alloc: Global,
    format: ResolveVersion,
    table: &'a Table,
) -> Result<Option<TableReport<'a>>>
    requires { said_format (table_view table.now) ≡ Some format }
    ensures ok { IfOk result (λ report. MatchOption report (IsWithoutUnread (table_view table.now))
        (IsUnreadReport (table_view table.now))) }
    ensures err { IsOkUnless result Memory }
{
    let findings = unread_values(alloc, table)?;
    Ok(report_of(format, listed_count(table), findings))
}

/// The values of a table, unless one of them does not read. The one error is `Memory`, which is
/// also the error for a URL of 4 GB or more.
///
/// ```
/// let Some(values) = table_values(rt.alloc(), table)? else {
///     return Ok(());
/// };
/// ```
pub fn table_values(alloc: Global, table: &Table) -> Result<Option<EncodableLockfile>>
    ensures ok { IfOk result (λ values. values ≡ encoded_at (table_view table.now)) }
    ensures err { IsOkUnless result Memory }
{
    match encoded_at(alloc, table) {
        Ok(values) => Ok(Some(values)),
        Err(Error::Memory) => Err(Error::Memory),
        Err(fault) if fault.is_too_long() => Err(Error::Memory),
        Err(_) => Ok(None),
    }
}

/// The references of values that resolve to nothing, if there are such. Values without a format
/// have no report. The one error is `Memory`.
///
/// ```
/// if let Some(report) = unresolved_report(rt.alloc(), &values)? {
///     println!(rt; "{report}")?;
/// }
/// ```
pub fn unresolved_report<'a>(
    alloc: Global,
    values: &'a EncodableLockfile,
) -> Result<Option<TableReport<'a>>>
    ensures ok { IfOk result (λ report. MatchOption report (IsWithoutUnresolved values.now)
        (IsUnresolvedReport values.now)) }
    ensures err { IsOkUnless result Memory }
{
    match format_of(alloc, values)? {
        Some(format) => unresolved_in(alloc, format, values),
        None => Ok(None),
    }
}

// The format of values, if they have one.
fn format_of(alloc: Global, values: &EncodableLockfile) -> Result<Option<ResolveVersion>>
    ensures ok { IfOk result (λ format. format ≡ format_of values.now) }
    ensures err { IsOkUnless result Memory }
{
    let read = format_of_values(
        alloc,
        values.version,
        values.package.as_slice(),
        &values.metadata,
    );
    match read {
        Ok(format) => Ok(Some(format)),
        Err(Error::Memory) => Err(Error::Memory),
        Err(_) => Ok(None),
    }
}

// The report of values in this format.
fn unresolved_in<'a>(
    alloc: Global,
    format: ResolveVersion,
    values: &'a EncodableLockfile,
) -> Result<Option<TableReport<'a>>>
    requires { format_of values.now ≡ Some format }
    ensures ok { IfOk result (λ report. MatchOption report (IsWithoutUnresolved values.now)
        (IsUnresolvedReport values.now)) }
    ensures err { IsOkUnless result Memory }
{
    let findings = unresolved_references(alloc, format, values)?;
    Ok(report_of(format, values.package.len(), findings))
}

// The report of findings, if there are any.
fn report_of<'a>(
    format: ResolveVersion,
    packages: usize,
    findings: Vec<TableFinding<'a>>,
) -> Option<TableReport<'a>>
    ensures { MatchOption result (map table_finding_of findings.entry.items ≡ [])
        (λ r. (r.format ≡ format) × (r.packages ≡ packages)
        × (r.findings ≡ map table_finding_of findings.entry.items) × (r.findings ≢ [])) }
{
    if findings.is_empty() {
        return None;
    }
    Some(TableReport {
        format,
        packages,
        findings,
    })
}

// How many packages a table lists.
fn listed_count(table: &Table) -> usize
    ensures { result ≡ listed_count (table_view table.now) }
{
    match value_at(table, "package") {
        Some(list) => item_count(list),
        None => 0,
    }
}

// How many items a value has, if it is a list.
fn item_count(list: &Value) -> usize
    ensures { result ≡ item_count (view list.now) }
{
    match list.as_array() {
        Some(list) => items_count(list.as_slice()),
        None => 0,
    }
}

fn items_count(list: &[Value]) -> usize
    ensures { result ≡ items_count (items_view list.now) }
{
    list.len()
}
