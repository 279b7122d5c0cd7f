//! What the command `check` finds in a table that is no lockfile.
ghost use Rattle.std.specs.Prelude.{◌≡◌, ◌∷◌, [], IfOk, IfSome, option_map};
ghost use Rattle.toml.specs.Parse.{parse_document};
ghost use Rattle.toml.specs.View.{table_view};
ghost use Rattle.cli.specs.Check.{CheckedData, IsCheckedMembers, IsCheckedOne, IsCheckedTable};
ghost use Rattle.cli.specs.Check.{IsCheckedUnresolved, checked_report, lines_in_table, named_of};

use crate::checked::{Checked, Named, Prefix};
use cargo_lock_display::File;
use cargo_lock_encoding::EncodableLockfile;
use cargo_lock_location::PackageLines;
use cargo_lock_report::Reported;
use cargo_lock_table_flaws::{
    TableReport, listed_lines, reported_table_findings, table_findings_json, table_values,
    unread_report, unresolved_report,
};
use cli_input::findings::{Findings, Form, Told};
use cli_input::load::file_at;
use cli_input::subject::Subject;
use cli_support::Fault;
use std::alloc::{AllocError, Global};
use std::fmt;
use toml::Table;

/// What keeps the table of a text from being read as a lockfile, in this form, if there is such a
/// thing. Fails when out of memory.
pub(crate) fn checked_table(
    alloc: Global,
    form: Form,
    named: Named<'_>,
    text: &str,
) -> Result<Option<Checked>, Fault>
    ensures { IfOk result (λ found. IfSome found (λ checked. (c : CheckedData)
        × IsCheckedTable (named_of named.entry) text.now c × IsCheckedOne form c checked)) }
{
    match table_of(alloc, text)? {
        Some(table) => checked_members(alloc, form, named, text, &table),
        None => Ok(None),
    }
}

/// The table that a text is, if it is one. Fails when out of memory.
fn table_of(alloc: Global, text: &str) -> Result<Option<Table>, AllocError>
    ensures { IfOk result (λ table. option_map table_view table ≡ parse_document text.now) }
{
    match toml::table_from_str(alloc, text) {
        Ok(table) => Ok(Some(table)),
        Err(fault) if fault.is_memory() => Err(AllocError),
        Err(_) => Ok(None),
    }
}

/// What keeps the table of a text from being read, each thing at the line of its package.
fn checked_members(
    alloc: Global,
    form: Form,
    named: Named<'_>,
    text: &str,
    table: &Table,
) -> Result<Option<Checked>, Fault>
    ensures { IfOk result (λ found. IfSome found (λ checked. (c : CheckedData)
        × IsCheckedMembers (named_of named.entry) text.now
        (lines_in_table text.now (table_view table.now)) (table_view table.now) c
        × IsCheckedOne form c checked)) }
{
    let numbers = listed_lines(alloc, text, table)?;
    let lines = PackageLines::new(alloc, &[], &numbers)?;
    checked_values(alloc, form, named, text, &lines, table)
}

/// What keeps the table of a text from being read, by the lines of its packages: the values that do
/// not read, and if there are none, the references that resolve to nothing.
fn checked_values(
    alloc: Global,
    form: Form,
    named: Named<'_>,
    text: &str,
    lines: &PackageLines<'_>,
    table: &Table,
) -> Result<Option<Checked>, Fault>
    ensures { IfOk result (λ found. IfSome found (λ checked. (c : CheckedData)
        × IsCheckedMembers (named_of named.entry) text.now lines.now (table_view table.now) c
        × IsCheckedOne form c checked)) }
{
    match unread_report(alloc, table)? {
        Some(report) => Ok(Some(checked_report(alloc, form, named, text, lines, &report)?)),
        None => checked_references(alloc, form, named, text, lines, table),
    }
}

/// The references of a table that resolve to nothing, if there are some.
fn checked_references(
    alloc: Global,
    form: Form,
    named: Named<'_>,
    text: &str,
    lines: &PackageLines<'_>,
    table: &Table,
) -> Result<Option<Checked>, Fault>
    ensures { IfOk result (λ found. IfSome found (λ checked. (c : CheckedData)
        × IsCheckedMembers (named_of named.entry) text.now lines.now (table_view table.now) c
        × IsCheckedOne form c checked)) }
{
    match table_values(alloc, table)? {
        Some(values) => checked_unresolved(alloc, form, named, text, lines, &values),
        None => Ok(None),
    }
}

/// The references of these values that resolve to nothing, if there are some.
fn checked_unresolved(
    alloc: Global,
    form: Form,
    named: Named<'_>,
    text: &str,
    lines: &PackageLines<'_>,
    values: &EncodableLockfile,
) -> Result<Option<Checked>, Fault>
    ensures { IfOk result (λ found. IfSome found (λ checked. (c : CheckedData)
        × IsCheckedUnresolved (named_of named.entry) text.now lines.now values.now c
        × IsCheckedOne form c checked)) }
{
    match unresolved_report(alloc, values)? {
        Some(report) => Ok(Some(checked_report(alloc, form, named, text, lines, &report)?)),
        None => Ok(None),
    }
}

/// What a report says of a text, by the lines of the packages in its table.
fn checked_report(
    alloc: Global,
    form: Form,
    named: Named<'_>,
    text: &str,
    lines: &PackageLines<'_>,
    report: &TableReport<'_>,
) -> Result<Checked, AllocError>
    ensures { IfOk result (λ checked. IsCheckedOne form
        (checked_report (named_of named.entry) text.now lines.now report.now) checked) }
{
    let file = file_at(named.argument, report.format);
    let subject = Subject {
        file: &file,
        path: named.path,
        text,
        packages: &[],
    };
    let all = AllOfTable {
        prefix: named.prefix,
        report,
        lines,
    };
    let told = Told::of(alloc, form, subject, &all)?;
    let findings = report.findings.len();
    Ok(Checked::of_one(told, report.packages, findings))
}

/// The findings of a table. `Display` writes them in their order, each with its newline, and behind a
/// path if there is one.
#[derive(Clone, Copy)]
struct AllOfTable<'a, 'f, 'l> {
    prefix: Option<&'a str>,
    report: &'a TableReport<'f>,
    lines: &'a PackageLines<'l>,
}

impl fmt::Display for AllOfTable<'_, '_, '_> {
    ghost use Rattle.std.specs.Prelude.{Some, option_map};
    ghost use Rattle.cli.specs.Check.{table_text};

    ghost output = { λ all. Some (table_text (option_map (λ t. t.now) all.prefix)
        all.report.now.findings) };

    fn fmt<W: fmt::Write>(&self, f: &mut fmt::Formatter<W>) -> fmt::Result {
        let AllOfTable { prefix, report, .. } = *self;
        let prefix = Prefix(prefix);
        let findings = report.findings.as_slice();
        for finding in findings {
            write!(f, "{prefix}{finding}\n")?;
        }
        Ok(())
    }
}

impl Findings for AllOfTable<'_, '_, '_> {
    ghost use Rattle.cargo_lock_table_flaws.specs.Document.{table_findings_json};
    ghost use Rattle.cargo_lock_table_flaws.specs.Reporting.{reported_table_findings};

    ghost json = { λ file _ all. table_findings_json file all.lines.now all.report.now.findings };

    ghost reported = { λ path _ all.
        reported_table_findings path all.lines.now all.report.now.findings };

    fn document(
        &self,
        alloc: Global,
        file: &File<'_>,
        _lines: &PackageLines<'_>,
    ) -> Result<String, AllocError> {
        table_findings_json(alloc, file, self.report, self.lines)
    }

    fn reports(
        &self,
        alloc: Global,
        path: &str,
        _lines: &PackageLines<'_>,
    ) -> Result<Vec<Reported>, AllocError> {
        reported_table_findings(alloc, path, self.report, self.lines)
    }
}
