//! What commands find in lockfiles: lines, a document of JSON, a log of SARIF, or annotations of
//! GitHub.
ghost use Rattle.std.specs.Prelude.{◌≡◌, ◌++◌, ◌∷◌, [], ℕ, IfOk, IfSome, List, OnOk, string_bytes};
ghost use Rattle.clap.specs.Matches.{found_of};
ghost use Rattle.cargo_lock_parts.specs.Ascii.{newline};
ghost use Rattle.printing.specs.Json.{IsJsonText};
ghost use Rattle.cli_input.specs.Told.{IsForm, IsToldAs, LockfileFound, PrintsAs, PrintsFound};
ghost use Rattle.cli_input.specs.Told.{found_in_lockfile, lines_in, subject_of};
ghost use Rattle.cli_input.specs.declared.findings.Form as declared;

use crate::subject::Subject;
use cargo_lock_audit::{advisories_json, reported_advisories};
use cargo_lock_display::File;
use cargo_lock_licenses::{licenses_json, reported_licenses};
use cargo_lock_location::{PackageLines, package_lines};
use cargo_lock_report::{Annotations, Reported, sarif_log};
use cargo_lock_verify::{
    VendorReport, archives_json, folders_json, reported_archives, reported_folders,
};
use clap::ArgMatches;
use cli_support::Fault;
use cli_support::output::put;
use std::alloc::{AllocError, Global};
use std::fmt;
use std::io::Write;
use std::marker::Model;

/// How findings are printed.
#[derive(Debug, Clone, Copy, PartialEq, Eq)]
pub enum Form {
    /// As lines.
    Lines,

    /// As a document of JSON in one line.
    Json,

    /// As a log of SARIF 2.1.0.
    Sarif,

    /// As annotations of GitHub.
    Github,
}

/// The form that the arguments ask for.
pub fn asked_form(options: &ArgMatches<'_>) -> Form
    ensures { IsForm (found_of options.now) result }
{
    if options.get_flag("json") {
        return Form::Json;
    }
    match options.get_str("format") {
        Some(format) if format == "sarif" => Form::Sarif,
        Some(format) if format == "github" => Form::Github,
        _ => Form::Lines,
    }
}

/// What a command finds in a lockfile. `Display` writes its lines.
pub trait Findings: fmt::Display {
    ghost use Rattle.std.specs.Prelude.{◌≡◌, ℕ, IfOk, List, string_bytes};
    ghost use Rattle.json.specs.Json.{Json};
    ghost use Rattle.printing.specs.Json.{IsJsonText};
    ghost use Rattle.cargo_lock_display.specs.File.{FileData};
    ghost use Rattle.cargo_lock_location.specs.Lines.{LinesData};
    ghost use Rattle.cargo_lock_report.specs.Reported.{ReportedData};

    ghost json: { FileData → LinesData → Self → Json };

    ghost reported: { List ℕ → LinesData → Self → List ReportedData };

    /// What is found in this lockfile, whose packages begin in these lines, as a document of JSON in
    /// one line. Fails when out of memory.
    fn document(
        &self,
        alloc: Global,
        file: &File<'_>,
        lines: &PackageLines<'_>,
    ) -> Result<String, AllocError>
        ensures { IfOk result
            (λ text. IsJsonText (json file.now lines.now self.now) (string_bytes text)) };

    /// What is found in the lockfile at this path, whose packages begin in these lines, as findings
    /// of reports. Fails when out of memory.
    fn reports(
        &self,
        alloc: Global,
        path: &str,
        lines: &PackageLines<'_>,
    ) -> Result<Vec<Reported>, AllocError>
        ensures { IfOk result
            (λ found. found.items ≡ reported path.now lines.now self.now) };
}

/// What is printed of findings: a text of lines or of documents, and the findings of reports.
#[derive(Drop)]
pub struct Told {
    /// The lines, or a document in each line. Empty if a report is asked for.
    pub text: String,

    /// The findings, if a report is asked for.
    pub reported: Vec<Reported>,
}

impl Model for Told {
    ghost use Rattle.std.specs.Prelude.{string_bytes};
    ghost use Rattle.cli_input.specs.Told.{KeptTold};

    ghost Value = { KeptTold };

    ghost view = { λ told.
        record { text = string_bytes told.text; reported = told.reported.items } };
}

impl Told {
    /// What is printed where nothing is looked at.
    pub fn nothing(alloc: Global) -> Told
        ensures { (form : declared.Form) → IsToldAs form [] result }
    {
        let text = String::new(alloc);
        Told {
            text,
            reported: Vec::new(alloc),
        }
    }

    /// What is printed in this form of what is found in a lockfile. Fails when out of memory.
    pub fn of<F: Findings>(
        alloc: Global,
        form: Form,
        subject: Subject<'_>,
        findings: &F,
    ) -> Result<Told, AllocError>
        ensures { IfOk result (λ told. IfSome (F.output findings.now)
            (λ lines. IsToldAs form (found_in_lockfile (subject_of subject.entry) lines
            (λ file at. F.json file at findings.now) (λ path at. F.reported path at findings.now)
            ∷ []) told)) }
    {
        match form {
            Form::Lines => {
                let text = format!(in alloc; "{findings}")?;
                Ok(Told {
                    text,
                    reported: Vec::new(alloc),
                })
            }
            Form::Json => {
                let text = document_line(alloc, subject, findings)?;
                Ok(Told {
                    text,
                    reported: Vec::new(alloc),
                })
            }
            Form::Sarif | Form::Github => {
                let reported = reported_in(alloc, subject, findings)?;
                Ok(Told {
                    text: String::new(alloc),
                    reported,
                })
            }
        }
    }

    /// Adds what is printed of further lockfiles. Fails when out of memory.
    pub fn append(&mut self, more: Told) -> Result<(), AllocError>
        ensures { OnOk result ((form : declared.Form) (first second : List LockfileFound)
            → IsToldAs form first self.old → IsToldAs form second more
            → IsToldAs form (first ++ second) self.new) }
    {
        let Told { text, mut reported } = more;
        self.text.push_str(text.as_str())?;
        self.reported.append(&mut reported)?;
        Ok(())
    }
}

/// The document of what is found in a lockfile, and a newline.
fn document_line<F: Findings>(
    alloc: Global,
    subject: Subject<'_>,
    findings: &F,
) -> Result<String, AllocError>
    ensures { IfOk result (λ line. (text : List ℕ)
        × IsJsonText (F.json (subject_of subject.entry).file (lines_in (subject_of subject.entry))
        findings.now) text
        × (string_bytes line ≡ text ++ newline ∷ [])) }
{
    let numbers = package_lines(alloc, subject.text, subject.packages)?;
    let lines = PackageLines::new(alloc, subject.packages, &numbers)?;
    let mut line = findings.document(alloc, subject.file, &lines)?;
    line.push_str("\n")?;
    Ok(line)
}

/// What is found in a lockfile, as findings of reports.
fn reported_in<F: Findings>(
    alloc: Global,
    subject: Subject<'_>,
    findings: &F,
) -> Result<Vec<Reported>, AllocError>
    ensures { IfOk result (λ found. found.items ≡ F.reported (subject_of subject.entry).path
        (lines_in (subject_of subject.entry)) findings.now) }
{
    let numbers = package_lines(alloc, subject.text, subject.packages)?;
    let lines = PackageLines::new(alloc, subject.packages, &numbers)?;
    findings.reports(alloc, subject.path, &lines)
}

/// Prints what is told in a form. Fails if `out` fails, and, before anything is written, when out of
/// memory.
pub fn print_told<W: Write>(
    alloc: Global,
    form: Form,
    told: &Told,
    out: &mut W,
) -> Result<(), Fault>
    ensures { OnOk result ((all : List LockfileFound) → IsToldAs form all told.now
        → PrintsAs form all (W.contents out.old) (W.contents out.new)) }
{
    match form {
        Form::Lines | Form::Json => {
            let text = told.text.as_str();
            put(out, format_args!("{text}"))?;
            Ok(())
        }
        Form::Sarif => {
            let log = sarif_log(alloc, &told.reported)?;
            put(out, format_args!("{log}\n"))?;
            Ok(())
        }
        Form::Github => {
            let annotations = Annotations(&told.reported);
            put(out, format_args!("{annotations}"))?;
            Ok(())
        }
    }
}

/// Prints what is found in a lockfile as the arguments ask for it. Fails if `out` fails, and, before
/// anything is written, when out of memory.
pub fn print_findings<F: Findings, W: Write>(
    alloc: Global,
    options: &ArgMatches<'_>,
    subject: Subject<'_>,
    findings: &F,
    out: &mut W,
) -> Result<(), Fault>
    ensures { OnOk result (IfSome (F.output findings.now)
        (λ lines. PrintsFound (found_of options.now) (found_in_lockfile (subject_of subject.entry) lines
        (λ file at. F.json file at findings.now) (λ path at. F.reported path at findings.now)
        ∷ []) (W.contents out.old) (W.contents out.new))) }
{
    let form = asked_form(options);
    let told = Told::of(alloc, form, subject, findings)?;
    print_told(alloc, form, &told, out)
}

// ---- the findings of commands

impl Findings for cargo_lock_verify::Report<'_, '_> {
    ghost use Rattle.std.specs.Prelude.{map};
    ghost use Rattle.cargo_lock_verify.specs.Archives.{archive_finding_of};
    ghost use Rattle.cargo_lock_verify.specs.ArchivesDocument.{archives_json};
    ghost use Rattle.cargo_lock_verify.specs.Reporting.{reported_archives};

    ghost json = { λ file lines report. archives_json file lines report.counts report.others
        (map archive_finding_of report.findings.items) };

    ghost reported = { λ path lines report. reported_archives report.is_of_all report.counts path lines
        (map archive_finding_of report.findings.items) };

    fn document(
        &self,
        alloc: Global,
        file: &File<'_>,
        lines: &PackageLines<'_>,
    ) -> Result<String, AllocError> {
        archives_json(alloc, file, self, lines)
    }

    fn reports(
        &self,
        alloc: Global,
        path: &str,
        lines: &PackageLines<'_>,
    ) -> Result<Vec<Reported>, AllocError> {
        reported_archives(alloc, path, self, lines)
    }
}

impl Findings for VendorReport<'_, '_> {
    ghost use Rattle.std.specs.Prelude.{map};
    ghost use Rattle.cargo_lock_verify.specs.FoldersDocument.{folders_json};
    ghost use Rattle.cargo_lock_verify.specs.Reporting.{reported_folders};
    ghost use Rattle.cargo_lock_verify.specs.Vendored.{folder_finding_of};

    ghost json = { λ file lines report.
        folders_json file lines report.counts (map folder_finding_of report.findings.items) };

    ghost reported = { λ path lines report.
        reported_folders path lines (map folder_finding_of report.findings.items) };

    fn document(
        &self,
        alloc: Global,
        file: &File<'_>,
        lines: &PackageLines<'_>,
    ) -> Result<String, AllocError> {
        folders_json(alloc, file, self, lines)
    }

    fn reports(
        &self,
        alloc: Global,
        path: &str,
        lines: &PackageLines<'_>,
    ) -> Result<Vec<Reported>, AllocError> {
        reported_folders(alloc, path, self, lines)
    }
}

impl Findings for cargo_lock_licenses::Report<'_, '_> {
    ghost use Rattle.std.specs.Prelude.{map};
    ghost use Rattle.cargo_lock_licenses.specs.Document.{licenses_json};
    ghost use Rattle.cargo_lock_licenses.specs.Judged.{judged_of};
    ghost use Rattle.cargo_lock_licenses.specs.Report.{unmet_of};
    ghost use Rattle.cargo_lock_licenses.specs.Reporting.{reported_licenses};

    ghost json = { λ file lines report. licenses_json file lines (map judged_of report.judged.items)
        (map unmet_of report.unmet.items) };

    ghost reported = { λ path lines report.
        reported_licenses path lines (map judged_of report.judged.items) };

    fn document(
        &self,
        alloc: Global,
        file: &File<'_>,
        lines: &PackageLines<'_>,
    ) -> Result<String, AllocError> {
        licenses_json(alloc, file, self, lines)
    }

    fn reports(
        &self,
        alloc: Global,
        path: &str,
        lines: &PackageLines<'_>,
    ) -> Result<Vec<Reported>, AllocError> {
        reported_licenses(alloc, path, self, lines)
    }
}

impl Findings for cargo_lock_audit::Report<'_, '_, '_> {
    ghost use Rattle.cargo_lock_audit.specs.Document.{advisories_json};
    ghost use Rattle.cargo_lock_audit.specs.Report.{report_data_of};
    ghost use Rattle.cargo_lock_audit.specs.Reporting.{reported_advisories};

    ghost json = { λ file lines report. advisories_json file lines (report_data_of report) };

    ghost reported = { λ path lines report.
        reported_advisories path lines (report_data_of report).findings };

    fn document(
        &self,
        alloc: Global,
        file: &File<'_>,
        lines: &PackageLines<'_>,
    ) -> Result<String, AllocError> {
        advisories_json(alloc, file, self, lines)
    }

    fn reports(
        &self,
        alloc: Global,
        path: &str,
        lines: &PackageLines<'_>,
    ) -> Result<Vec<Reported>, AllocError> {
        reported_advisories(alloc, path, self, lines)
    }
}
