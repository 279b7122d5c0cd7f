//! What `verify`, `licenses` and `audit` print where not all of a folder was read, before they fail.
ghost use Rattle.std.specs.Prelude.{◌≡◌, IfSome, OnOk, Some, map};
ghost use Rattle.std.specs.Fmt.{DisplaysOnOk};
ghost use Rattle.clap.specs.Matches.{found_of};
ghost use Rattle.cargo_lock_audit.specs.Lines.{advisory_findings_text};
ghost use Rattle.cargo_lock_audit.specs.Report.{report_data_of};
ghost use Rattle.cargo_lock_licenses.specs.Judged.{judged_of};
ghost use Rattle.cargo_lock_licenses.specs.Verdicts.{verdict_of};
ghost use Rattle.cargo_lock_verify.specs.Archives.{archive_finding_of};
ghost use Rattle.cargo_lock_verify.specs.Vendored.{folder_finding_of};
ghost use Rattle.cli_folder_commands.specs.Part as spec;
ghost use Rattle.cli_folder_commands.specs.Part.{PrintsPart, sure_archive_line, sure_archive_lines};
ghost use Rattle.cli_folder_commands.specs.Part.{sure_folder_line, sure_folder_lines};
ghost use Rattle.cli_folder_commands.specs.Part.{sure_judged_line, sure_judged_lines};

use cargo_lock_licenses::{Judged, Verdict};
use cargo_lock_verify::{Finding, FolderFinding, Report, VendorReport};
use clap::ArgMatches;
use cli_input::findings::{Form, asked_form};
use cli_support::Fault;
use cli_support::output::put;
use std::fmt;
use std::io::Write;

/// Prints the lines of what was found, if lines are asked for. A document or a report is printed whole
/// or not at all. Fails if `out` fails.
fn print_part<D: fmt::Display + Drop, W: Write>(
    options: &ArgMatches<'_>,
    lines: D,
    out: &mut W,
) -> Result<(), Fault>
    ensures { OnOk result (IfSome (D.output lines) (λ text. PrintsPart (found_of options.now) text
        (W.contents out.old) (W.contents out.new))) }
{
    if asked_form(options) == Form::Lines {
        put(out, lines)?;
    }
    Ok(())
}

// ---- archives

/// Prints what a report finds of archives, where not all were read, as `print_part` does.
pub(crate) fn print_sure_archives<W: Write>(
    options: &ArgMatches<'_>,
    report: &Report<'_, '_>,
    out: &mut W,
) -> Result<(), Fault>
    ensures { OnOk result (PrintsPart (found_of options.now)
        (sure_archive_lines (map archive_finding_of report.now.findings.items))
        (W.contents out.old) (W.contents out.new)) }
{
    print_part(options, SureArchives(&report.findings), out)
}

/// The lines of findings of archives, where not all were read: not that a package has none.
#[derive(Clone, Copy)]
struct SureArchives<'a>(&'a Vec<Finding<'a, 'a>>);

impl fmt::Display for SureArchives<'_> {
    ghost use Rattle.std.specs.Prelude.{Some, map};
    ghost use Rattle.cargo_lock_verify.specs.Archives.{archive_finding_of};
    ghost use Rattle.cli_folder_commands.specs.Part.{sure_archive_lines};

    ghost output = { λ shown. Some (sure_archive_lines (map archive_finding_of shown.0.now.items)) };

    fn fmt<W: fmt::Write>(&self, f: &mut fmt::Formatter<W>) -> fmt::Result {
        let SureArchives(findings) = *self;
        for finding in findings {
            write_archive(finding, f)?;
        }
        Ok(())
    }
}

/// Writes the line of a finding of archives, unless it is that a package has none.
fn write_archive<W: fmt::Write>(finding: &Finding<'_, '_>, f: &mut fmt::Formatter<W>) -> fmt::Result
    ensures { DisplaysOnOk W.write_str_gives f.old result
        (Some (sure_archive_line (archive_finding_of finding.now))) f.new }
{
    match finding {
        Finding::Missing(_) => Ok(()),
        Finding::Changed(_, _) | Finding::NoChecksum(_) => write!(f, "{finding}\n"),
    }
}

// ---- folders

/// Prints what a report finds of folders, where not all were read, as `print_part` does.
pub(crate) fn print_sure_folders<W: Write>(
    options: &ArgMatches<'_>,
    report: &VendorReport<'_, '_>,
    out: &mut W,
) -> Result<(), Fault>
    ensures { OnOk result (PrintsPart (found_of options.now)
        (sure_folder_lines (map folder_finding_of report.now.findings.items))
        (W.contents out.old) (W.contents out.new)) }
{
    print_part(options, SureFolders(&report.findings), out)
}

/// The lines of findings of folders, where not all were read: not that a package has none.
#[derive(Clone, Copy)]
struct SureFolders<'a>(&'a Vec<FolderFinding<'a, 'a>>);

impl fmt::Display for SureFolders<'_> {
    ghost use Rattle.std.specs.Prelude.{Some, map};
    ghost use Rattle.cargo_lock_verify.specs.Vendored.{folder_finding_of};
    ghost use Rattle.cli_folder_commands.specs.Part.{sure_folder_lines};

    ghost output = { λ shown. Some (sure_folder_lines (map folder_finding_of shown.0.now.items)) };

    fn fmt<W: fmt::Write>(&self, f: &mut fmt::Formatter<W>) -> fmt::Result {
        let SureFolders(findings) = *self;
        for finding in findings {
            write_folder(finding, f)?;
        }
        Ok(())
    }
}

/// Writes the line of a finding of folders, unless it is that a package has none.
fn write_folder<W: fmt::Write>(
    finding: &FolderFinding<'_, '_>,
    f: &mut fmt::Formatter<W>,
) -> fmt::Result
    ensures { DisplaysOnOk W.write_str_gives f.old result
        (Some (sure_folder_line (folder_finding_of finding.now))) f.new }
{
    match finding {
        FolderFinding::NoFolder(_) => Ok(()),
        _ => write!(f, "{finding}\n"),
    }
}

// ---- licences

/// Prints what a report says of packages, where not all manifests were read, as `print_part` does.
pub(crate) fn print_sure_licenses<W: Write>(
    options: &ArgMatches<'_>,
    report: &cargo_lock_licenses::Report<'_, '_>,
    out: &mut W,
) -> Result<(), Fault>
    ensures { OnOk result (PrintsPart (found_of options.now)
        (sure_judged_lines (map judged_of report.now.judged.items))
        (W.contents out.old) (W.contents out.new)) }
{
    print_part(options, SureLicenses(&report.judged), out)
}

/// The lines of what is said of packages, where not all manifests were read: of those that are findings
/// whatever was not read.
#[derive(Clone, Copy)]
struct SureLicenses<'a>(&'a Vec<Judged<'a, 'a>>);

impl fmt::Display for SureLicenses<'_> {
    ghost use Rattle.std.specs.Prelude.{Some, map};
    ghost use Rattle.cargo_lock_licenses.specs.Judged.{judged_of};
    ghost use Rattle.cli_folder_commands.specs.Part.{sure_judged_lines};

    ghost output = { λ shown. Some (sure_judged_lines (map judged_of shown.0.now.items)) };

    fn fmt<W: fmt::Write>(&self, f: &mut fmt::Formatter<W>) -> fmt::Result {
        let SureLicenses(all) = *self;
        for judged in all {
            write_judged(judged, f)?;
        }
        Ok(())
    }
}

/// Writes the line of what is said of a package, if it is a finding whatever was not read.
fn write_judged<W: fmt::Write>(judged: &Judged<'_, '_>, f: &mut fmt::Formatter<W>) -> fmt::Result
    ensures { DisplaysOnOk W.write_str_gives f.old result
        (Some (sure_judged_line (judged_of judged.now))) f.new }
{
    if is_sure(judged.verdict) {
        write!(f, "{judged}\n")
    } else {
        Ok(())
    }
}

/// Whether a verdict is a finding whatever was not read.
fn is_sure(verdict: Verdict<'_, '_>) -> bool
    ensures { result ≡ spec.is_sure (verdict_of verdict.entry) }
{
    match verdict {
        Verdict::Allowed(_, _) | Verdict::NoManifest(_) => false,
        Verdict::NotAllowed(_, _) | Verdict::NoExpression(_, _) => true,
        Verdict::OnlyFile(_, _) | Verdict::NoLicense(_) | Verdict::Differ(_) => true,
    }
}

// ---- advisories

/// Prints the findings of a report by advisories, where not all were read, as `print_part` does.
pub(crate) fn print_sure_advisories<W: Write>(
    options: &ArgMatches<'_>,
    report: &cargo_lock_audit::Report<'_, '_, '_>,
    out: &mut W,
) -> Result<(), Fault>
    ensures { OnOk result (PrintsPart (found_of options.now)
        (advisory_findings_text (report_data_of report.now).findings)
        (W.contents out.old) (W.contents out.new)) }
{
    print_part(options, SureAdvisories(&report.findings), out)
}

/// The lines of findings of advisories, where not all were read.
#[derive(Clone, Copy)]
struct SureAdvisories<'a>(&'a Vec<cargo_lock_audit::Finding<'a, 'a>>);

impl fmt::Display for SureAdvisories<'_> {
    ghost use Rattle.std.specs.Prelude.{Some, map};
    ghost use Rattle.cargo_lock_audit.specs.Findings.{advisory_finding_of};
    ghost use Rattle.cargo_lock_audit.specs.Lines.{advisory_findings_text};

    ghost output = { λ shown.
        Some (advisory_findings_text (map advisory_finding_of shown.0.now.items)) };

    fn fmt<W: fmt::Write>(&self, f: &mut fmt::Formatter<W>) -> fmt::Result {
        let SureAdvisories(findings) = *self;
        for finding in findings {
            write!(f, "{finding}\n")?;
        }
        Ok(())
    }
}
