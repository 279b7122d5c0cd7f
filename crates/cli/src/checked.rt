//! What the command `check` finds in the text of a lockfile.
ghost use Rattle.std.specs.Prelude.{◌≡◌, ◌∷◌, [], IfOk};
ghost use Rattle.clap.specs.Matches.{found_of};
ghost use Rattle.cli.specs.Check.{CheckedData, IsCheckedLockfile, IsCheckedOne, IsCheckedTable};
ghost use Rattle.cli.specs.Check.{IsCheckedText, named_of};
ghost use Rattle.cli.specs.Check as spec;
ghost use Rattle.cli_input.specs.Told.{IsToldAs};
ghost use Rattle.cli_input.specs.declared.findings.Form as declared;

use crate::refused::checked_table;
use cargo_lock::{Error, Lockfile};
use cargo_lock_check::{Findings, PlacedFinding, findings_json, reported_findings};
use cargo_lock_display::File;
use cargo_lock_location::PackageLines;
use cargo_lock_report::Reported;
use clap::ArgMatches;
use cli_input::findings::{Form, Told};
use cli_input::load::{allowed_lockfile, beyond_limit, file_at, refusal};
use cli_input::subject::Subject;
use cli_support::Fault;
use printing::Shown;
use std::alloc::{AllocError, Global};
use std::fmt;

/// The names of a lockfile: the argument for it, its path as it is printed, and what comes before
/// its lines.
#[derive(Clone, Copy)]
pub(crate) struct Named<'a> {
    /// The argument.
    pub argument: &'a str,

    /// The path, as reports have it.
    pub path: &'a str,

    /// The path that comes before each line, where there are several lockfiles, or `--name` gives it.
    pub prefix: Option<&'a str>,
}

impl<'a> Named<'a> {
    // What messages of faults call the lockfile.
    fn in_messages(self) -> &'a str {
        self.prefix.unwrap_or(self.argument)
    }
}

/// What is found in lockfiles, as it is printed.
#[derive(Drop)]
pub(crate) struct Checked {
    /// What is printed of it.
    pub told: Told,

    /// How many packages were looked at.
    pub packages: usize,

    /// How much was found.
    pub findings: usize,
}

impl Checked {
    /// What is found in one lockfile.
    pub(crate) fn of_one(told: Told, packages: usize, findings: usize) -> Checked
        ensures { (form : declared.Form) (c : CheckedData) → IsToldAs form (c.found ∷ []) told
            → packages ≡ c.packages → findings ≡ c.count → IsCheckedOne form c result }
    {
        Checked {
            told,
            packages,
            findings,
        }
    }
}

/// What is wrong with a text, in this form: with the lockfile that it is, or else what keeps its
/// table from being one. Fails if the lockfile is beyond the limit that the options do not lift, and
/// if the text is no table, or nothing of that is found in it.
pub(crate) fn checked_text(
    alloc: Global,
    options: &ArgMatches<'_>,
    form: Form,
    named: Named<'_>,
    text: &str,
) -> Result<Checked, Fault>
    ensures { IfOk result (λ checked. (c : CheckedData)
        × IsCheckedText (found_of options.now) (named_of named.entry) text.now c
        × IsCheckedOne form c checked) }
{
    match allowed_lockfile(alloc, options, text) {
        Ok(Some(lockfile)) => checked_lockfile(alloc, form, named, text, &lockfile),
        Ok(None) => Err(beyond_limit(alloc, named.in_messages())),
        Err(error) => checked_refused(alloc, form, named, text, error),
    }
}

/// What keeps a text from being read, where its table says it. Fails with the error of reading it,
/// which is this one, where the text is no table or nothing is found in it.
fn checked_refused(
    alloc: Global,
    form: Form,
    named: Named<'_>,
    text: &str,
    error: Error,
) -> Result<Checked, Fault>
    ensures { IfOk result (λ checked. (c : CheckedData)
        × IsCheckedTable (named_of named.entry) text.now c × IsCheckedOne form c checked) }
{
    let Error::Parse(_) = &error else {
        return Err(refusal(alloc, named.in_messages(), text, error));
    };
    match checked_table(alloc, form, named, text)? {
        Some(checked) => Ok(checked),
        None => Err(refusal(alloc, named.in_messages(), text, error)),
    }
}

/// What is wrong with a lockfile that was read from a text.
fn checked_lockfile(
    alloc: Global,
    form: Form,
    named: Named<'_>,
    text: &str,
    lockfile: &Lockfile,
) -> Result<Checked, Fault>
    ensures { IfOk result (λ checked. (c : CheckedData)
        × IsCheckedLockfile (named_of named.entry) text.now lockfile.now c
        × IsCheckedOne form c checked) }
{
    let findings = Findings::of(alloc, text, lockfile)?;
    Ok(checked_findings(alloc, form, named, text, lockfile, &findings)?)
}

/// What is wrong with a lockfile, of which this is found.
fn checked_findings(
    alloc: Global,
    form: Form,
    named: Named<'_>,
    text: &str,
    lockfile: &Lockfile,
    findings: &Findings<'_>,
) -> Result<Checked, AllocError>
    ensures { IfOk result (λ checked. IsCheckedOne form
        (spec.checked_lockfile (named_of named.entry) text.now lockfile.now findings.now)
        checked) }
{
    let placed = findings.placed(alloc)?;
    let file = file_at(named.argument, lockfile.version);
    let subject = Subject {
        file: &file,
        path: named.path,
        text,
        packages: lockfile.packages.as_slice(),
    };
    let all = AllPlaced {
        prefix: named.prefix,
        findings: placed.as_slice(),
    };
    let told = Told::of(alloc, form, subject, &all)?;
    Ok(Checked {
        told,
        packages: findings.packages.len(),
        findings: placed.len(),
    })
}

/// The findings of a lockfile. `Display` writes them in their order, each with its newline, and
/// behind a path if there is one.
#[derive(Clone, Copy)]
struct AllPlaced<'a, 'f> {
    prefix: Option<&'a str>,
    findings: &'a [PlacedFinding<'f>],
}

impl fmt::Display for AllPlaced<'_, '_> {
    ghost use Rattle.std.specs.Prelude.{Some, map, option_map};
    ghost use Rattle.cargo_lock_check.specs.Findings.{placed_finding_of};
    ghost use Rattle.cli.specs.Check.{placed_text};

    ghost output = { λ all. Some (placed_text (option_map (λ t. t.now) all.prefix)
        (map placed_finding_of all.findings.now)) };

    fn fmt<W: fmt::Write>(&self, f: &mut fmt::Formatter<W>) -> fmt::Result {
        let AllPlaced { prefix, findings } = *self;
        let prefix = Prefix(prefix);
        for finding in findings {
            write!(f, "{prefix}{finding}\n")?;
        }
        Ok(())
    }
}

impl cli_input::findings::Findings for AllPlaced<'_, '_> {
    ghost use Rattle.std.specs.Prelude.{map};
    ghost use Rattle.cargo_lock_check.specs.Document.{findings_json};
    ghost use Rattle.cargo_lock_check.specs.Findings.{placed_finding_of};
    ghost use Rattle.cargo_lock_check.specs.Reporting.{reported_findings};

    ghost json = { λ file lines all.
        findings_json file lines (map placed_finding_of all.findings.now) };

    ghost reported = { λ path lines all.
        reported_findings path lines (map placed_finding_of all.findings.now) };

    fn document(
        &self,
        alloc: Global,
        file: &File<'_>,
        lines: &PackageLines<'_>,
    ) -> Result<String, AllocError> {
        findings_json(alloc, file, self.findings, lines)
    }

    fn reports(
        &self,
        alloc: Global,
        path: &str,
        lines: &PackageLines<'_>,
    ) -> Result<Vec<Reported>, AllocError> {
        reported_findings(alloc, path, self.findings, lines)
    }
}

/// What comes before a line. `Display` writes the path and `: `, or nothing.
#[derive(Clone, Copy)]
pub(crate) struct Prefix<'a>(pub(crate) Option<&'a str>);

impl fmt::Display for Prefix<'_> {
    ghost use Rattle.std.specs.Prelude.{Some, option_map};
    ghost use Rattle.cli.specs.Check.{prefix_text};

    ghost output = { λ prefix. Some (prefix_text (option_map (λ t. t.now) prefix.0)) };

    fn fmt<W: fmt::Write>(&self, f: &mut fmt::Formatter<W>) -> fmt::Result {
        match self.0 {
            Some(path) => {
                let path = Shown(path);
                write!(f, "{path}: ")
            }
            None => Ok(()),
        }
    }
}
