//! The command `licenses`: what the manifests of packages say of their licences, and which of them
//! are not allowed.
ghost use Rattle.std.specs.Prelude.{◌≡◌, IfOk, OnOk, map};
ghost use Rattle.clap.specs.Matches.{found_of};
ghost use Rattle.cargo_lock_licenses.specs.Judged.{judged_of};
ghost use Rattle.cargo_lock_licenses.specs.Policy as spec;
ghost use Rattle.cargo_lock_licenses.specs.Subjects.{license_subject_of};
ghost use Rattle.cli_folder_commands.specs.Licenses.{AreLicenseCounts, AreLicensed};
ghost use Rattle.cli_folder_commands.specs.Licenses.{PrintsLicenseReport, PrintsLicenses};
ghost use Rattle.cli_folder_commands.specs.Licenses.{PrintsLicensesOf, PrintsPartOfLicenses};
ghost use Rattle.cli_input.specs.Told.{subject_of};

use crate::folders::manifests;
use crate::part::print_sure_licenses;
use crate::policy::policy_of;
use crate::texts;
use crate::texts::with_forms;
use cargo_lock::package::Package;
use cargo_lock_licenses::{Policy, Report};
use clap::{ArgMatches, Command};
use cli_folders::{FirstFault, Manifests};
use cli_input::findings::print_findings;
use cli_input::load::{file, lockfile_with_text};
use cli_input::subject::{Subject, report_path};
use cli_support::words::any_size;
use cli_support::{Fault, words};
use std::alloc::{AllocError, Global};
use std::env::Env;
use std::io::{Input, Write};
use std::rt::Files;

/// The lines of `licenses`, as help shows them.
const LICENSES_HELP: &str = "\
Each package with a source has a line, by the field `license` of its manifest:
  NAME VERSION SRC: EXPRESSION                      it is allowed
  ! NAME VERSION SRC: EXPRESSION is not allowed
  ! NAME VERSION SRC: `TEXT` is no expression
  ! NAME VERSION SRC: no licence                    the manifest has no such field
  ! NAME VERSION SRC: only a file: `PATH`           it has `license-file` in place of it
  ! NAME VERSION SRC: no manifest
  ! NAME VERSION SRC: manifests differ              there are several, which say different things
  - TERM: nothing to allow                          no expression has this term of --allow
  - NAME@VERSION=EXPRESSION: no such package        so for --exempt; there is none with a source
Behind a line is ` (given)` where the expression is that of --license, or \
` (given; its manifest says TEXT)`.

An expression joins terms by AND and by OR, or by `/` as in old manifests; AND binds more tightly. A \
term is a name, or `NAME WITH NAME`. It is allowed if it is one of the TERMs to the letter, an AND \
if both sides are, and an OR if one is. Without --allow each expression is allowed; --exempt adds to \
the TERMs for one package. No list of licences is built in.

FOLDER is the one that `cargo vendor` made, registry/src of Cargo, or an index folder in it. The \
manifest of a package has its name and version; in a folder of Cargo it is the one of the folder \
NAME-VERSION. Links are not followed.

On standard error is a line of counts, where anything is found or it is a terminal. The status is 1 \
where a line begins with `!`, and 2 where the lockfile, a folder or a manifest \
cannot be read, where no manifest is of a package, and where there may be one that was not read. By \
those that were read only lines with `!` are printed then, and not `no manifest`.";

/// The options, as help shows them.
const MANIFESTS_HELP: &str = "The folder of `cargo vendor`, or registry/src of Cargo";

const ALLOW_HELP: &str = "Allows this term, and others that are given so";

const LICENSE_HELP: &str = "Takes this expression in place of what the manifest says";

const EXEMPT_HELP: &str = "Allows this term for this package alone";

/// The parser of this command: its options.
pub fn command<'a>(alloc: Global) -> Result<Command<'a>, AllocError> {
    let command = with_inputs(alloc)?;
    let command = with_policy(alloc, command)?;
    with_forms(alloc, command)
}

/// The parser with the options for the lockfile and for the manifests.
fn with_inputs<'a>(alloc: Global) -> Result<Command<'a>, AllocError> {
    Command::new(alloc, "licenses")
        .about("Prints the licences of packages, and which are not allowed")
        .after_help(LICENSES_HELP)
        .arg(words::file(alloc))?
        .arg(any_size(alloc)?)?
        .arg(manifests(alloc, MANIFESTS_HELP).required(true))
}

/// The same with the options for the policy.
fn with_policy<'a>(alloc: Global, command: Command<'a>) -> Result<Command<'a>, AllocError> {
    command
        .arg(texts::option(alloc, "allow", "TERM").help(ALLOW_HELP))?
        .arg(texts::option(alloc, "license", "NAME@VERSION=EXPRESSION").help(LICENSE_HELP))?
        .arg(texts::option(alloc, "exempt", "NAME[@VERSION]=TERM").help(EXEMPT_HELP))
}

/// How much was looked at, and how much was found.
#[derive(Clone, Copy)]
pub struct Counts {
    /// How many packages with a source there are.
    pub packages: usize,

    /// How many of them are findings.
    pub findings: usize,
}

/// Prints what is found of the licences of the packages of the lockfile, a line for each, or, if
/// the arguments ask for it, all as one line of JSON, or as a report. Returns how many packages were
/// looked at, and how many of them are not allowed or not known. Fails if words of the arguments, the
/// lockfile, a folder or a manifest are not read, or if `out` fails; a prefix of the text was then
/// written in the last case. Where a folder or manifest within the folder that the arguments name is not
/// read, the lines of packages that are findings in any case are written, and nothing in the other cases.
pub fn run<R: Files + Input + Env + AllocGlobal, W: Write>(
    rt: &R,
    options: &ArgMatches<'_>,
    out: &mut W,
) -> Result<Counts, Fault>
    ensures { IfOk result (λ counts. PrintsLicenses (found_of options.now)
        (W.contents out.old) (W.contents out.new) counts) }
{
    let policy = policy_of(rt.alloc(), options)?;
    let read = lockfile_with_text(rt, options, "file")?;
    let path = report_path(rt, options, words::given_path(options, "file"))?;
    let file = file(options, "file", &read.lockfile);
    let subject = Subject::of(&file, &path, &read);
    print_licenses(rt, options, &policy, subject, out)
}

/// Prints what is found of the licences of these packages by a policy. Returns how much that is. Where
/// some manifests are not read, what is found in any case is printed first.
fn print_licenses<R: Files + AllocGlobal, W: Write>(
    rt: &R,
    options: &ArgMatches<'_>,
    policy: &Policy,
    subject: Subject<'_>,
    out: &mut W,
) -> Result<Counts, Fault>
    ensures { IfOk result (λ counts. PrintsLicensesOf (found_of options.now)
        (spec.policy_of policy.now) (subject_of subject.entry)
        (W.contents out.old) (W.contents out.new) counts) }
{
    let mut first = FirstFault::none();
    let subjects = subjects_of(rt, options, subject.packages, &mut first)?;
    match first.fault {
        Some(fault) => {
            print_part_of_licenses(rt.alloc(), options, policy, &subjects, out)?;
            Err(fault)
        }
        None => print_report(rt.alloc(), options, policy, subject, &subjects, out),
    }
}

/// The packages, each with what its manifests say in the folder that the arguments name.
fn subjects_of<'a, R: Files + AllocGlobal>(
    rt: &R,
    options: &ArgMatches<'_>,
    packages: &'a [Package],
    first: &mut FirstFault,
) -> Result<Vec<cargo_lock_licenses::Subject<'a>>, Fault>
    ensures { IfOk result
        (λ subjects. AreLicensed packages.now (map license_subject_of subjects.items)) }
{
    let folder = options.get_str("manifests").unwrap_or("");
    subjects_in(rt, folder, packages, first)
}

/// The packages, each with what its manifests say in a folder. Where one is not read, its fault is kept.
pub(crate) fn subjects_in<'a, R: Files + AllocGlobal>(
    rt: &R,
    folder: &str,
    packages: &'a [Package],
    first: &mut FirstFault,
) -> Result<Vec<cargo_lock_licenses::Subject<'a>>, Fault>
    ensures { IfOk result
        (λ subjects. AreLicensed packages.now (map license_subject_of subjects.items)) }
{
    let manifests = Manifests::of(rt, folder, packages, first)?;
    let subjects = licensed(rt.alloc(), &manifests, packages)?;
    Ok(subjects)
}

/// The packages, each with what its manifests say.
fn licensed<'a>(
    alloc: Global,
    folder: &Manifests,
    packages: &'a [Package],
) -> Result<Vec<cargo_lock_licenses::Subject<'a>>, AllocError>
    ensures { IfOk result
        (λ subjects. AreLicensed packages.now (map license_subject_of subjects.items)) }
{
    let mut subjects = Vec::with_capacity(alloc, packages.len())?;
    for package in packages {
        let manifests = folder.of_package(alloc, package)?;
        subjects.push(cargo_lock_licenses::Subject { package, manifests })?;
    }
    Ok(subjects)
}

/// Prints what is found of these subjects by a policy in any case, where some manifests were not read.
fn print_part_of_licenses<W: Write>(
    alloc: Global,
    options: &ArgMatches<'_>,
    policy: &Policy,
    subjects: &[cargo_lock_licenses::Subject<'_>],
    out: &mut W,
) -> Result<(), Fault>
    ensures { OnOk result (PrintsPartOfLicenses (found_of options.now) (spec.policy_of policy.now)
        (map license_subject_of subjects.now) (W.contents out.old) (W.contents out.new)) }
{
    let report = Report::of(alloc, subjects, policy)?;
    print_sure_licenses(options, &report, out)
}

/// Prints what is found of these subjects by a policy. Returns how much that is.
fn print_report<W: Write>(
    alloc: Global,
    options: &ArgMatches<'_>,
    policy: &Policy,
    subject: Subject<'_>,
    subjects: &[cargo_lock_licenses::Subject<'_>],
    out: &mut W,
) -> Result<Counts, Fault>
    ensures { IfOk result (λ counts. PrintsLicenseReport (found_of options.now)
        (spec.policy_of policy.now) (subject_of subject.entry) (map license_subject_of subjects.now)
        (W.contents out.old) (W.contents out.new) counts) }
{
    let report = Report::of(alloc, subjects, policy)?;
    print_findings(alloc, options, subject, &report, out)?;
    Ok(counts_of(&report))
}

/// How much is in a report.
fn counts_of(report: &Report<'_, '_>) -> Counts
    ensures { AreLicenseCounts (map judged_of report.now.judged.items) result }
{
    Counts {
        packages: report.judged.len(),
        findings: report.count_of_findings(),
    }
}
