//! The command `audit`: which packages of a lockfile have a known vulnerability, by a folder of
//! advisories.
ghost use Rattle.std.specs.Prelude.{◌≡◌, IfOk, OnOk, codes, option_copied};
ghost use Rattle.std.specs.List.{list_any};
ghost use Rattle.clap.specs.Matches.{first_value, found_of};
ghost use Rattle.cargo_lock_audit.specs.Audited.{audited_of};
ghost use Rattle.cargo_lock_audit.specs.Database.{AreInOrderOfIds};
ghost use Rattle.cargo_lock_audit.specs.Report.{report_data_of};
ghost use Rattle.cargo_lock_audit.specs.Settings.{settings_of};
ghost use Rattle.cli_folder_commands.specs.Audit.{IsOlder, IsSomeDatabase, PrintsAudit};
ghost use Rattle.cli_folder_commands.specs.Audit.{PrintsAsAsked, PrintsAuditOf, PrintsAuditReport};
ghost use Rattle.cli_folder_commands.specs.Audit.{PrintsAuditSince, PrintsPartAsAsked};
ghost use Rattle.cli_folder_commands.specs.Audit.{PrintsPartOfAudit, packages_before};
ghost use Rattle.cli_input.specs.Told.{subject_of};

use crate::folders::folder;
use crate::part::print_sure_advisories;
use crate::reasoned::print_reasoned;
use crate::settings::settings_of;
use crate::texts;
use crate::texts::with_forms;
use crate::verify::status_of;
use cargo_lock::Lockfile;
use cargo_lock::package::Package;
use cargo_lock_audit::{Advisory, AdvisoryFile, Audited, Database, Report, Settings, database_of};
use clap::{Arg, ArgAction, ArgMatches, Command};
use cli_folders::{AdvisoryFiles, FirstFault, advisory_files, database_fault};
use cli_input::findings::print_findings;
use cli_input::load::{file, lockfile_with_text, named_lockfile};
use cli_input::subject::{Subject, report_path};
use cli_support::words::{any_size, is_standard, long_flag};
use cli_support::{Fault, words};
use std::alloc::{AllocError, Global};
use std::env::Env;
use std::io::{Input, Write};
use std::process::ExitCode;
use std::rt::Files;

/// The lines of `audit`, as help shows them.
const AUDIT_HELP: &str = "\
Each advisory that concerns a package of crates.io has a line, for each such package:
  ! NAME VERSION SRC: ID: TITLE; patched REQUIREMENT or REQUIREMENT
  ? NAME VERSION SRC: ID: KIND: TITLE; patched ..   it is informational, as `unmaintained`
  = NAME VERSION SRC: ID: ..                        either, and OLD of `--since` has it too
  - ID: nothing to ignore                           no package has this advisory
The last line says how many packages were compared with how many advisories of FOLDER, and how many \
were not, since they are neither of crates.io nor of a registry of `--registry`:
  39 packages of crates.io compared with 812 advisories; not compared: 2 from git
With `--why` the lines of `cargo-lock why` stand below each finding, without the first one:
    needed by NAME VERSION      a package that depends on the one of the line before
    nothing leads to it         no root does, and no package without a source

An advisory concerns a package with its name whose version lies in none of the requirements of \
`patched` and `unaffected`, by the precedence of SemVer: `1.6.1-rc.1` is before `1.6.1`. One that \
was withdrawn concerns none.

FOLDER is like a checkout of the database of RustSec: an advisory is a file \
FOLDER/crates/NAME/RUSTSEC-*.md. Those of names in the lockfile are read, and the others counted. \
If one does not read, or another file or folder lies beside it whose name begins with no dot, only \
what is found by the rest is printed, and if FOLDER has no advisory, nothing.

OLD has it too if the advisory concerns a package of OLD with that name, whatever its version.

The status is 1 where a line begins with `!`, and 2 where a lockfile, a folder or an advisory \
cannot be read, or a URL of `--registry` is none of a registry.";

/// The options, as help shows them.
const DATABASE_HELP: &str = "The folder of the advisories";

const IGNORE_HELP: &str =
    "Leaves out the advisory of this id or alias, and others that are given so";

const DENY_HELP: &str =
    "Counts informational advisories of this kind as vulnerabilities; warnings are all kinds";

const REGISTRY_HELP: &str =
    "Takes packages of this registry for those of crates.io; URL is as in a lockfile";

const SINCE_HELP: &str = "Counts only what this older lockfile does not have; - for standard input";

const WHY_HELP: &str = "Prints below each finding the packages through which it is needed";

/// The kinds of informational advisories that RustSec has, and the word for all of them.
const KINDS: [&str; 4] = ["unmaintained", "unsound", "notice", "warnings"];

/// The parser of this command: its options.
pub fn command<'a>(alloc: Global) -> Result<Command<'a>, AllocError> {
    let command = with_inputs(alloc)?;
    let command = with_settings(alloc, command)?;
    let command = command.arg(since_option(alloc))?;
    with_forms(alloc, command.arg(why_option(alloc)?)?)
}

/// The parser with the options for the lockfile and for the advisories.
fn with_inputs<'a>(alloc: Global) -> Result<Command<'a>, AllocError> {
    Command::new(alloc, "audit")
        .about("Prints the advisories that concern packages of a lockfile")
        .after_help(AUDIT_HELP)
        .arg(words::file(alloc))?
        .arg(any_size(alloc)?)?
        .arg(database_option(alloc))
}

/// The same with the options for settings.
fn with_settings<'a>(alloc: Global, command: Command<'a>) -> Result<Command<'a>, AllocError> {
    command
        .arg(texts::option(alloc, "ignore", "ID").help(IGNORE_HELP))?
        .arg(kinds_option(alloc))?
        .arg(texts::option(alloc, "registry", "URL").help(REGISTRY_HELP))
}

/// The option for the folder of the advisories.
fn database_option<'a>(alloc: Global) -> Arg<'a> {
    folder(alloc, "db").help(DATABASE_HELP).required(true)
}

/// The option for the kinds of informational advisories that are denied.
fn kinds_option<'a>(alloc: Global) -> Arg<'a> {
    texts::option(alloc, "deny", "KIND")
        .value_parser(KINDS.as_slice())
        .help(DENY_HELP)
}

/// The option for an older lockfile.
fn since_option<'a>(alloc: Global) -> Arg<'a> {
    Arg::new(alloc, "since")
        .long("since")
        .value_name("OLD")
        .allow_hyphen_values(true)
        .action(ArgAction::Set)
        .help(SINCE_HELP)
}

/// The option to print why packages are there. It is one of lines alone.
fn why_option<'a>(alloc: Global) -> Result<Arg<'a>, AllocError> {
    long_flag(alloc, "why")?
        .help(WHY_HELP)
        .conflicts_with("json")?
        .conflicts_with("format")
}

/// Prints which advisories concern packages of the lockfile, a line for each, and what was
/// compared, or, if the arguments ask for it, all as one line of JSON, or as a report. The status is 1
/// if one of them is a vulnerability or of a kind that is denied, and no older lockfile that the arguments
/// name has it too, and otherwise 0. Fails if a URL is none of a registry, if a lockfile, a folder or
/// an advisory is not read, or if `out` fails; a prefix of the text was then written in the last case.
/// Where an entry within the database is not read, the lines of what is found by the rest are written,
/// and nothing in the other cases.
pub fn run<R: Files + Input + Env + AllocGlobal, W: Write>(
    rt: &R,
    options: &ArgMatches<'_>,
    out: &mut W,
) -> Result<ExitCode, Fault>
    ensures { IfOk result (λ status. PrintsAudit (found_of options.now)
        (W.contents out.old) (W.contents out.new)
        (status ≡ ExitCode.FAILURE) (status ≡ ExitCode.SUCCESS)) }
{
    let settings = settings_of(rt.alloc(), options)?;
    check_inputs(options)?;
    let read = lockfile_with_text(rt, options, "file")?;
    let path = report_path(rt, options, words::given_path(options, "file"))?;
    let file = file(options, "file", &read.lockfile);
    let subject = Subject::of(&file, &path, &read);
    print_audit(rt, options, &settings, subject, out)
}

/// Refuses standard input for both lockfiles.
fn check_inputs(options: &ArgMatches<'_>) -> Result<(), Fault> {
    if is_standard(options, "file") && is_standard(options, "since") {
        return Err(Fault::OneInput);
    }
    Ok(())
}

/// Prints which advisories concern packages of this lockfile, by settings. Returns the status.
fn print_audit<R: Files + Input + AllocGlobal, W: Write>(
    rt: &R,
    options: &ArgMatches<'_>,
    settings: &Settings,
    subject: Subject<'_>,
    out: &mut W,
) -> Result<ExitCode, Fault>
    ensures { IfOk result (λ status. PrintsAuditSince (found_of options.now)
        (settings_of settings.now) (subject_of subject.entry)
        (W.contents out.old) (W.contents out.new)
        (status ≡ ExitCode.FAILURE) (status ≡ ExitCode.SUCCESS)) }
{
    let older = older_lockfile(rt, options)?;
    let audited = audited_since(subject.packages, &older);
    print_audited(rt, options, settings, subject, &audited, out)
}

/// The older lockfile, if the arguments name one. Fails if it is not read.
fn older_lockfile<R: Files + Input + AllocGlobal>(
    rt: &R,
    options: &ArgMatches<'_>,
) -> Result<Option<Lockfile>, Fault>
    ensures { IfOk result
        (λ older. IsOlder (first_value (found_of options.now) (codes "since")) older) }
{
    match options.get_str("since") {
        Some(_) => Ok(Some(named_lockfile(rt, options, "since")?)),
        None => Ok(None),
    }
}

/// What is audited: these packages, since an older lockfile if there is one.
fn audited_since<'p>(packages: &'p [Package], older: &'p Option<Lockfile>) -> Audited<'p>
    ensures packages { result.packages.now ≡ packages.now }
    ensures older { option_copied result.older ≡ packages_before older.now }
{
    let before = packages_before(older);
    Audited {
        packages,
        older: before,
    }
}

/// The packages of a lockfile, if there is one.
fn packages_before(lockfile: &Option<Lockfile>) -> Option<&[Package]>
    ensures { option_copied result ≡ packages_before lockfile.now }
{
    match lockfile {
        Some(lockfile) => Some(lockfile.packages.as_slice()),
        None => None,
    }
}

/// Prints which advisories concern what is audited, by settings. Returns the status. Where some of the
/// database is not read, what is found by the rest is printed first.
fn print_audited<R: Files + AllocGlobal, W: Write>(
    rt: &R,
    options: &ArgMatches<'_>,
    settings: &Settings,
    subject: Subject<'_>,
    audited: &Audited<'_>,
    out: &mut W,
) -> Result<ExitCode, Fault>
    ensures { IfOk result (λ status. PrintsAuditOf (found_of options.now)
        (settings_of settings.now) (subject_of subject.entry) (audited_of audited.now)
        (W.contents out.old) (W.contents out.new)
        (status ≡ ExitCode.FAILURE) (status ≡ ExitCode.SUCCESS)) }
{
    let alloc = rt.alloc();
    let folder = options.get_str("db").unwrap_or("");
    let mut first = FirstFault::none();
    let database = database_in(rt, folder, audited.packages, &mut first)?;
    match first.fault {
        Some(fault) => {
            print_part_of_audit(alloc, options, settings, audited, &database, out)?;
            Err(fault)
        }
        None => print_report(alloc, options, settings, subject, audited, &database, out),
    }
}

/// The database in a folder, with the advisories about packages with the name of one of these. Where
/// one is not read, its fault is kept.
fn database_in<R: Files + AllocGlobal>(
    rt: &R,
    folder: &str,
    packages: &[Package],
    first: &mut FirstFault,
) -> Result<Database, Fault>
    ensures { IfOk result (λ database. IsSomeDatabase database.advisories.items database.size) }
{
    let AdvisoryFiles { wanted, count } = advisory_files(rt, folder, packages, first)?;
    let advisories = advisories_of(rt.alloc(), wanted)?;
    Ok(Database {
        advisories,
        size: count,
    })
}

/// The advisories of files, in the order of their ids.
fn advisories_of(alloc: Global, files: Vec<AdvisoryFile>) -> Result<Vec<Advisory>, Fault>
    ensures { IfOk result (λ advisories. AreInOrderOfIds advisories.items) }
{
    match database_of(alloc, files) {
        Ok(advisories) => Ok(advisories),
        Err(fault) => Err(database_fault(alloc, &fault)),
    }
}

/// Prints what is found by the advisories of this database, where some were not read.
fn print_part_of_audit<W: Write>(
    alloc: Global,
    options: &ArgMatches<'_>,
    settings: &Settings,
    audited: &Audited<'_>,
    database: &Database,
    out: &mut W,
) -> Result<(), Fault>
    ensures { OnOk result (PrintsPartOfAudit (found_of options.now) (settings_of settings.now)
        (audited_of audited.now) database.now.advisories.items database.now.size
        (W.contents out.old) (W.contents out.new)) }
{
    let report = Report::of(alloc, audited, database, settings)?;
    print_part_as_asked(alloc, options, audited.packages, &report, out)
}

/// Prints the findings of a report on packages, with why the package of each is there if the arguments
/// ask for that.
fn print_part_as_asked<W: Write>(
    alloc: Global,
    options: &ArgMatches<'_>,
    packages: &[Package],
    report: &Report<'_, '_, '_>,
    out: &mut W,
) -> Result<(), Fault>
    ensures { OnOk result (PrintsPartAsAsked (found_of options.now) packages.now
        (report_data_of report.now) (W.contents out.old) (W.contents out.new)) }
{
    if options.get_flag("why") {
        print_reasoned(alloc, packages, report, false, out)
    } else {
        print_sure_advisories(options, report, out)
    }
}

/// Prints which advisories of this database concern what is audited. Returns the status.
fn print_report<W: Write>(
    alloc: Global,
    options: &ArgMatches<'_>,
    settings: &Settings,
    subject: Subject<'_>,
    audited: &Audited<'_>,
    database: &Database,
    out: &mut W,
) -> Result<ExitCode, Fault>
    ensures { IfOk result (λ status. PrintsAuditReport (found_of options.now)
        (settings_of settings.now) (subject_of subject.entry) (audited_of audited.now)
        database.now.advisories.items database.now.size (W.contents out.old) (W.contents out.new)
        (status ≡ ExitCode.FAILURE) (status ≡ ExitCode.SUCCESS)) }
{
    let report = Report::of(alloc, audited, database, settings)?;
    print_as_asked(alloc, options, subject, &report, out)?;
    Ok(status_of(!is_denied(&report)))
}

/// Prints a report, with why the package of each finding is there if the arguments ask for that.
fn print_as_asked<W: Write>(
    alloc: Global,
    options: &ArgMatches<'_>,
    subject: Subject<'_>,
    report: &Report<'_, '_, '_>,
    out: &mut W,
) -> Result<(), Fault>
    ensures { OnOk result (PrintsAsAsked (found_of options.now) (subject_of subject.entry)
        (report_data_of report.now) (W.contents out.old) (W.contents out.new)) }
{
    if options.get_flag("why") {
        print_reasoned(alloc, subject.packages, report, true, out)
    } else {
        print_findings(alloc, options, subject, report, out)
    }
}

/// Whether a finding is denied.
fn is_denied(report: &Report<'_, '_, '_>) -> bool
    ensures { result ≡ list_any (λ f. f.is_denied) (report_data_of report.now).findings }
{
    report.is_denied()
}
