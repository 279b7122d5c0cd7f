//! The command `verify`: whether the archives of packages are those that a lockfile names, or the
//! folders that `cargo vendor` made are as their lists say.
ghost use Rattle.std.specs.Prelude.{◌≡◌, IfOk, OnOk, codes, false, map, true};
ghost use Rattle.clap.specs.Matches.{found_of};
ghost use Rattle.cargo_lock_verify.specs.Archives.{archive_subject_of, cache_of};
ghost use Rattle.cargo_lock_verify.specs.Entries.{vendored_entry};
ghost use Rattle.cargo_lock_verify.specs.Vendored.{vendored_of};
ghost use Rattle.cli_folder_commands.specs.Verify as spec;
ghost use Rattle.cli_folder_commands.specs.Verify.{AreSubjectsOf, AreVendoredOf, PrintsArchivesOf};
ghost use Rattle.cli_folder_commands.specs.Verify.{PrintsFoldersOf, PrintsPartOfArchives};
ghost use Rattle.cli_folder_commands.specs.Verify.{PrintsPartOfFolders, PrintsReport};
ghost use Rattle.cli_folder_commands.specs.Verify.{PrintsVendorReport, PrintsVerified, PrintsVerifiedOf};
ghost use Rattle.cli_input.specs.Told.{subject_of};

use crate::folders::{cache, check_folder, vendor};
use crate::part::{print_sure_archives, print_sure_folders};
use crate::texts;
use crate::texts::with_forms;
use cargo_lock::package::Package;
use cargo_lock_verify::{Archive, Cache, Entry, Folder, Others, Report, VendorReport, Vendored};
use clap::{Arg, ArgMatches, Command};
use cli_folders::{Entries, FirstFault, Vendor};
use cli_input::findings::print_findings;
use cli_input::load::{compared_with_text, file};
use cli_input::subject::{Subject, report_path};
use cli_support::words::{any_size, long_flag};
use cli_support::{Fault, words};
use std::alloc::{AllocError, Global};
use std::env::Env;
use std::io::{Input, Write};
use std::process::ExitCode;
use std::rt::Files;

/// The lines of `verify`, as help shows them.
const VERIFY_HELP: &str = "\
With --cache, the archive of a package is NAME-VERSION.crate, in FOLDER or in a folder in it. Each \
package with a checksum has an archive with that SHA-256, wherever it lies, or a line:
  ! NAME VERSION SRC: `PATH` is DIGEST, not CHECKSUM    of no package of that name and version
  - NAME VERSION SRC: no archive                        none has it; counts with --all
  ! NAME VERSION SRC: no checksum in the lockfile       of a registry, and only with --all
A line with `!` is of an archive in FOLDER itself, or in a folder HOST-HASH whose HOST is that of the \
package's registry (github.com and index.crates.io for crates.io) or of a --mirror. In other folders \
archives with another digest are passed over and counted. \
Cargo compares an archive with its checksum once, when it downloads it. The unpacked sources that \
Cargo compiles, in registry/src, are not looked at.

With --vendor, the folder of a package with a source is the one in FOLDER whose manifest has its \
name and version. It is as its .cargo-checksum.json says, or there are lines:
  ! NAME VERSION SRC: no checksum in the lockfile       of a registry
  - NAME VERSION SRC: no folder
  ! NAME VERSION SRC: `FOLDER` has the archive DIGEST, not CHECKSUM
  - NAME VERSION SRC: `FILE` is missing
  ! NAME VERSION SRC: `FILE` is DIGEST, not DIGEST      the second is that of the list
  + NAME VERSION SRC: `FILE` is not in the list
  ! NAME VERSION SRC: `FILE` is a link
That a folder is as its list says does not show that its files are those of the archive. Cargo \
passes over an entry of FOLDER whose name begins with a dot, a file, and a folder without a \
Cargo.toml. Any other that is no folder of a package has a line:
  ! `ENTRY`: a link
  ! `ENTRY`: its manifest is a link
  ! `ENTRY`: no name and version                        as texts in package of its manifest
  + `ENTRY`: of no package                              not with --others

The last line is how many archives or folders match, how many packages do not, by why, and how many \
archives are passed over. The \
status is 1 where there is a line that counts, or no archive matches of packages of a registry, and \
2 where the lockfile, an archive or a folder cannot be read. What is found of the rest of FOLDER is \
printed then too, but no last line, and not that a package has no archive or folder.";

/// The options, as help shows them.
const CACHE_HELP: &str = "The folder of the archives, as registry/cache of Cargo";

const ALL_HELP: &str = "Counts packages without an archive or a checksum too";

const MIRROR_HELP: &str = "Takes archives of this host for those of each registry";

const OTHERS_HELP: &str = "Passes over folders of packages that the lockfile does not have";

/// The parser of this command: its options.
pub fn command<'a>(alloc: Global) -> Result<Command<'a>, AllocError> {
    let command = with_inputs(alloc)?;
    let command = with_judgement(alloc, command)?;
    with_forms(alloc, command)
}

/// The parser with the options for the lockfile and for the folders.
fn with_inputs<'a>(alloc: Global) -> Result<Command<'a>, AllocError> {
    Command::new(alloc, "verify")
        .about("Compares archives, or vendored folders, with the checksums of a lockfile")
        .after_help(VERIFY_HELP)
        .arg(words::file(alloc))?
        .arg(any_size(alloc)?)?
        .arg(cache(alloc, CACHE_HELP))?
        .arg(vendor(alloc)?)
}

/// The same with the options for what counts.
fn with_judgement<'a>(alloc: Global, command: Command<'a>) -> Result<Command<'a>, AllocError> {
    command
        .arg(all(alloc)?)?
        .arg(mirror(alloc)?)?
        .arg(others(alloc)?)
}

/// The option for the hosts of mirrors.
fn mirror<'a>(alloc: Global) -> Result<Arg<'a>, AllocError> {
    texts::option(alloc, "mirror", "HOST")
        .help(MIRROR_HELP)
        .conflicts_with("vendor")
}

/// The option to pass over folders of other packages.
fn others<'a>(alloc: Global) -> Result<Arg<'a>, AllocError> {
    long_flag(alloc, "others")?
        .help(OTHERS_HELP)
        .conflicts_with("cache")
}

/// The option to count packages without an archive or a checksum.
fn all<'a>(alloc: Global) -> Result<Arg<'a>, AllocError> {
    long_flag(alloc, "all")?
        .help(ALL_HELP)
        .conflicts_with("vendor")
}

/// Prints which packages of the lockfile have no archive with their checksum, or no folder that is
/// as its list says, which other entries of the folder Cargo may read, and how many packages are in
/// each class, or, if the arguments ask for it, all as one line of JSON, or as a report. The status is
/// 1 if something that counts is found, and otherwise 0. Fails if the arguments name no folder, if the
/// lockfile, a folder or a file is not read, or if `out` fails; a prefix of the text was then written in
/// the last case. Where a file or folder within the one that the arguments name is not read, the lines of
/// what is found of the rest are written, and nothing in the other cases.
pub fn run<R: Files + Input + Env + AllocGlobal, W: Write>(
    rt: &R,
    options: &ArgMatches<'_>,
    out: &mut W,
) -> Result<ExitCode, Fault>
    ensures { IfOk result (λ status. PrintsVerified (found_of options.now)
        (W.contents out.old) (W.contents out.new)
        (status ≡ ExitCode.FAILURE) (status ≡ ExitCode.SUCCESS)) }
{
    check_folder(options)?;
    let read = compared_with_text(rt, options, "file")?;
    let path = report_path(rt, options, words::given_path(options, "file"))?;
    let file = file(options, "file", &read.lockfile);
    let subject = Subject::of(&file, &path, &read);
    print_verified(rt, options, subject, out)
}

/// Prints what is found of the packages of a lockfile. Returns the status.
fn print_verified<R: Files + AllocGlobal, W: Write>(
    rt: &R,
    options: &ArgMatches<'_>,
    subject: Subject<'_>,
    out: &mut W,
) -> Result<ExitCode, Fault>
    ensures { IfOk result (λ status. PrintsVerifiedOf (found_of options.now)
        (subject_of subject.entry) (W.contents out.old) (W.contents out.new)
        (status ≡ ExitCode.FAILURE) (status ≡ ExitCode.SUCCESS)) }
{
    match options.get_str("vendor") {
        Some(folder) => print_vendored(rt, options, subject, folder, out),
        None => print_archives(rt, options, subject, out),
    }
}

/// Prints what is found of the folders of the packages in this folder. Returns the status. Where some of
/// it is not read, what is found of the rest is printed first.
fn print_vendored<R: Files + AllocGlobal, W: Write>(
    rt: &R,
    options: &ArgMatches<'_>,
    subject: Subject<'_>,
    folder: &str,
    out: &mut W,
) -> Result<ExitCode, Fault>
    ensures { IfOk result (λ status. PrintsFoldersOf (found_of options.now)
        (subject_of subject.entry) (W.contents out.old) (W.contents out.new)
        (status ≡ ExitCode.FAILURE) (status ≡ ExitCode.SUCCESS)) }
{
    let mut first = FirstFault::none();
    let vendor = Vendor::of(rt, folder, &mut first)?;
    let vendored = vendored_with(rt, &vendor, subject.packages, &mut first)?;
    let entries = vendor.entries();
    match first.fault {
        Some(fault) => {
            print_part_of_folders(rt.alloc(), options, &vendored, entries, out)?;
            Err(fault)
        }
        None => print_vendor_report(rt.alloc(), options, subject, &vendored, entries, out),
    }
}

/// Prints what is found of the archives of the packages. Returns the status. Where some of them are not
/// read, what is found of the rest is printed first.
fn print_archives<R: Files + AllocGlobal, W: Write>(
    rt: &R,
    options: &ArgMatches<'_>,
    subject: Subject<'_>,
    out: &mut W,
) -> Result<ExitCode, Fault>
    ensures { IfOk result (λ status. PrintsArchivesOf (found_of options.now)
        (subject_of subject.entry) (W.contents out.old) (W.contents out.new)
        (status ≡ ExitCode.FAILURE) (status ≡ ExitCode.SUCCESS)) }
{
    let mut first = FirstFault::none();
    let subjects = subjects_of(rt, options, subject.packages, &mut first)?;
    match first.fault {
        Some(fault) => {
            print_part_of_archives(rt.alloc(), options, &subjects, out)?;
            Err(fault)
        }
        None => print_archive_report(rt.alloc(), options, subject, &subjects, out),
    }
}

/// The packages, each with its folders. Where one of these is not read, there are none, and its fault is
/// kept.
fn vendored_with<'a, R: Files + AllocGlobal>(
    rt: &R,
    vendor: &Vendor,
    packages: &'a [Package],
    first: &mut FirstFault,
) -> Result<Vec<Vendored<'a>>, Fault>
    ensures { IfOk result
        (λ vendored. AreVendoredOf packages.now (map vendored_of vendored.items)) }
{
    let mut vendored = Vec::with_capacity(rt.alloc(), packages.len())?;
    for package in packages {
        let folders = folders_of(rt, vendor, package, first);
        vendored.push(Vendored { package, folders })?;
    }
    Ok(vendored)
}

/// The folders of a package. Where one is not read, there are none, and its fault is kept.
fn folders_of<R: Files + AllocGlobal>(
    rt: &R,
    vendor: &Vendor,
    package: &Package,
    first: &mut FirstFault,
) -> Vec<Folder> {
    match vendor.folders_of(rt, package) {
        Ok(folders) => folders,
        Err(fault) => {
            first.keep(fault);
            Vec::new(rt.alloc())
        }
    }
}

/// Prints what is found of these folders, and of the entries of the folder that they are in, where some
/// were not read.
fn print_part_of_folders<W: Write>(
    alloc: Global,
    options: &ArgMatches<'_>,
    vendored: &[Vendored<'_>],
    entries: &[Entry],
    out: &mut W,
) -> Result<(), Fault>
    ensures { OnOk result (PrintsPartOfFolders (found_of options.now)
        (map vendored_of vendored.now) (map vendored_entry entries.now)
        (W.contents out.old) (W.contents out.new)) }
{
    let others = others_of(options.get_flag("others"));
    let report = VendorReport::of(alloc, vendored, entries, others)?;
    print_sure_folders(options, &report, out)
}

/// Prints what is found of these folders, and of the entries of the folder that they are in. Returns
/// the status.
fn print_vendor_report<W: Write>(
    alloc: Global,
    options: &ArgMatches<'_>,
    subject: Subject<'_>,
    vendored: &[Vendored<'_>],
    entries: &[Entry],
    out: &mut W,
) -> Result<ExitCode, Fault>
    ensures { IfOk result (λ status. PrintsVendorReport (found_of options.now)
        (subject_of subject.entry)
        (map vendored_of vendored.now) (map vendored_entry entries.now)
        (W.contents out.old) (W.contents out.new)
        (status ≡ ExitCode.FAILURE) (status ≡ ExitCode.SUCCESS)) }
{
    let others = others_of(options.get_flag("others"));
    let report = VendorReport::of(alloc, vendored, entries, others)?;
    print_findings(alloc, options, subject, &report, out)?;
    Ok(status_of(report.findings.is_empty()))
}

/// What is said of folders of other packages, by whether the arguments ask to pass over them.
fn others_of(are_passed_over: bool) -> Others
    ensures { result ≡ spec.others_of are_passed_over }
{
    if are_passed_over {
        Others::PassedOver
    } else {
        Others::Reported
    }
}

/// The packages, each with its archives in the folder that the arguments name.
fn subjects_of<'a, R: Files + AllocGlobal>(
    rt: &R,
    options: &ArgMatches<'_>,
    packages: &'a [Package],
    first: &mut FirstFault,
) -> Result<Vec<cargo_lock_verify::Subject<'a>>, Fault>
    ensures { IfOk result
        (λ subjects. AreSubjectsOf packages.now (map archive_subject_of subjects.items)) }
{
    let entries = Entries::of(rt, options.get_str("cache").unwrap_or(""), first)?;
    subjects_with(rt, &entries, packages, first)
}

/// The packages, each with its archives. Where one of these is not read, there are none, and its fault is
/// kept.
fn subjects_with<'a, R: Files + AllocGlobal>(
    rt: &R,
    entries: &Entries,
    packages: &'a [Package],
    first: &mut FirstFault,
) -> Result<Vec<cargo_lock_verify::Subject<'a>>, Fault>
    ensures { IfOk result
        (λ subjects. AreSubjectsOf packages.now (map archive_subject_of subjects.items)) }
{
    let mut subjects = Vec::with_capacity(rt.alloc(), packages.len())?;
    for package in packages {
        let archives = archives_of(rt, entries, package, first);
        subjects.push(cargo_lock_verify::Subject { package, archives })?;
    }
    Ok(subjects)
}

/// The archives of a package. Where one is not read, there are none, and its fault is kept.
fn archives_of<R: Files + AllocGlobal>(
    rt: &R,
    entries: &Entries,
    package: &Package,
    first: &mut FirstFault,
) -> Vec<Archive> {
    match entries.archives_of(rt, package) {
        Ok(archives) => archives,
        Err(fault) => {
            first.keep(fault);
            Vec::new(rt.alloc())
        }
    }
}

/// Prints what is found of these subjects, where some archives were not read.
fn print_part_of_archives<W: Write>(
    alloc: Global,
    options: &ArgMatches<'_>,
    subjects: &[cargo_lock_verify::Subject<'_>],
    out: &mut W,
) -> Result<(), Fault>
    ensures { OnOk result (PrintsPartOfArchives (found_of options.now)
        (map archive_subject_of subjects.now) (W.contents out.old) (W.contents out.new)) }
{
    let mirrors = texts::among(options, "mirror");
    let report = Report::of(alloc, &Cache { subjects, mirrors }, options.get_flag("all"))?;
    print_sure_archives(options, &report, out)
}

/// Prints what is found of these subjects. Returns the status.
fn print_archive_report<W: Write>(
    alloc: Global,
    options: &ArgMatches<'_>,
    subject: Subject<'_>,
    subjects: &[cargo_lock_verify::Subject<'_>],
    out: &mut W,
) -> Result<ExitCode, Fault>
    ensures { IfOk result (λ status. PrintsReport (found_of options.now) (subject_of subject.entry)
        (map archive_subject_of subjects.now) (W.contents out.old) (W.contents out.new)
        (status ≡ ExitCode.FAILURE) (status ≡ ExitCode.SUCCESS)) }
{
    let all = options.get_flag("all");
    let mirrors = texts::among(options, "mirror");
    let report = Report::of(alloc, &Cache { subjects, mirrors }, all)?;
    print_findings(alloc, options, subject, &report, out)?;
    Ok(status_of(report.counts.is_clean(all)))
}

/// The status where nothing is found, or something.
pub(crate) fn status_of(is_quiet: bool) -> ExitCode
    ensures quiet { is_quiet ≡ true → result ≡ ExitCode.SUCCESS }
    ensures found { is_quiet ≡ false → result ≡ ExitCode.FAILURE }
{
    if is_quiet {
        ExitCode::SUCCESS
    } else {
        ExitCode::FAILURE
    }
}
