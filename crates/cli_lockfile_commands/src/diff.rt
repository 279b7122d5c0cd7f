//! The command `diff`: what differs between the packages of two lockfiles.
ghost use Rattle.std.specs.Prelude.{◌≡◌, IfOk, Some, codes, map, string_bytes};
ghost use Rattle.std.specs.Fmt.{DisplaysOnOk};
ghost use Rattle.std.specs.List.{AllZip};
ghost use Rattle.clap.specs.Matches.{found_of};
ghost use Rattle.cargo_lock_diff.specs.Change.{change_of, changes_by};
ghost use Rattle.cargo_lock_encoding.specs.Lockfiles.{LockfileData};
ghost use Rattle.cli_input.specs.Load.{IsMeantWithCargoChecksums};
ghost use Rattle.cli_lockfile_commands.specs.Diff.{AreCommitsAsked, IsAcceptedBy, IsStatus};
ghost use Rattle.cli_lockfile_commands.specs.Diff.{IsTold, PrintsChanges};
ghost use Rattle.cli_lockfile_commands.specs.Diff.{PrintsDifference, PrintsDifferenceFrom};
ghost use Rattle.cli_lockfile_commands.specs.Diff.{PrintsDifferenceOf};
ghost use Rattle.cli_lockfile_commands.specs.Diff.{given_words, last_line, sides_after, sides_of};

use cargo_lock::{Error, Lockfile, Package};
use cargo_lock_diff::{Accepted, Change, Commits, Difference, Line, Summary, difference_json};
use cargo_lock_display::File;
use cargo_lock_location::{PackageLines, package_lines};
use clap::{Arg, ArgAction, ArgMatches, Command};
use cli_input::answer::{Answer, print_answer};
use cli_input::load::{WithText, compared_lockfile, compared_with_text, file};
use cli_support::Fault;
use cli_support::terminal::in_line;
use cli_support::words::{any_size, flag, is_standard, json, lockfile_path, long_flag};
use std::alloc::{AllocError, Global};
use std::fmt;
use std::io::{Input, Write};
use std::process::ExitCode;
use std::rt::Files;

/// The lines of `diff`, as help shows them.
const DIFF_HELP: &str = "\
Each change is a line, in this order:
  ! NAME VERSION SRC: checksum OLD -> NEW     an alarm: one version with another archive
  ! NAME VERSION: SRC -> SRC                  an alarm: a source that OLD does not have
  ! NAME OLD -> NEW: SRC -> SRC               the same, and another version
  > NAME VERSION: SRC -> SRC                  another source
  ? NAME VERSION SRC: checksum none -> NEW    a checksum that was not there, or, OLD -> none, one
                                              that is gone with another source
  @ NAME VERSION SRC: replacement OLD -> NEW  another replacement
  ~ NAME OLD -> NEW                           another version, (incompatible) if of another release
                                              line, (downgrade) if an earlier one
  - NAME VERSION SRC                          a package only in OLD
  + NAME VERSION SRC                          a package only in NEW
  = NAME VERSION SRC: - DEP + DEP             other dependencies, with -d
SRC is in round brackets: (path) for a package without a source, and nothing for crates.io. The last \
line counts the changes. The order of the packages and the format do not matter. No lockfile says \
whether a version was yanked.

A package of a name that OLD has is an alarm where no package of OLD comes from its source, and, if \
it is in a folder, where none of its name was in one. Branch, tag, revision, commit and spelling of a \
source do not count. --moved-ok names what is meant.

The status is 1 where there is an alarm, and with --exit-code where anything is printed. It is 2 \
where a lockfile cannot be read.";

/// The two arguments, as help shows them.
const OLD_HELP: &str = "The old lockfile, - for standard input";

const NEW_HELP: &str = "The new lockfile, - for standard input";

/// What may move without an alarm, as help shows it.
const MOVED_OK_HELP: &str =
    "Packages may come from this new source, or from a folder: no alarm then; as often as needed";

/// What `--moved-ok` takes, as a fault says it.
const MOVED_OK: &str = "--moved-ok takes a URL, as `https://github.com/rust-lang/log`, or `path`";

/// The parser of this command: its options and the paths of two lockfiles.
pub fn command<'a>(alloc: Global) -> Result<Command<'a>, AllocError> {
    let command = with_lockfiles(alloc)?;
    let command = with_flags(alloc, command)?;
    command
        .arg(moved_ok(alloc).help(MOVED_OK_HELP))?
        .arg(json(alloc)?)
}

/// The parser with the paths of the lockfiles, and how they are read.
fn with_lockfiles<'a>(alloc: Global) -> Result<Command<'a>, AllocError> {
    Command::new(alloc, "diff")
        .about("Shows what differs between the packages of two lockfiles")
        .after_help(DIFF_HELP)
        .arg(lockfile_path(alloc, "old", "OLD").help(OLD_HELP))?
        .arg(lockfile_path(alloc, "new", "NEW").help(NEW_HELP))?
        .arg(any_size(alloc)?)
}

/// The same with the flags for what is shown, and for the status.
fn with_flags<'a>(alloc: Global, command: Command<'a>) -> Result<Command<'a>, AllocError> {
    command
        .arg(flag(alloc, "dependencies", 'd')?.help("Shows other dependencies of packages too"))?
        .arg(long_flag(alloc, "exit-code")?.help(
            "Ends with status 1 where anything differs, dependencies only with -d",
        ))?
        .arg(long_flag(alloc, "full")?.help("Prints all digits of commits that move"))
}

/// The option for a source to which packages may move, one each time that it is given.
fn moved_ok<'a>(alloc: Global) -> Arg<'a> {
    Arg::new(alloc, "moved-ok")
        .long("moved-ok")
        .value_name("URL|path")
        .action(ArgAction::Append)
}

/// Prints what differs between the packages of two lockfiles, a line for each change, and if the
/// arguments ask for it also what differs between their dependencies, or all as one line of JSON.
/// The status is 1 if there is an alarm, or, if the arguments ask for it, if anything differs.
/// Otherwise it is 0. Fails if a word of `--moved-ok` names no source, a lockfile is not read or
/// `out` fails; a prefix of the text was then written in the last case, and nothing in the others.
pub fn run<R: Files + Input + AllocGlobal, W: Write>(
    rt: &R,
    options: &ArgMatches<'_>,
    out: &mut W,
) -> Result<ExitCode, Fault>
    ensures { IfOk result (λ status. PrintsDifference (found_of options.now)
        (W.contents out.old) (W.contents out.new)
        (status ≡ ExitCode.FAILURE) (status ≡ ExitCode.SUCCESS)) }
{
    if is_standard(options, "old") && is_standard(options, "new") {
        return Err(Fault::OneInput);
    }
    let accepted = accepted(rt.alloc(), options)?;
    compare(rt, options, &accepted, out)
}

/// The same where these sources are accepted.
fn compare<R: Files + Input + AllocGlobal, W: Write>(
    rt: &R,
    options: &ArgMatches<'_>,
    accepted: &[Accepted],
    out: &mut W,
) -> Result<ExitCode, Fault>
    ensures { IfOk result (λ status. (before : LockfileData) × IsMeantWithCargoChecksums before
        × PrintsDifferenceFrom (found_of options.now) accepted.now before
        (W.contents out.old) (W.contents out.new)
        (status ≡ ExitCode.FAILURE) (status ≡ ExitCode.SUCCESS)) }
{
    let old = compared_lockfile(rt, options, "old")?;
    compare_with(rt, options, accepted, &old, out)
}

/// The same for this old lockfile.
fn compare_with<R: Files + Input + AllocGlobal, W: Write>(
    rt: &R,
    options: &ArgMatches<'_>,
    accepted: &[Accepted],
    old: &Lockfile,
    out: &mut W,
) -> Result<ExitCode, Fault>
    ensures { IfOk result (λ status. PrintsDifferenceFrom (found_of options.now) accepted.now old.now
        (W.contents out.old) (W.contents out.new)
        (status ≡ ExitCode.FAILURE) (status ≡ ExitCode.SUCCESS)) }
{
    let new = compared_with_text(rt, options, "new")?;
    report(rt.alloc(), options, accepted, old, &new, out)
}

/// The sources that the arguments accept. Fails if one of their words names none.
fn accepted(alloc: Global, options: &ArgMatches<'_>) -> Result<Vec<Accepted>, Fault>
    ensures { IfOk result (λ accepted. AllZip IsAcceptedBy
        (given_words (found_of options.now) (codes "moved-ok")) accepted.items) }
{
    match options.get_strs("moved-ok") {
        Some(words) => all_accepted(alloc, words),
        None => Ok(Vec::new(alloc)),
    }
}

/// The sources that words name. Fails if one of them names none.
fn all_accepted(alloc: Global, words: &[&str]) -> Result<Vec<Accepted>, Fault>
    ensures { IfOk result
        (λ all. AllZip IsAcceptedBy (map (λ word. word.now) words.now) all.items) }
{
    let mut all = Vec::new(alloc);
    for word in words {
        all.push(accepted_by(alloc, word)?)?;
    }
    Ok(all)
}

/// The source that a word names. Fails if it names none.
fn accepted_by(alloc: Global, word: &str) -> Result<Accepted, Fault>
    ensures { IfOk result (IsAcceptedBy word.now) }
{
    match Accepted::parse(alloc, word)? {
        Some(accepted) => Ok(accepted),
        None => Err(refused(alloc, word)),
    }
}

/// The fault of a word that names no source.
fn refused(alloc: Global, word: &str) -> Fault {
    match refusal(alloc, word) {
        Ok(text) => Fault::Refused(text),
        Err(_) => Fault::Library(Error::Memory),
    }
}

fn refusal(alloc: Global, word: &str) -> Result<String, AllocError> {
    let word = in_line(alloc, word)?;
    format!(in alloc; "{MOVED_OK}, not `{word}`")
}

/// Prints what differs between the packages of two lockfiles, where these sources are accepted.
/// Returns the status.
fn report<W: Write>(
    alloc: Global,
    options: &ArgMatches<'_>,
    accepted: &[Accepted],
    old: &Lockfile,
    new: &WithText,
    out: &mut W,
) -> Result<ExitCode, Fault>
    ensures { IfOk result (λ status. PrintsDifferenceOf (found_of options.now) accepted.now
        old.now (string_bytes new.now.text) new.now.lockfile
        (W.contents out.old) (W.contents out.new)
        (status ≡ ExitCode.FAILURE) (status ≡ ExitCode.SUCCESS)) }
{
    let lockfile = &new.lockfile;
    let packages = lockfile.packages.as_slice();
    let difference = Difference::accepting(alloc, accepted, &old.packages, packages)?;
    let before = file(options, "old", old);
    report_difference(alloc, options, &before, new, &difference, out)
}

/// Prints the changes of a difference of this old lockfile and this new one. Returns the status.
fn report_difference<W: Write>(
    alloc: Global,
    options: &ArgMatches<'_>,
    before: &File<'_>,
    new: &WithText,
    difference: &Difference<'_>,
    out: &mut W,
) -> Result<ExitCode, Fault>
    ensures { IfOk result (λ status. PrintsChanges (found_of options.now)
        (sides_after (found_of options.now) before.now (string_bytes new.now.text) new.now.lockfile)
        difference.now (W.contents out.old) (W.contents out.new)
        (status ≡ ExitCode.FAILURE) (status ≡ ExitCode.SUCCESS)) }
{
    let lockfile = &new.lockfile;
    let after = file(options, "new", lockfile);
    let sides = Sides {
        before,
        after: &after,
        text: new.text.as_str(),
        packages: lockfile.packages.as_slice(),
    };
    report_changes(alloc, options, sides, difference, out)
}

/// The lockfiles that are compared, the text of the new one, and its packages.
#[derive(Clone, Copy)]
struct Sides<'a> {
    before: &'a File<'a>,
    after: &'a File<'a>,
    text: &'a str,
    packages: &'a [Package],
}

/// Prints the changes of a difference. Returns the status.
fn report_changes<W: Write>(
    alloc: Global,
    options: &ArgMatches<'_>,
    sides: Sides<'_>,
    difference: &Difference<'_>,
    out: &mut W,
) -> Result<ExitCode, Fault>
    ensures { IfOk result (λ status. PrintsChanges (found_of options.now) (sides_of sides.entry)
        difference.now (W.contents out.old) (W.contents out.new)
        (status ≡ ExitCode.FAILURE) (status ≡ ExitCode.SUCCESS)) }
{
    let changes = changes(alloc, options, difference)?;
    let told = Told {
        sides,
        changes: &changes,
        commits: commits(options),
    };
    print_answer(alloc, options, sides.after, &told, out)?;
    Ok(status(options, difference, &changes))
}

/// The changes that the arguments ask for: those of packages, and then those of dependencies.
fn changes<'d>(
    alloc: Global,
    options: &ArgMatches<'_>,
    difference: &'d Difference<'_>,
) -> Result<Vec<Change<'d>>, Fault>
    ensures { IfOk result (λ changes. IsTold (found_of options.now) difference.now
        (map change_of changes.items)) }
{
    let changes = difference.all_changes(alloc, options.get_flag("dependencies"))?;
    Ok(changes)
}

/// How the arguments ask for commits.
fn commits(options: &ArgMatches<'_>) -> Commits
    ensures { AreCommitsAsked (found_of options.now) result }
{
    if options.get_flag("full") {
        Commits::Full
    } else {
        Commits::Short
    }
}

/// The changes that are printed, the lockfiles between which they are, and how commits are printed.
/// `Display` writes the changes in their order, and then how many of each kind there are.
#[derive(Clone, Copy)]
struct Told<'a, 'd> {
    sides: Sides<'a>,
    changes: &'a [Change<'d>],
    commits: Commits,
}

impl fmt::Display for Told<'_, '_> {
    ghost use Rattle.std.specs.Prelude.{Some, map};
    ghost use Rattle.cargo_lock_diff.specs.Change.{change_of};
    ghost use Rattle.cli_lockfile_commands.specs.Diff.{told_text};

    ghost output = { λ told. Some (told_text told.commits (map change_of told.changes.now)) };

    fn fmt<W: fmt::Write>(&self, f: &mut fmt::Formatter<W>) -> fmt::Result {
        write_changes(self.changes, self.commits, f)?;
        write_last_line(self.changes, f)
    }
}

impl Answer for Told<'_, '_> {
    ghost use Rattle.std.specs.Prelude.{map};
    ghost use Rattle.cargo_lock_diff.specs.Change.{change_of};
    ghost use Rattle.cargo_lock_diff.specs.Document.{difference_json};
    ghost use Rattle.cli_input.specs.Told.{lines_in_text};

    ghost json = { λ after told. difference_json told.sides.before.now after
        (lines_in_text told.sides.text.now told.sides.packages.now)
        (map change_of told.changes.now) };

    fn document(&self, alloc: Global, after: &File<'_>) -> Result<String, AllocError> {
        let sides = self.sides;
        let numbers = package_lines(alloc, sides.text, sides.packages)?;
        let lines = PackageLines::new(alloc, sides.packages, &numbers)?;
        difference_json(alloc, sides.before, after, self.changes, &lines)
    }
}

/// Writes the changes in their order.
fn write_changes<W: fmt::Write>(
    changes: &[Change<'_>],
    commits: Commits,
    f: &mut fmt::Formatter<W>,
) -> fmt::Result
    ensures { DisplaysOnOk W.write_str_gives f.old result
        (Some (changes_by commits (map change_of changes.now))) f.new }
{
    for change in changes {
        let line = Line(change, commits);
        write!(f, "{line}\n")?;
    }
    Ok(())
}

/// Writes how many changes of each kind there are, if there are any.
fn write_last_line<W: fmt::Write>(changes: &[Change<'_>], f: &mut fmt::Formatter<W>) -> fmt::Result
    ensures { DisplaysOnOk W.write_str_gives f.old result
        (Some (last_line (map change_of changes.now))) f.new }
{
    if changes.is_empty() {
        return Ok(());
    }
    let summary = Summary::of(changes);
    write!(f, "{summary}\n")
}

/// The status for a difference and the changes that are printed.
fn status(options: &ArgMatches<'_>, difference: &Difference<'_>, changes: &[Change<'_>]) -> ExitCode
    ensures { IsStatus (found_of options.now) difference.now (map change_of changes.now)
        (result ≡ ExitCode.FAILURE) (result ≡ ExitCode.SUCCESS) }
{
    if difference.has_alarm() {
        return ExitCode::FAILURE;
    }
    if options.get_flag("exit-code") && !changes.is_empty() {
        ExitCode::FAILURE
    } else {
        ExitCode::SUCCESS
    }
}
