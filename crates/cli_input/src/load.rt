//! The lockfiles that the arguments name.
ghost use Rattle.std.specs.Prelude.{◌≡◌, ◌⊎◌, IfErr, IfOk, List, MatchOption, None, Some, ℕ};
ghost use Rattle.std.specs.Prelude.{codes, option_map, string_bytes};
ghost use Rattle.clap.specs.Matches.{found_of};
ghost use Rattle.cargo_lock.specs.Loads.{IsMeant};
ghost use Rattle.cargo_lock_parts.specs.declared.error.Error as declared;
ghost use Rattle.cargo_lock_table_flaws.specs.Marks as marks;
ghost use Rattle.cli_input.specs.Json as spec;
ghost use Rattle.cli_input.specs.Json.{named_file_of};
ghost use Rattle.cli_input.specs.Limit.{IsAtLimit, IsBeyondFault, IsBeyondLimit, IsInLimit};
ghost use Rattle.cli_input.specs.Limit.{IsReadInLimit};
ghost use Rattle.cli_input.specs.Load.{IsGraphFault, IsGraphOf, IsGraphRefused};
ghost use Rattle.cli_input.specs.Load.{IsMeantWithCargoChecksums, IsNamedFault, IsOfLockfile};
ghost use Rattle.cli_input.specs.Load.{IsOfLockfileUnnamed, IsOwnGraphRead, IsReadingFault};
ghost use Rattle.cli_input.specs.Load.{IsRefusedAs, IsTextFault, IsUnreadFault};
ghost use Rattle.cli_input.specs.Load.{MeansWithCargoChecksums};
ghost use Rattle.cli_support.specs.Input.{IsInputShown, IsOfReading, given_path_in};

use cargo_lock::dependency::graph::Graph;
use cargo_lock::{Error, Lockfile, ResolveVersion};
use cargo_lock_display::File;
use cargo_lock_edges::own_graph;
use cargo_lock_limit::lockfile_within;
use cargo_lock_table_flaws::conflict_mark_line;
use clap::ArgMatches;
use cli_support::{Fault, words};
use std::alloc::Global;
use std::io::Input;
use std::rt::Files;

/// How many bytes the versions of what packages depend on may have together.
const LIMIT: u32 = 1 << 28;

/// The lockfile at the path of the option `name`. Fails if it is not read, with the path in the
/// error, below the words of the library.
pub fn lockfile<R: Files + Input + AllocGlobal>(
    rt: &R,
    options: &ArgMatches<'_>,
    name: &str,
) -> Result<Lockfile, Fault>
    ensures ok { IfOk result IsMeant }
    ensures allowed { IfOk result (IsInLimit (found_of options.now)) }
    ensures err { IfErr result (IsOfLockfile (given_path_in (found_of options.now) name.now)) }
{
    let argument = words::given_path(options, name);
    match unnamed_lockfile(rt, options, argument) {
        Ok(lockfile) => Ok(lockfile),
        Err(fault) => Err(named(rt.alloc(), argument, fault)),
    }
}

/// The lockfile at this path. Fails without the path in the error, unless the file is too large or
/// beyond the limit.
fn unnamed_lockfile<R: Files + Input + AllocGlobal>(
    rt: &R,
    options: &ArgMatches<'_>,
    argument: &str,
) -> Result<Lockfile, Fault>
    ensures ok { IfOk result IsMeant }
    ensures allowed { IfOk result (IsInLimit (found_of options.now)) }
    ensures err { IfErr result (IsOfLockfileUnnamed argument.now) }
{
    let text = words::text_at(rt, options, argument)?;
    match unnamed_lockfile_of(rt.alloc(), options, argument, text.as_str()) {
        Ok(lockfile) => Ok(lockfile),
        Err(fault) => Err(fault),
    }
}

/// The lockfile of the text that was read from this path. Fails without the path in the error,
/// unless the text is beyond the limit.
fn unnamed_lockfile_of(
    alloc: Global,
    options: &ArgMatches<'_>,
    argument: &str,
    text: &str,
) -> Result<Lockfile, Fault>
    ensures ok { IfOk result (IsReadInLimit (found_of options.now) text.now) }
    ensures err { IfErr result (IsOfLockfileUnnamed argument.now) }
    ensures limit { IfErr result (IsAtLimit (found_of options.now) text.now) }
{
    match allowed_lockfile(alloc, options, text) {
        Ok(Some(lockfile)) => Ok(lockfile),
        Ok(None) => Err(beyond_limit(alloc, argument)),
        Err(error) => Err(Fault::Library(error)),
    }
}

/// Reads the text of a lockfile as `Lockfile::from_str` does, with the same errors. It is `None`
/// where the versions of what its packages depend on have more than 256 MiB together, unless the
/// arguments lift that limit.
pub fn allowed_lockfile(
    alloc: Global,
    options: &ArgMatches<'_>,
    text: &str,
) -> Result<Option<Lockfile>, Error>
    ensures ok { IfOk result (λ found. MatchOption found
        (IsBeyondLimit (found_of options.now) text.now)
        (IsReadInLimit (found_of options.now) text.now)) }
    ensures err { IfErr result (IsRefusedAs text.now) }
{
    if options.get_flag("any-size") {
        let lockfile = Lockfile::from_str(alloc, text)?;
        return Ok(Some(lockfile));
    }
    lockfile_within(alloc, text, LIMIT)
}

/// The error for a text that was read from this path and is beyond the limit, or out of memory.
pub fn beyond_limit(alloc: Global, argument: &str) -> Fault
    ensures { IsBeyondFault argument.now result }
{
    match words::shown_at(alloc, argument) {
        Ok(path) => Fault::TooLongVersions(path),
        Err(refused) => Fault::from(refused),
    }
}

/// A lockfile, and the text that it was read from.
#[derive(Drop)]
pub struct WithText {
    /// The text.
    pub text: String,

    /// The lockfile.
    pub lockfile: Lockfile,
}

/// The lockfile at the path of the option or argument `name`, with its text. Fails if it is not read,
/// with the path first in the error.
pub fn lockfile_with_text<R: Files + Input + AllocGlobal>(
    rt: &R,
    options: &ArgMatches<'_>,
    name: &str,
) -> Result<WithText, Fault>
    ensures ok { IfOk result (λ read.
        IsReadInLimit (found_of options.now) (string_bytes read.text) read.lockfile) }
    ensures err { IfErr result
        (IsNamedFault (found_of options.now) (given_path_in (found_of options.now) name.now)) }
{
    let argument = words::given_path(options, name);
    let text = text_at(rt, options, argument, argument)?;
    let lockfile = named_lockfile_of(rt.alloc(), options, argument, text.as_str())?;
    Ok(WithText { text, lockfile })
}

/// The same without its text.
pub fn named_lockfile<R: Files + Input + AllocGlobal>(
    rt: &R,
    options: &ArgMatches<'_>,
    name: &str,
) -> Result<Lockfile, Fault>
    ensures meant { IfOk result IsMeant }
    ensures allowed { IfOk result (IsInLimit (found_of options.now)) }
    ensures err { IfErr result
        (IsNamedFault (found_of options.now) (given_path_in (found_of options.now) name.now)) }
{
    let read = lockfile_with_text(rt, options, name)?;
    let WithText { lockfile, .. } = read;
    Ok(lockfile)
}

/// The lockfile whose path the argument `name` has, with the checksums that Cargo reads. Fails if
/// it is not read, with the path in the error.
pub fn compared_lockfile<R: Files + Input + AllocGlobal>(
    rt: &R,
    options: &ArgMatches<'_>,
    name: &str,
) -> Result<Lockfile, Fault>
    ensures ok { IfOk result IsMeantWithCargoChecksums }
    ensures err { IfErr result
        (IsNamedFault (found_of options.now) (given_path_in (found_of options.now) name.now)) }
{
    let lockfile = named_lockfile(rt, options, name)?;
    let compared = lockfile.with_cargo_checksums(rt.alloc())?;
    Ok(compared)
}

/// The same with its text.
pub fn compared_with_text<R: Files + Input + AllocGlobal>(
    rt: &R,
    options: &ArgMatches<'_>,
    name: &str,
) -> Result<WithText, Fault>
    ensures ok { IfOk result
        (λ read. MeansWithCargoChecksums (string_bytes read.text) read.lockfile) }
    ensures err { IfErr result
        (IsNamedFault (found_of options.now) (given_path_in (found_of options.now) name.now)) }
{
    let read = lockfile_with_text(rt, options, name)?;
    let WithText { text, lockfile } = read;
    let lockfile = lockfile.with_cargo_checksums(rt.alloc())?;
    Ok(WithText { text, lockfile })
}

/// The lockfile of an empty text, which has no packages.
pub fn lockfile_without_packages(alloc: Global) -> Result<Lockfile, Fault>
    ensures { IfOk result IsMeantWithCargoChecksums }
{
    let lockfile = Lockfile::from_str(alloc, "")?;
    let compared = lockfile.with_cargo_checksums(alloc)?;
    Ok(compared)
}

/// The format of the lockfile at the path of the option `file`, and the graph of its packages, as
/// their dependencies lead in this project's own commands. Fails if it is not read, with the path in
/// the error, or if no package matches a dependency.
pub fn named_graph<R: Files + Input + AllocGlobal>(
    rt: &R,
    options: &ArgMatches<'_>,
) -> Result<(ResolveVersion, Graph), Fault>
    ensures ok { IfOk result (λ read. IsOwnGraphRead read.0 read.1) }
    ensures err { IfErr result (λ fault. IsGraphFault (found_of options.now) fault
        ⊎ IsNamedFault (found_of options.now) (given_path_in (found_of options.now) (codes "file"))
        fault) }
{
    let lockfile = named_lockfile(rt, options, "file")?;
    let format = lockfile.version;
    match own_graph(rt.alloc(), &lockfile.packages) {
        Ok(graph) => Ok((format, graph)),
        Err(error) => Err(Fault::Library(error)),
    }
}

/// The graph of the lockfile's packages, which is that of its tree. Fails if no package matches a
/// dependency.
pub fn graph_of(alloc: Global, lockfile: Lockfile) -> Result<Graph, Error>
    ensures ok { IfOk result (λ graph. IsGraphOf lockfile graph) }
    ensures err { IfErr result (IsGraphRefused lockfile) }
{
    lockfile.into_graph(alloc)
}

/// The text of the lockfile at this path. Fails if it is not read, with the path `name` first in the
/// error.
pub fn text_at<R: Files + Input + AllocGlobal>(
    rt: &R,
    options: &ArgMatches<'_>,
    argument: &str,
    name: &str,
) -> Result<String, Fault>
    ensures { IfErr result (IsUnreadFault name.now) }
{
    match words::text_at(rt, options, argument) {
        Ok(text) => Ok(text),
        Err(fault) => Err(unread(rt.alloc(), name, fault)),
    }
}

/// The error for a lockfile that is not read, with this path of it first, or out of memory.
fn unread(alloc: Global, name: &str, fault: Fault) -> Fault
    ensures { (argument : List ℕ) → IsOfReading fault argument → IsUnreadFault name.now result }
{
    match words::shown_at(alloc, name) {
        Ok(path) => with_path(path, fault),
        Err(refused) => Fault::from(refused),
    }
}

/// The same with this path as it is shown.
fn with_path(path: String, fault: Fault) -> Fault
    ensures { (argument name : List ℕ) → IsOfReading fault argument
        → IsInputShown name (string_bytes path) → IsUnreadFault name result }
{
    match fault {
        Fault::TooLarge(_) => Fault::TooLarge(path),
        fault => fault.in_file(path).with_file_first(),
    }
}

/// The lockfile of the text that was read from this path. Fails if the text is beyond the limit, and
/// if it is not a lockfile, as `refusal` says.
pub fn named_lockfile_of(
    alloc: Global,
    options: &ArgMatches<'_>,
    argument: &str,
    text: &str,
) -> Result<Lockfile, Fault>
    ensures ok { IfOk result (IsReadInLimit (found_of options.now) text.now) }
    ensures err { IfErr result (IsTextFault argument.now text.now) }
    ensures limit { IfErr result (IsAtLimit (found_of options.now) text.now) }
{
    let read = allowed_lockfile(alloc, options, text);
    match read {
        Ok(Some(lockfile)) => Ok(lockfile),
        Ok(None) => Err(beyond_limit(alloc, argument)),
        Err(error) => Err(refusal(alloc, argument, text, error)),
    }
}

/// The error for a text that was read from this path and is not a lockfile, where `error` is that of
/// the library: that it has marks of a conflict, if it is no TOML and has some, and otherwise `error`
/// with the path first. Out of memory has no path.
pub fn refusal(alloc: Global, argument: &str, text: &str, error: Error) -> Fault
    ensures { IsReadingFault argument.now text.now error result }
{
    match conflict_mark_line(alloc, text) {
        Ok(Some(line)) => marked(alloc, argument, line),
        Ok(None) => unmarked(alloc, argument, error),
        Err(refused) => Fault::from(refused),
    }
}

/// The error for a text whose first mark of a conflict is in this line, or out of memory.
fn marked(alloc: Global, argument: &str, line: usize) -> Fault
    ensures { (text : List ℕ) (error : declared.Error) → marks.conflict_mark_line text ≡ Some line
        → IsReadingFault argument.now text error result }
{
    match words::shown_at(alloc, argument) {
        Ok(path) => Fault::ConflictMarks(path, line),
        Err(refused) => Fault::from(refused),
    }
}

/// The error for a text without marks of a conflict, or out of memory.
fn unmarked(alloc: Global, argument: &str, error: Error) -> Fault
    ensures { (text : List ℕ) → marks.conflict_mark_line text ≡ None
        → IsReadingFault argument.now text error result }
{
    match words::shown_at(alloc, argument) {
        Ok(path) => Fault::Library(error).in_file(path).with_file_first(),
        Err(refused) => Fault::from(refused),
    }
}

/// The lockfile at the path of the option or argument `name`, as a document has it.
pub fn file<'a>(options: &ArgMatches<'a>, name: &str, lockfile: &Lockfile) -> File<'a>
    ensures { result ≡ named_file_of (found_of options.now) name.now lockfile.now }
{
    file_in(options, name, lockfile.version)
}

/// The lockfile of this format at the path of the option or argument `name`, as a document has it.
pub fn file_in<'a>(options: &ArgMatches<'a>, name: &str, format: ResolveVersion) -> File<'a>
    ensures { result ≡ record {
      path = spec.document_path (given_path_in (found_of options.now) name.now);
      format = format;
    } }
{
    file_at(words::given_path(options, name), format)
}

/// The lockfile of this format at this path, as a document has it.
pub fn file_at(argument: &str, format: ResolveVersion) -> File<'_>
    ensures { result ≡ record { path = spec.document_path argument.now; format = format } }
{
    File {
        path: document_path(argument),
        format,
    }
}

/// The path of the option or argument `name` as a document has it. Standard input has none.
pub fn path_in_documents<'a>(options: &ArgMatches<'a>, name: &str) -> Option<&'a str>
    ensures { option_map (λ t. t.now) result
        ≡ spec.document_path (given_path_in (found_of options.now) name.now) }
{
    document_path(words::given_path(options, name))
}

fn document_path(argument: &str) -> Option<&str>
    ensures { option_map (λ t. t.now) result ≡ spec.document_path argument.now }
{
    if argument == "-" {
        return None;
    }
    Some(argument)
}

/// The error with this path of the lockfile, or out of memory.
fn named(alloc: Global, argument: &str, fault: Fault) -> Fault
    ensures { IsOfLockfileUnnamed argument.now fault → IsOfLockfile argument.now result }
{
    match words::shown_at(alloc, argument) {
        Ok(path) => fault.in_file(path),
        Err(refused) => Fault::from(refused),
    }
}
