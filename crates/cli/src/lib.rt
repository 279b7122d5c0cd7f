//! The program `cargo-lock` as a library: lists the packages of a lockfile, writes it in another
//! format, draws its trees, writes its bill of materials, reports what differs between two and what
//! is wrong with one, says why a package is there and which names several packages have, writes a
//! picture of the packages, merges two lockfiles over a third, compares archives of packages with
//! their checksums, and prints their licences and the advisories that concern them.
//!
//! An error is reported in one message on standard error that begins with `*** error: `. The status
//! is then 1 for `list`, `translate` and `tree`, and 2 for the others, which the original does not
//! have. Without an error it is 0, and all of the output was written and flushed; what `audit`,
//! `check`, `diff`, `duplicates`, `licenses`, `merge` or `verify` found may make it 1.
#![tactic(auto)]

ghost use Rattle.std.specs.Prelude.{◌≡◌, ◌⊎◌, ◌↔◌, IfErr, IfOk, IfSome, IsTrue, codes, map};
ghost use Rattle.std.specs.Io.KnownBytes.{Keeps};
ghost use Rattle.std.specs.Process.{exit_status};
ghost use Rattle.clap.specs.Matches.{found_of};
ghost use Rattle.cli_support.specs.Status.{IsCommandNamed, IsFaultStatus};
ghost use Rattle.cli.specs.Check.{IsFindingsStatus};
ghost use Rattle.cli.specs.Commands.{Follows, FollowsMatches, IsCounting, IsFailing, TellsMore};
ghost use Rattle.cli.specs.Commands.{name_of};
ghost use Rattle.cli.specs.Counts as spec;
ghost use Rattle.cli.specs.Ending.{IsCountedFor, IsEnd, counts_in, status_in};
ghost use Rattle.cli.specs.declared.ending.Reader.TheVariants.{Person, Program};

mod check;
mod checked;
mod counts;
mod ending;
mod merge;
mod refused;
mod several;

use crate::check::ended;
use crate::counts::counts_line;
use crate::ending::Ended;
pub use crate::ending::Reader;
use cargo_lock_bom::options::VERSION;
use clap::{ArgMatches, Command};
use cli_folder_commands::{audit, bom, json, licenses, verify};
use cli_lockfile_commands::{diff, duplicates, graph, list, translate, tree, why};
pub use cli_support::Fault;
use cli_support::message::put_message;
use cli_support::{output, status, words};
use std::alloc::{AllocError, Global};
use std::convert::AsStr;
use std::env::Env;
use std::io::{Input, Write};
use std::process::ExitCode;
use std::rt::Files;
use std::time::Clock;

/// Runs the command that `words`, the arguments without the program's own name, ask for. Its output
/// goes to `out`, which is then flushed, and an error goes to `err`, as one message, as do the
/// lines of `merge` and, if there are findings, the line of counts of `check` and of `licenses`. For
/// each command but `merge`, if it returns success, nothing was written to `err`. For each command
/// but these three, if something was, the status is that of an error.
pub fn run<R: Files + Input + Env + Clock + AllocGlobal, S: AsStr, W: Write, E: Write>(
    rt: &R,
    words: &[S],
    out: &mut W,
    err: &mut E,
) -> ExitCode
    ensures kept { result ≡ ExitCode.SUCCESS
        → (¬ IsCommandNamed (codes "merge") (map S.text words.now))
        → Keeps (E.contents err.old) (E.contents err.new) }
    ensures fault { (Keeps (E.contents err.old) (E.contents err.new))
        ⊎ (TellsMore (map S.text words.now) ⊎ IsFaultStatus (map S.text words.now) result) }
{
    run_for(rt, words, out, err, Reader::Program)
}

/// The same for this reader of `err`: for a person `check` and `licenses` print the line of counts
/// also where nothing is found.
pub fn run_for<R: Files + Input + Env + Clock + AllocGlobal, S: AsStr, W: Write, E: Write>(
    rt: &R,
    words: &[S],
    out: &mut W,
    err: &mut E,
    reader: Reader,
) -> ExitCode
    ensures kept { result ≡ ExitCode.SUCCESS
        → (¬ IsCommandNamed (codes "merge") (map S.text words.now))
        → Keeps (E.contents err.old) (E.contents err.new) ⊎ (reader ≡ Person) }
    ensures fault { (Keeps (E.contents err.old) (E.contents err.new))
        ⊎ (TellsMore (map S.text words.now) ⊎ IsFaultStatus (map S.text words.now) result) }
{
    status_of(err, words, execute(rt, words, out), reader)
}

/// Returns the status of a finished command, and prints the lines of `merge` and the counts of
/// `check` and of `licenses`. If the command failed, prints the message of the error, and returns the
/// status of an error of the command.
fn status_of<S: AsStr, E: Write>(
    err: &mut E,
    words: &[S],
    outcome: Result<Ended, Fault>,
    reader: Reader,
) -> ExitCode
    requires { IfOk outcome IsEnd }
    ensures status { IfOk outcome (λ ended. result ≡ status_in ended) }
    ensures ok { IfOk outcome (λ ended. (Keeps (E.contents err.old) (E.contents err.new))
        ⊎ (IsCommandNamed (codes "merge") (map S.text words.now)
        ⊎ (IsCounting (map S.text words.now) × IsCountedFor reader ended))) }
    ensures fault { IfErr outcome (λ _. IsFaultStatus (map S.text words.now) result) }
{
    match outcome {
        Ok(Ended::Silent(status)) => status,
        Ok(Ended::WithLines(status, lines)) => {
            if words::name_command(words, "merge") {
                put_lines(err, &lines);
            }
            status
        }
        Ok(Ended::Found(counts)) => {
            if names_counting(words) {
                put_lines(err, &counts);
            }
            ExitCode::FAILURE
        }
        Ok(Ended::FoundNothing(counts)) => {
            if reader.is_person() && names_counting(words) {
                put_lines(err, &counts);
            }
            ExitCode::SUCCESS
        }
        Ok(Ended::Failed(status, faults, counts)) => {
            if names_failing(words) {
                put_faults(err, &faults);
                put_lines(err, &counts);
            }
            status
        }
        Err(fault) => report(err, &fault, status::of_fault(words)),
    }
}

/// Whether the arguments name a command that counts what it found.
fn names_counting<S: AsStr>(words: &[S]) -> bool
    ensures { IsTrue result ↔ IsCounting (map S.text words.now) }
{
    words::name_command(words, "check") || words::name_command(words, "licenses")
}

/// Whether the arguments name a command that reports faults after it printed its output.
fn names_failing<S: AsStr>(words: &[S]) -> bool
    ensures { IsTrue result ↔ IsFailing (map S.text words.now) }
{
    words::name_command(words, "check") || words::name_command(words, "merge")
}

/// Prints the messages of faults, each as `report` does.
fn put_faults<E: Write>(err: &mut E, faults: &[Fault]) {
    for one in faults {
        let _ = put_message(err, one);
    }
}

/// Prints the lines of a finished command. A writer that fails has what it took of them.
fn put_lines<E: Write>(err: &mut E, lines: &str) {
    let _ = output::put_all(err, lines.as_bytes());
    let _ = err.flush();
}

/// Prints the message of an error. Returns the given status, even if printing fails.
pub fn report<E: Write>(err: &mut E, fault: &Fault, status: ExitCode) -> ExitCode
    ensures { result ≡ status }
{
    let _ = put_message(err, fault);
    let _ = err.flush();
    status
}

/// Reads the arguments, and runs their command or prints the help or the version that they ask for.
/// Returns how it ended.
fn execute<R: Files + Input + Env + Clock + AllocGlobal, S: AsStr, W: Write>(
    rt: &R,
    words: &[S],
    out: &mut W,
) -> Result<Ended, Fault>
    ensures { IfOk result IsEnd }
{
    let words = words::with_command(rt.alloc(), words)?;
    let ended = match parser(rt.alloc())?.try_get_matches_from(words.as_slice()) {
        Ok(matches) => dispatch(rt, &matches, out)?,
        Err(error) => {
            if error.use_stderr() {
                return Err(Fault::from(error));
            }
            output::put(out, format_args!("{error}"))?;
            Ended::Silent(ExitCode::SUCCESS)
        }
    };
    out.flush()?;
    Ok(ended)
}

/// The parser of the arguments. If an option is given more than once, the last value counts for the
/// commands of the original. The others refuse it, since the values before would be left out in
/// silence, unless the option collects its values. A flag may be given more than once. Fails when out
/// of memory.
fn parser<'a>(alloc: Global) -> Result<Command<'a>, AllocError> {
    Command::new(alloc, "cargo-lock")
        .about("Looks into lockfiles")
        .version(VERSION)
        .subcommand_required(true)
        .subcommand(list::command(alloc)?)?
        .subcommand(translate::command(alloc)?)?
        .subcommand(tree::command(alloc)?)?
        .subcommand(bom::command(alloc)?)?
        .subcommand(json::command(alloc)?)?
        .subcommand(diff::command(alloc)?)?
        .subcommand(check::command(alloc)?)?
        .subcommand(why::command(alloc)?)?
        .subcommand(duplicates::command(alloc)?)?
        .subcommand(graph::command(alloc)?)?
        .subcommand(merge::command(alloc)?)?
        .subcommand(verify::command(alloc)?)?
        .subcommand(licenses::command(alloc)?)?
        .subcommand(audit::command(alloc)?)
}

/// A command.
#[derive(Clone, Copy)]
enum Chosen {
    Audit,
    Bom,
    Check,
    Diff,
    Duplicates,
    Graph,
    Json,
    Licenses,
    List,
    Merge,
    Translate,
    Tree,
    Verify,
    Why,
}

/// The command of a name.
fn command_named(name: &str) -> Option<Chosen>
    ensures { IfSome result (λ command. name.now ≡ name_of command) }
{
    match name {
        "audit" => Some(Chosen::Audit),
        "bom" => Some(Chosen::Bom),
        "check" => Some(Chosen::Check),
        "diff" => Some(Chosen::Diff),
        "duplicates" => Some(Chosen::Duplicates),
        "graph" => Some(Chosen::Graph),
        "json" => Some(Chosen::Json),
        "licenses" => Some(Chosen::Licenses),
        "list" => Some(Chosen::List),
        "merge" => Some(Chosen::Merge),
        "translate" => Some(Chosen::Translate),
        "tree" => Some(Chosen::Tree),
        "verify" => Some(Chosen::Verify),
        "why" => Some(Chosen::Why),
        _ => None,
    }
}

/// Runs the command that the parser found. Returns how it ended.
fn dispatch<R: Files + Input + Env + Clock + AllocGlobal, W: Write>(
    rt: &R,
    matches: &ArgMatches<'_>,
    out: &mut W,
) -> Result<Ended, Fault>
    ensures follows { IfOk result (λ ended. FollowsMatches matches.now
        (W.contents out.old) (W.contents out.new)
        (status_in ended ≡ ExitCode.FAILURE) (status_in ended ≡ ExitCode.SUCCESS)
        (exit_status (status_in ended) ≡ 2)) }
    ensures end { IfOk result IsEnd }
{
    let Some((name, options)) = matches.subcommand() else {
        return Err(Fault::NoCommand);
    };
    match command_named(name) {
        Some(command) => follow(rt, command, options, out),
        None => Err(Fault::NoCommand),
    }
}

/// How `licenses` ends where so much was looked at, and so much was found.
fn counted(alloc: Global, counts: licenses::Counts) -> Result<Ended, Fault>
    ensures status { IfOk result (λ ended. IsFindingsStatus counts.findings
        (status_in ended ≡ ExitCode.FAILURE) (status_in ended ≡ ExitCode.SUCCESS)) }
    ensures counts { IfOk result (λ ended.
        counts_in ended ≡ spec.counts_line counts.packages counts.findings) }
    ensures end { IfOk result IsEnd }
{
    let line = counts_line(alloc, counts.packages, counts.findings)?;
    Ok(ended(counts.findings, line))
}

/// Runs a command with its options. Returns how it ended.
fn follow<R: Files + Input + Env + Clock + AllocGlobal, W: Write>(
    rt: &R,
    command: Chosen,
    options: &ArgMatches<'_>,
    out: &mut W,
) -> Result<Ended, Fault>
    ensures follows { IfOk result (λ ended. Follows command (found_of options.now)
        (W.contents out.old) (W.contents out.new)
        (status_in ended ≡ ExitCode.FAILURE) (status_in ended ≡ ExitCode.SUCCESS)
        (exit_status (status_in ended) ≡ 2)) }
    ensures end { IfOk result IsEnd }
{
    match command {
        Chosen::Audit => Ok(Ended::Silent(audit::run(rt, options, out)?)),
        Chosen::Bom => Ok(Ended::success(bom::run(rt, options, out)?)),
        Chosen::Check => check::run(rt, options, out),
        Chosen::Diff => Ok(Ended::Silent(diff::run(rt, options, out)?)),
        Chosen::Duplicates => Ok(Ended::Silent(duplicates::run(rt, options, out)?)),
        Chosen::Graph => Ok(Ended::success(graph::run(rt, options, out)?)),
        Chosen::Json => Ok(Ended::success(json::run(rt, options, out)?)),
        Chosen::Licenses => counted(rt.alloc(), licenses::run(rt, options, out)?),
        Chosen::List => Ok(Ended::success(list::run(rt, options, out)?)),
        Chosen::Merge => merge::run(rt, options, out),
        Chosen::Translate => Ok(Ended::success(translate::run(rt, options, out)?)),
        Chosen::Tree => Ok(Ended::success(tree::run(rt, options, out)?)),
        Chosen::Verify => Ok(Ended::Silent(verify::run(rt, options, out)?)),
        Chosen::Why => Ok(Ended::success(why::run(rt, options, out)?)),
    }
}
