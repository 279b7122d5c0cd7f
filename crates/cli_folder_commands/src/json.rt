//! The command `json`: a lockfile as one document of JSON.

ghost use Rattle.std.specs.Prelude.{OnOk, option_map};
ghost use Rattle.clap.specs.Matches.{found_of};
ghost use Rattle.cargo_lock_json.specs.Document.{IsDocumentOf};
ghost use Rattle.cli_input.specs.Json.{PrintsLine};
ghost use Rattle.cli_folder_commands.specs.Json.{PrintsLockfile};

use cargo_lock::Lockfile;
use cargo_lock_json::lockfile_json;
use clap::{ArgMatches, Command};
use cli_input::load::{compared_lockfile, path_in_documents};
use cli_support::Fault;
use cli_support::output::put;
use cli_support::words::{any_size, file};
use std::alloc::{AllocError, Global};
use std::io::{Input, Write};
use std::rt::Files;

/// What `json` prints, as help shows it.
const JSON_HELP: &str = "\
Each package has the places of the packages on which it depends, from 0, and the dependencies that \
no package fits. docs/JSON.md has the keys.";

/// The parser of this command: its options.
pub fn command<'a>(alloc: Global) -> Result<Command<'a>, AllocError> {
    Command::new(alloc, "json")
        .about("Prints a lockfile as one line of JSON")
        .after_help(JSON_HELP)
        .arg(file(alloc))?
        .arg(any_size(alloc)?)
}

/// Prints the document of the lockfile, with the checksums that Cargo reads, as one line. Fails if
/// the lockfile is not read or `out` fails; a prefix of the text was then written in the last case,
/// and nothing in the other.
pub fn run<R: Files + Input + AllocGlobal, W: Write>(
    rt: &R,
    options: &ArgMatches<'_>,
    out: &mut W,
) -> Result<(), Fault>
    ensures { OnOk result
        (PrintsLockfile (found_of options.now) (W.contents out.old) (W.contents out.new)) }
{
    let lockfile = compared_lockfile(rt, options, "file")?;
    print_document(
        rt.alloc(),
        path_in_documents(options, "file"),
        &lockfile,
        out,
    )
}

/// Prints the document of a lockfile, and a newline.
fn print_document<W: Write>(
    alloc: Global,
    path: Option<&str>,
    lockfile: &Lockfile,
    out: &mut W,
) -> Result<(), Fault>
    ensures { OnOk result
        (PrintsLine (IsDocumentOf (option_map (λ t. t.now) path.entry) lockfile.now)
        (W.contents out.old) (W.contents out.new)) }
{
    let text = lockfile_json(alloc, path, lockfile)?;
    put(out, format_args!("{text}\n"))?;
    Ok(())
}
