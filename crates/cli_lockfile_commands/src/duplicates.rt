//! The command `duplicates`: the names that several packages of a lockfile have.
ghost use Rattle.std.specs.Prelude.{◌≡◌, IfOk, map};
ghost use Rattle.clap.specs.Matches.{found_of};
ghost use Rattle.cargo_lock_query.specs.Tally.{group_of_rows};
ghost use Rattle.cli_lockfile_commands.specs.Duplicates.{IsGroupsStatus, PrintsDuplicates, PrintsNames};

use cargo_lock::dependency::graph::Graph;
use cargo_lock_display::File;
use cargo_lock_query::Listing;
use clap::{ArgMatches, Command};
use cli_input::answer::print_answer;
use cli_input::load::{file_in, named_graph};
use cli_support::words::{any_size, json, long_flag};
use cli_support::{Fault, words};
use std::alloc::{AllocError, Global};
use std::io::{Input, Write};
use std::process::ExitCode;
use std::rt::Files;

/// The lines of `duplicates`, as help shows them.
const DUPLICATES_HELP: &str = "\
Each name that several packages have is shown with these packages:
  NAME
    VERSION SRC  needed by NAME VERSION, ..    a package, and those that depend on it
SRC is in round brackets: nothing for crates.io, and (path) for a package without a source where \
another one has its name and version. The last \
line counts these crates, their versions, and the packages that are more than one of each: \
1 crate in 2 versions (1 surplus package). Where no name is there, nothing is printed.";

/// The status, as help shows it.
const STATUS_HELP: &str = "Ends with status 1 where several packages have one name";

/// The parser of this command: its options.
pub fn command<'a>(alloc: Global) -> Result<Command<'a>, AllocError> {
    Command::new(alloc, "duplicates")
        .about("Lists the names that several packages have, and what needs each package")
        .after_help(DUPLICATES_HELP)
        .arg(words::file(alloc))?
        .arg(any_size(alloc)?)?
        .arg(long_flag(alloc, "exit-code")?.help(STATUS_HELP))?
        .arg(json(alloc)?)
}

/// Prints the names that several packages of the lockfile have, with these packages and what needs
/// each, and how many there are, or, if the arguments ask for it, all as one line of JSON. The
/// status is 1 if there is such a name and the arguments ask for it, and otherwise 0. Fails if the
/// lockfile is not read or has no tree, or if `out` fails; a prefix of the text was then written in
/// the last case, and nothing in the others.
pub fn run<R: Files + Input + AllocGlobal, W: Write>(
    rt: &R,
    options: &ArgMatches<'_>,
    out: &mut W,
) -> Result<ExitCode, Fault>
    ensures { IfOk result (λ status. PrintsDuplicates (found_of options.now)
        (W.contents out.old) (W.contents out.new)
        (status ≡ ExitCode.FAILURE) (status ≡ ExitCode.SUCCESS)) }
{
    let (format, graph) = named_graph(rt, options)?;
    let file = file_in(options, "file", format);
    report_names(rt.alloc(), options, &file, &graph, out)
}

/// Prints the names that several packages of a graph have. Returns the status.
fn report_names<W: Write>(
    alloc: Global,
    options: &ArgMatches<'_>,
    file: &File<'_>,
    graph: &Graph,
    out: &mut W,
) -> Result<ExitCode, Fault>
    ensures { IfOk result (λ status. PrintsNames (found_of options.now) file.now graph.now
        (W.contents out.old) (W.contents out.new)
        (status ≡ ExitCode.FAILURE) (status ≡ ExitCode.SUCCESS)) }
{
    let listing = Listing::about(alloc, graph)?;
    print_answer(alloc, options, file, &listing, out)?;
    Ok(status(options, &listing))
}

/// The status for the names that are printed.
fn status(options: &ArgMatches<'_>, listing: &Listing<'_>) -> ExitCode
    ensures { IsGroupsStatus (found_of options.now) (map group_of_rows listing.now.groups.items)
        (result ≡ ExitCode.FAILURE) (result ≡ ExitCode.SUCCESS) }
{
    if options.get_flag("exit-code") && !listing.groups.is_empty() {
        ExitCode::FAILURE
    } else {
        ExitCode::SUCCESS
    }
}
