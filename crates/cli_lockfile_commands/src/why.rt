//! The command `why`: why packages are in a lockfile.
ghost use Rattle.std.specs.Prelude.{◌≡◌, IfOk, OnOk, map};
ghost use Rattle.clap.specs.Matches.{found_of};
ghost use Rattle.cargo_lock_query.specs.Lines.{answer_of};
ghost use Rattle.cli_lockfile_commands.specs.Why.{AreAsked, PrintsAsked, PrintsWhy};
ghost use Rattle.cli_lockfile_commands.specs.Why as spec;

use cargo_lock::Package;
use cargo_lock::dependency::graph::Graph;
use cargo_lock_display::File;
use cargo_lock_query::Answers;
use clap::{Arg, ArgAction, ArgMatches, Command};
use cli_input::answer::print_answer;
use cli_input::load::{file_in, named_graph};
use cli_input::spec::some_fitting;
use cli_support::words::{any_size, json, long_flag};
use cli_support::{Fault, words};
use std::alloc::{AllocError, Global};
use std::io::{Input, Write};
use std::rt::Files;

/// The lines of `why`, as help shows them.
const WHY_HELP: &str = "\
Each answer is a shortest chain of dependencies, with an empty line between two:
  NAME VERSION                  a package that SPEC fits
    needed by NAME VERSION      a package that depends on the one of the line before
The last package is a root, on which none depends, or, where no root leads to the package, one \
without a source. Of several shortest chains it is the one whose packages come first in the \
lockfile, compared from the root on. Where there is none, the answer is
  nothing leads to NAME VERSION
Where several packages have NAME and VERSION, the source is behind them in round brackets: (path) \
for a package without a source, and nothing for crates.io.";

/// The specification, as help shows it.
const SPEC_HELP: &str = "\
A package, by name, version, both as NAME@VERSION, checksum or commit; there is an answer for each \
that fits";

/// Chains from all roots, as help shows them.
const ALL_HELP: &str = "Shows a chain from each root that leads to the package";

/// The parser of this command: its options and its specification.
pub fn command<'a>(alloc: Global) -> Result<Command<'a>, AllocError> {
    Command::new(alloc, "why")
        .about("Shows why a package is in a lockfile")
        .after_help(WHY_HELP)
        .arg(words::file(alloc))?
        .arg(any_size(alloc)?)?
        .arg(long_flag(alloc, "all")?.help(ALL_HELP))?
        .arg(json(alloc)?)?
        .arg(spec(alloc))
}

/// The specification of a package.
fn spec<'a>(alloc: Global) -> Arg<'a> {
    Arg::new(alloc, "spec")
        .value_name("SPEC")
        .required(true)
        .action(ArgAction::Set)
        .help(SPEC_HELP)
}

/// Prints why the packages that the specification matches are in the lockfile: a chain of
/// dependencies for each, or, if the arguments ask for that, one from each root. If they ask for
/// JSON, it is all one line. Fails if the lockfile is not read or has no tree, if the specification
/// matches no package, or if `out` fails; a prefix of the text was then written in the last case,
/// and nothing in the others.
pub fn run<R: Files + Input + AllocGlobal, W: Write>(
    rt: &R,
    options: &ArgMatches<'_>,
    out: &mut W,
) -> Result<(), Fault>
    ensures { OnOk result
        (PrintsWhy (found_of options.now) (W.contents out.old) (W.contents out.new)) }
{
    let (format, graph) = named_graph(rt, options)?;
    let file = file_in(options, "file", format);
    report_answers(rt.alloc(), options, &file, &graph, out)
}

/// Prints why packages of a graph are there.
fn report_answers<W: Write>(
    alloc: Global,
    options: &ArgMatches<'_>,
    file: &File<'_>,
    graph: &Graph,
    out: &mut W,
) -> Result<(), Fault>
    ensures { OnOk result (PrintsAsked (found_of options.now) file.now graph.now
        (W.contents out.old) (W.contents out.new)) }
{
    let answers = asked(alloc, options, graph)?;
    print_answer(alloc, options, file, &answers, out)
}

/// The answers that the arguments ask for.
fn asked<'a>(
    alloc: Global,
    options: &ArgMatches<'_>,
    graph: &'a Graph,
) -> Result<Answers<'a>, Fault>
    ensures answers { IfOk result (λ made. AreAsked (found_of options.now) graph.now
        (map answer_of made.answers.items)) }
    ensures list { IfOk result (λ made. made.list ≡ graph.now.packages) }
{
    let nodes = some_fitting(alloc, graph.packages(), given_spec(options))?;
    let answers = Answers::about(alloc, graph, &nodes, options.get_flag("all"))?;
    Ok(answers)
}

/// The specification that the arguments give.
fn given_spec<'a>(options: &ArgMatches<'a>) -> &'a str
    ensures { result.now ≡ spec.given_spec (found_of options.now) }
{
    options.get_str("spec").unwrap_or("")
}
