//! The command `graph`: the packages of a lockfile as a picture that another program draws.
ghost use Rattle.std.specs.Prelude.{◌≡◌, ◌<◌, All, IfOk, OnOk, length, map};
ghost use Rattle.std.specs.Io.KnownBytes.{Appends};
ghost use Rattle.clap.specs.Matches.{found_of};
ghost use Rattle.cargo_lock_diagram.specs.Diagram.{diagram_text};
ghost use Rattle.cli_lockfile_commands.specs.Graph.{AreBegun, AreDrawnStarts, AreFitting, DrawsGraph};
ghost use Rattle.cli_lockfile_commands.specs.Graph.{DrawsPicture, target_in};
ghost use Rattle.cli_lockfile_commands.specs.Tree.{given_specs};

use cargo_lock::Package;
use cargo_lock::dependency::graph::{EdgeDirection, Graph, NodeIndex};
use cargo_lock::dependency::tree::roots_of;
use cargo_lock_diagram::{Diagram, Picture, Target, picture_from};
use cargo_lock_query::reason::members;
use clap::{Arg, ArgAction, ArgMatches, Command};
use cli_input::load::named_graph;
use cli_input::spec::{some_fitting, specs};
use cli_support::Fault;
use cli_support::output::put;
use cli_support::words::{any_size, file, flag};
use std::alloc::{AllocError, Global};
use std::io::{Input, Write};
use std::rt::Files;

/// The names of the formats: the text is for Graphviz, or for Mermaid.
const FORMATS: [&str; 2] = ["dot", "mermaid"];

/// What a picture shows, as help shows it.
const GRAPH_HELP: &str = "\
Each package is a node, and each package on which it depends has an edge from it. A package without \
a source is a rectangle, one of a git repository a hexagon, and any other is rounded. For a file: \
cargo-lock graph | dot -Tsvg > graph.svg";

/// The specifications, as help shows them.
const SPEC_HELP: &str = "\
Packages, by name, version, both as NAME@VERSION, checksum or commit; each that fits is a start";

/// The parser of this command: its options and its specifications.
pub fn command<'a>(alloc: Global) -> Result<Command<'a>, AllocError> {
    Command::new(alloc, "graph")
        .about("Writes a picture of packages, for Graphviz or Mermaid")
        .after_help(GRAPH_HELP)
        .arg(file(alloc))?
        .arg(any_size(alloc)?)?
        .arg(format(alloc))?
        .arg(flag(alloc, "invert", 'i')?.help("Shows what depends on each package"))?
        .arg(specs(alloc).help(SPEC_HELP))
}

/// The option for the program that draws the text.
fn format<'a>(alloc: Global) -> Arg<'a> {
    Arg::new(alloc, "format")
        .long("format")
        .value_name("FORMAT")
        .action(ArgAction::Set)
        .value_parser(FORMATS.as_slice())
        .default_value("dot")
        .help("The text is for Graphviz, or for Mermaid")
}

/// Prints the picture of the packages that the specifications name, or of the roots and the packages
/// of the workspace if there are none, and of what they lead to. Fails if the lockfile is not read or has no tree, if a
/// specification matches no package, or if `out` fails; a prefix of the text was then written in
/// the last case, and nothing in the others.
pub fn run<R: Files + Input + AllocGlobal, W: Write>(
    rt: &R,
    options: &ArgMatches<'_>,
    out: &mut W,
) -> Result<(), Fault>
    ensures { OnOk result
        (DrawsGraph (found_of options.now) (W.contents out.old) (W.contents out.new)) }
{
    let (_, graph) = named_graph(rt, options)?;
    draw_graph(rt.alloc(), options, &graph, out)
}

/// Prints the picture of a graph.
fn draw_graph<W: Write>(
    alloc: Global,
    options: &ArgMatches<'_>,
    graph: &Graph,
    out: &mut W,
) -> Result<(), Fault>
    ensures { OnOk result (DrawsPicture (found_of options.now) graph.now
        (W.contents out.old) (W.contents out.new)) }
{
    let starts = starts(alloc, graph, options)?;
    let direction = EdgeDirection::of_tree(options.get_flag("invert"));
    let picture = picture_from(alloc, graph, &starts, direction)?;
    put_picture(out, target(options), graph, &picture)
}

/// The nodes from which the picture begins.
fn starts(alloc: Global, graph: &Graph, options: &ArgMatches<'_>) -> Result<Vec<NodeIndex>, Fault>
    ensures within { IfOk result (λ starts.
        All (λ start. start < length graph.now.packages) starts.items) }
    ensures begun { IfOk result (λ starts.
        AreBegun (given_specs (found_of options.now)) graph.now starts.items) }
{
    match options.get_strs("spec") {
        Some(specs) => starts_of(alloc, graph, specs),
        None => drawn_starts(alloc, graph),
    }
}

/// The nodes from which the picture begins if these are the specifications.
fn starts_of(alloc: Global, graph: &Graph, specs: &[&str]) -> Result<Vec<NodeIndex>, Fault>
    ensures within { IfOk result (λ starts.
        All (λ start. start < length graph.now.packages) starts.items) }
    ensures begun { IfOk result (λ starts.
        AreBegun (map (λ spec. spec.now) specs.now) graph.now starts.items) }
{
    if specs.is_empty() {
        return drawn_starts(alloc, graph);
    }
    all_fitting(alloc, graph.packages(), specs)
}

/// The nodes from which the picture begins without specifications: the roots, and the packages of
/// the workspace, to which no root leads where they depend on each other in a circle.
fn drawn_starts(alloc: Global, graph: &Graph) -> Result<Vec<NodeIndex>, Fault>
    ensures within { IfOk result (λ starts.
        All (λ start. start < length graph.now.packages) starts.items) }
    ensures drawn { IfOk result (λ starts. AreDrawnStarts graph.now starts.items) }
{
    let mut starts = roots_of(alloc, graph)?;
    let members = members(alloc, graph)?;
    starts.extend_from_slice(&members)?;
    Ok(starts)
}

/// The nodes of the packages that match the specifications. Fails if none matches one of them.
fn all_fitting(alloc: Global, packages: &[Package], specs: &[&str]) -> Result<Vec<NodeIndex>, Fault>
    ensures fitting { IfOk result
        (λ starts. AreFitting (map (λ spec. spec.now) specs.now) packages.now starts.items) }
    ensures within { IfOk result
        (λ starts. All (λ start. start < length packages.now) starts.items) }
{
    let mut starts = Vec::new(alloc);
    for spec in specs {
        let fitting = some_fitting(alloc, packages, spec)?;
        starts.extend_from_slice(&fitting)?;
    }
    Ok(starts)
}

/// The program that draws the text.
fn target(options: &ArgMatches<'_>) -> Target
    ensures { result ≡ target_in (found_of options.now) }
{
    match options.get_str("format") {
        Some("mermaid") => Target::Mermaid,
        _ => Target::Dot,
    }
}

/// Prints the text of a picture.
fn put_picture<W: Write>(
    out: &mut W,
    target: Target,
    graph: &Graph,
    picture: &Picture,
) -> Result<(), Fault>
    ensures { OnOk result (Appends (W.contents out.old) (W.contents out.new)
        (diagram_text target graph.now.packages picture.now.nodes.items
        picture.now.arrows.items)) }
{
    let diagram = Diagram {
        target,
        graph,
        picture,
    };
    put(out, format_args!("{diagram}"))?;
    Ok(())
}
