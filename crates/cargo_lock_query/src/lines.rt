//! What is printed of the answers.

ghost use Rattle.std.specs.Prelude.{◌≡◌, IfOk, map};
ghost use Rattle.cargo_lock_query.specs.Lines.{needers_in};
ghost use Rattle.cargo_lock_query.specs.Lines as spec;

use cargo_lock_display::PackageAmong;
use cargo_lock_graph::graph::{Graph, NodeIndex};
use cargo_lock_parts::package::Package;
use cargo_lock_references::index::Indexed;
use std::alloc::{AllocError, Global};
use std::fmt;

/// Why a package is there.
#[derive(Drop)]
pub enum Answer<'a> {
    /// A chain of dependencies leads to the package. Each of the others needs the one before it.
    Needed(&'a Package, Vec<&'a Package>),

    /// No chain leads to the package.
    Nothing(&'a Package),
}

/// Displays why a package of a list is there, as lines, the last one without a newline: for a chain
/// `NAME VERSION` and, for each package that needs the one of the line before, `  needed by NAME
/// VERSION`, and otherwise `nothing leads to NAME VERSION`. Where several packages of the list have
/// a name and a version, the source is behind them. Texts that come from a lockfile are shown as
/// `Shown` shows them.
///
/// ```
/// for answer in &answers.answers {
///     let text = AnswerText(&answers.list, answer);
///     println!(rt; "{text}")?;
/// }
/// ```
#[derive(Clone, Copy)]
pub struct AnswerText<'a>(pub &'a Indexed<'a, Package>, pub &'a Answer<'a>);

impl fmt::Display for AnswerText<'_> {
    ghost use Rattle.std.specs.Prelude.{Some};
    ghost use Rattle.cargo_lock_query.specs.Lines.{answer_lines, answer_of};

    ghost output = { λ shown. Some (answer_lines shown.0.now (answer_of shown.1.now)) };

    fn fmt<W: fmt::Write>(&self, f: &mut fmt::Formatter<W>) -> fmt::Result {
        let AnswerText(list, answer) = *self;
        match answer {
            Answer::Needed(package, needers) => {
                let package = PackageAmong(list, package);
                let needers = Needers(list, needers);
                write!(f, "{package}{needers}")
            }
            Answer::Nothing(package) => {
                let package = PackageAmong(list, package);
                write!(f, "nothing leads to {package}")
            }
        }
    }
}

/// The packages of the other nodes of a chain, from its last node back, as `Answer` has them. Fails
/// when out of memory.
pub fn needers_of_chain<'a>(
    alloc: Global,
    graph: &'a Graph,
    chain: &[NodeIndex],
) -> Result<Vec<&'a Package>, AllocError>
    ensures { IfOk result (λ needers. map (λ p. p.now) needers.items
        ≡ needers_in graph.now.packages chain.now) }
{
    let mut needers = packages_at(alloc, graph, chain)?;
    needers.reverse();
    if !needers.is_empty() {
        needers.remove(0);
    }
    Ok(needers)
}

// The packages of some nodes, in their order.
pub(crate) fn packages_at<'a>(
    alloc: Global,
    graph: &'a Graph,
    nodes: &[NodeIndex],
) -> Result<Vec<&'a Package>, AllocError>
    ensures { IfOk result (λ packages. map (λ p. p.now) packages.items
        ≡ spec.packages_at graph.now.packages nodes.now) }
{
    let mut packages = Vec::with_capacity(alloc, nodes.len())?;
    for node in nodes {
        if let Some(one) = graph.node_weight(*node) {
            packages.push(one)?;
        }
    }
    Ok(packages)
}

/// Displays packages of a list, each of which needs the one of the line before: a newline and
/// `  needed by NAME VERSION` for each.
#[derive(Clone, Copy)]
pub struct Needers<'a>(pub &'a Indexed<'a, Package>, pub &'a Vec<&'a Package>);

impl fmt::Display for Needers<'_> {
    ghost use Rattle.std.specs.Prelude.{Some, map};
    ghost use Rattle.std.specs.List.{flat_map};
    ghost use Rattle.cargo_lock_query.specs.Lines.{needer_line};

    ghost output = { λ shown. Some (flat_map (needer_line shown.0.now)
        (map (λ p. p.now) shown.1.now.items)) };

    fn fmt<W: fmt::Write>(&self, f: &mut fmt::Formatter<W>) -> fmt::Result {
        let Needers(list, needers) = *self;
        for needer in needers {
            let needer = PackageAmong(list, needer);
            write!(f, "\n  needed by {needer}")?;
        }
        Ok(())
    }
}
