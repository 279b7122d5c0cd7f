//! Why the packages of findings are in a lockfile, as `audit --why` prints it.
ghost use Rattle.std.specs.Prelude.{◌≡◌, IfOk, OnOk, map, option_map, string_bytes};
ghost use Rattle.cargo_lock_audit.specs.Findings.{advisory_finding_of};
ghost use Rattle.cargo_lock_audit.specs.Report.{report_data_of};
ghost use Rattle.cargo_lock_edges.specs.OwnGraph.{IsOwnGraph};
ghost use Rattle.cli_folder_commands.specs.Reasoned.{AreNeedersAt, IsReasonedAt, IsReasonedText};
ghost use Rattle.cli_folder_commands.specs.Reasoned.{PrintsReasoned, first_like, reasoned_lines};

use cargo_lock::dependency::graph::{Graph, NodeIndex};
use cargo_lock::package::Package;
use cargo_lock_audit::{Finding, Report, write_rest};
use cargo_lock_edges::own_graph;
use cargo_lock_query::{Needers, needers_of_chain, why};
use cargo_lock_references::index::Indexed;
use cli_support::Fault;
use cli_support::output::put;
use std::alloc::{AllocError, Global};
use std::fmt;
use std::io::Write;

/// Prints a report on packages, or only its findings if it is not whole, and below each finding why its
/// package is among them, by the chain that `why` shows. Fails if no package matches a dependency, when
/// out of memory, or if `out` fails; a prefix of the text was then written in the last case, and nothing
/// in the others.
pub(crate) fn print_reasoned<W: Write>(
    alloc: Global,
    packages: &[Package],
    report: &Report<'_, '_, '_>,
    is_whole: bool,
    out: &mut W,
) -> Result<(), Fault>
    ensures { OnOk result (PrintsReasoned packages.now (report_data_of report.now) is_whole
        (W.contents out.old) (W.contents out.new)) }
{
    let graph = own_graph(alloc, packages)?;
    let lines = all_lines(alloc, packages, &graph, &report.findings)?;
    let rest = Rest { report, is_whole };
    put(out, format_args!("{lines}{rest}"))?;
    Ok(())
}

/// The lines of findings, each with why its package is there.
fn all_lines(
    alloc: Global,
    packages: &[Package],
    graph: &Graph,
    findings: &[Finding<'_, '_>],
) -> Result<String, AllocError>
    requires { IsOwnGraph packages.now graph.now }
    ensures { IfOk result (λ lines. IsReasonedText packages.now graph.now
        (map advisory_finding_of findings.now) (string_bytes lines)) }
{
    let list = Indexed::of(alloc, graph.packages())?;
    let mut lines = String::new(alloc);
    for finding in findings {
        let one = finding_lines(alloc, packages, graph, &list, finding)?;
        lines.push_str(one.as_str())?;
    }
    Ok(lines)
}

/// The lines of a finding, with why its package is there.
fn finding_lines(
    alloc: Global,
    packages: &[Package],
    graph: &Graph,
    list: &Indexed<'_, Package>,
    finding: &Finding<'_, '_>,
) -> Result<String, AllocError>
    requires { IsOwnGraph packages.now graph.now }
    ensures { IfOk result (λ lines. IsReasonedAt packages.now graph.now list.now
        (advisory_finding_of finding.now) (string_bytes lines)) }
{
    let needers = needers_of(alloc, packages, graph, finding.package)?;
    lines_with(alloc, list, finding, &needers)
}

/// The lines of a finding, with the packages of a chain.
fn lines_with(
    alloc: Global,
    list: &Indexed<'_, Package>,
    finding: &Finding<'_, '_>,
    needers: &Option<Vec<&Package>>,
) -> Result<String, AllocError>
    ensures { IfOk result (λ lines. string_bytes lines ≡ reasoned_lines list.now (record {
      finding = advisory_finding_of finding.now;
      needers = option_map (λ v. map (λ p. p.now) v.items) needers.now;
    })) }
{
    let reason = ReasonText(list, needers);
    format!(in alloc; "{finding}{reason}\n")
}

/// The packages of the chain that leads to a package, if one leads there.
fn needers_of<'g>(
    alloc: Global,
    packages: &[Package],
    graph: &'g Graph,
    package: &Package,
) -> Result<Option<Vec<&'g Package>>, AllocError>
    requires { IsOwnGraph packages.now graph.now }
    ensures { IfOk result (λ needers. AreNeedersAt graph.now
        (first_like packages.now «package».now)
        (option_map (λ v. map (λ p. p.now) v.items) needers)) }
{
    let Some(node) = place_of(packages, package) else {
        return Ok(None);
    };
    match why(alloc, graph, NodeIndex::new(node))? {
        Some(chain) => Ok(Some(needers_of_chain(alloc, graph, &chain)?)),
        None => Ok(None),
    }
}

/// The place of the first package that is the same as this one.
fn place_of(packages: &[Package], package: &Package) -> Option<usize>
    ensures { result ≡ first_like packages.now «package».now }
{
    packages.iter().position(|one| one == package)
}

// ---- lines

/// The lines of a report behind those of its findings, if it is whole.
#[derive(Clone, Copy)]
struct Rest<'a> {
    report: &'a Report<'a, 'a, 'a>,
    is_whole: bool,
}

impl fmt::Display for Rest<'_> {
    ghost use Rattle.std.specs.Prelude.{Some};
    ghost use Rattle.cargo_lock_audit.specs.Report.{report_data_of};
    ghost use Rattle.cli_folder_commands.specs.Reasoned.{rest_if};

    ghost output = { λ rest. Some (rest_if rest.is_whole (report_data_of rest.report.now)) };

    fn fmt<W: fmt::Write>(&self, f: &mut fmt::Formatter<W>) -> fmt::Result {
        let Rest { report, is_whole } = *self;
        if is_whole {
            write_rest(report, f)
        } else {
            Ok(())
        }
    }
}

/// The lines below a finding, each after a newline.
#[derive(Clone, Copy)]
struct ReasonText<'a>(&'a Indexed<'a, Package>, &'a Option<Vec<&'a Package>>);

impl fmt::Display for ReasonText<'_> {
    ghost use Rattle.std.specs.Prelude.{Some, map, option_map};
    ghost use Rattle.cli_folder_commands.specs.Reasoned.{reason_lines};

    ghost output = { λ shown. Some (reason_lines shown.0.now
        (option_map (λ v. map (λ p. p.now) v.items) shown.1.now)) };

    fn fmt<W: fmt::Write>(&self, f: &mut fmt::Formatter<W>) -> fmt::Result {
        let ReasonText(list, needers) = *self;
        match needers {
            Some(needers) => {
                let needers = Needers(list, needers);
                write!(f, "{needers}")
            }
            None => f.write_str("\n  nothing leads to it"),
        }
    }
}
