//! The bill of materials of the packages of a lockfile, as the program prints it.

ghost use Rattle.std.specs.Prelude.{◌≡◌, ◌∷◌, ◌++◌, [], cond, IfErr, IfOk, string_bytes};
ghost use Rattle.json.specs.Layout.{pretty};
ghost use Rattle.json.specs.Print.{print};
ghost use Rattle.cargo_lock_parts.specs.Ascii.{newline};
ghost use Rattle.cargo_lock_bom.specs.Document.{IsLaidOut, ReadsAsBill};
ghost use Rattle.cargo_lock_bom.specs.Options.{within};
ghost use Rattle.cargo_lock_bom.specs.Printed.{IsPrintedBill, IsUnprinted, bill_packages, own_root};
ghost use Rattle.cargo_lock_bom.specs.References.{IsRepeatedFault};

use crate::document::{compact_text, pretty_text};
use crate::options::Options;
use cargo_lock_edges::own_graph;
use cargo_lock_graph::graph::{Graph, NodeIndex};
use cargo_lock_parts::{Package, Result};
use std::alloc::{AllocError, Global};

/// The packages of a bill, and the node of the separate root, if there is one. The packages are
/// those of a lockfile, followed by its root if that is separate from them, as in lockfiles of V1.
/// Fails when out of memory.
pub fn with_root(
    packages: Vec<Package>,
    root: Option<Package>,
) -> std::result::Result<(Vec<Package>, Option<NodeIndex>), AllocError>
    ensures packages { IfOk result (λ made. made.0.items ≡ bill_packages packages.items root) }
    ensures root { IfOk result (λ made. made.1 ≡ own_root packages.items root) }
{
    let mut packages = packages;
    let Some(root) = root else {
        return Ok((packages, None));
    };
    let node = NodeIndex::new(packages.len());
    packages.push(root)?;
    Ok((packages, Some(node)))
}

/// The text of the bill of materials of packages and a newline. The text is in one line if
/// `is_compact` is true. A package depends on those to which its dependencies lead in this project's
/// own commands: on the package of their own words first, and on what replaces a package.
///
/// `Resolution` names the first dependency that no package matches, and `Parse` means that two
/// packages have the same `bom-ref`, as for `document`. The other error is `Memory`.
pub fn printed_bill(
    alloc: Global,
    packages: &Vec<Package>,
    options: &Options<'_>,
    is_compact: bool,
) -> Result<String>
    ensures ok { IfOk result (λ line.
        IsPrintedBill packages.now.items «options».now is_compact (string_bytes line)) }
    ensures err { IfErr result (IsUnprinted packages.now.items) }
{
    let graph = own_graph(alloc, packages)?;
    let text = text_of(alloc, &graph, options, is_compact)?;
    let line = with_newline(text)?;
    Ok(line)
}

// The text of the bill of materials of a graph.
fn text_of(alloc: Global, graph: &Graph, options: &Options<'_>, is_compact: bool) -> Result<String>
    ensures ok { IfOk result (λ text.
        ReadsAsBill graph.now (within graph.now «options».now) (string_bytes text)) }
    ensures layout { IfOk result (λ text.
        IsLaidOut (cond is_compact print pretty) (string_bytes text)) }
    ensures err { IfErr result (IsRepeatedFault graph.now.packages) }
{
    if is_compact {
        compact_text(alloc, graph, options)
    } else {
        pretty_text(alloc, graph, options)
    }
}

fn with_newline(text: String) -> std::result::Result<String, AllocError>
    ensures { IfOk result (λ line. string_bytes line ≡ string_bytes text ++ newline ∷ []) }
{
    let mut text = text;
    text.push('\n')?;
    Ok(text)
}
