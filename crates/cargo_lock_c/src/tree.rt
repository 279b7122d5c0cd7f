//! The tree of a package, as it is drawn.

ghost use Rattle.std.specs.Prelude.{◌≡◌, ◌<◌, ◌≤◌, ◌⊎◌, IfErr, IfOk, List, cond, length};
ghost use Rattle.cargo_lock_parts.specs.Identity.{Identity};
ghost use Rattle.cargo_lock_graph.specs.declared.drawing.entry.Entry.{Entry};
ghost use Rattle.cargo_lock_graph.specs.declared.graph.EdgeDirection.TheVariants.{Incoming};
ghost use Rattle.cargo_lock_graph.specs.declared.graph.EdgeDirection.TheVariants.{Outgoing};
ghost use Rattle.cargo_lock_graph.specs.Drawing.{IsDrawing};
ghost use Rattle.cargo_lock_graph.specs.DrawingText.{drawing_text, standard_symbols};
ghost use Rattle.cargo_lock_graph.specs.Edges.{far_ends};
ghost use Rattle.cargo_lock_graph.specs.Labels.{label_at};
ghost use Rattle.cargo_lock_graph.specs.Targets.{AreEdgesOf, IsFirstLost, links};
ghost use Rattle.cargo_lock_edges.specs.OwnGraph.{IsOwnGraph};
ghost use Rattle.cargo_lock_c.specs.declared.refusal.Refusal.TheVariants.{NoMemory, Unresolved};
ghost use Rattle.cargo_lock_c.specs.Answers.{IsHandedOut};
ghost use Rattle.cargo_lock_c.specs.Graph.{IsTreeText, IsUnresolvedText, LacksPackage};
ghost use Rattle.cargo_lock_c.specs.Statuses.{status_of};
ghost use Rattle.cargo_lock_c.specs.Texts.{RefusesText};

use crate::handing::hand_out;
use crate::reading::read;
use crate::refusal::Refusal;
use cargo_lock::Lockfile;
use cargo_lock::dependency::Tree;
use cargo_lock::dependency::graph::{EdgeDirection, Graph, NodeIndex};
use cargo_lock_edges::own_graph;
use std::alloc::Global;

/// The drawing of the tree of a package, by its number in the lockfile's order: of what it depends
/// on, or, if it is inverted, of what depends on it. A label is the name and the version, and if it
/// is exact also the checksum, or else the source. Status 7 means that a dependency has no package,
/// and 8 that there is no package of that number.
#[unsafe(no_mangle)]
pub extern "C" fn cargo_lock_tree(
    alloc: Global,
    text: &[u8],
    number: usize,
    inverted: bool,
    exact: bool,
    out: &mut [u8],
    length: &mut usize,
) -> u32
    ensures tree { IsHandedOut
        (IsTreeText text.now number (cond inverted Incoming Outgoing) exact)
        result out.old out.new length.old length.new }
    ensures unresolved { result ≡ 7 → IsUnresolvedText text.now }
    ensures no_package { result ≡ 8 → LacksPackage text.now number }
    ensures refused { RefusesText text.now result }
    ensures status { (result ≤ 3) ⊎ (result ≡ 5) ⊎ (result ≡ 7) ⊎ (result ≡ 8) }
{
    let node = NodeIndex::new(number);
    match drawing(alloc, text, node, EdgeDirection::of_tree(inverted), exact) {
        Ok(drawing) => hand_out(drawing.as_slice(), out, length),
        Err(refusal) => refusal.status(),
    }
}

/// The drawing of a node's tree, in the graph of the lockfile of a text's bytes.
fn drawing(
    alloc: Global,
    bytes: &[u8],
    node: NodeIndex,
    direction: EdgeDirection,
    exact: bool,
) -> Result<Vec<u8>, Refusal>
    ensures ok { IfOk result (λ drawing. IsTreeText bytes.now node direction exact drawing.items) }
    ensures unresolved { IfErr result (λ refusal. status_of refusal ≡ 7
        → IsUnresolvedText bytes.now) }
    ensures no_package { IfErr result (λ refusal. status_of refusal ≡ 8
        → LacksPackage bytes.now node) }
    ensures refused { IfErr result (λ refusal. RefusesText bytes.now (status_of refusal)) }
    ensures kind { IfErr result (λ refusal. (status_of refusal ≤ 3) ⊎ (status_of refusal ≡ 7)
        ⊎ (status_of refusal ≡ 8)) }
{
    let lockfile = read(alloc, bytes)?;
    let tree = tree_of(alloc, &lockfile)?;
    if node.index() >= tree.graph().node_count() {
        return Err(Refusal::NoPackage);
    }
    let drawing = draw(alloc, &tree, node, direction, exact)?;
    Ok(drawing)
}

pub(crate) fn tree_of(alloc: Global, lockfile: &Lockfile) -> Result<Tree, Refusal>
    ensures packages { IfOk result (λ tree. tree.graph.packages ≡ lockfile.now.packages) }
    ensures edges { IfOk result (λ tree. AreEdgesOf lockfile.now.packages tree.graph.edges) }
    ensures err { IfErr result (λ refusal. (refusal ≡ NoMemory) ⊎ ((refusal ≡ Unresolved)
        × (d : Identity) × IsFirstLost lockfile.now.packages (links lockfile.now.packages) d)) }
{
    match lockfile.dependency_tree(alloc) {
        Ok(tree) => Ok(tree),
        Err(fault) => Err(Refusal::from(fault)),
    }
}

/// The graph of a lockfile's packages, as their dependencies lead in this project's own commands.
pub(crate) fn graph_of(alloc: Global, lockfile: &Lockfile) -> Result<Graph, Refusal>
    ensures ok { IfOk result (IsOwnGraph lockfile.now.packages) }
    ensures err { IfErr result (λ refusal. (refusal ≡ NoMemory) ⊎ ((refusal ≡ Unresolved)
        × (d : Identity) × IsFirstLost lockfile.now.packages (links lockfile.now.packages) d)) }
{
    match own_graph(alloc, lockfile.packages.as_slice()) {
        Ok(graph) => Ok(graph),
        Err(fault) => Err(Refusal::from(fault)),
    }
}

/// The drawing of a node's tree.
fn draw(
    alloc: Global,
    tree: &Tree,
    node: NodeIndex,
    direction: EdgeDirection,
    exact: bool,
) -> Result<Vec<u8>, Refusal>
    requires { node < length tree.now.graph.packages }
    ensures ok { IfOk result (λ drawing. (entries : List Entry)
        × IsDrawing (far_ends direction tree.now.graph.edges) node entries
        × (drawing.items
        ≡ drawing_text standard_symbols (label_at exact tree.now.graph.packages) entries)) }
    ensures err { IfErr result (λ refusal. refusal ≡ NoMemory) }
{
    let mut drawing: Vec<u8> = Vec::new(alloc);
    match tree.render(alloc, &mut drawing, node, direction, exact) {
        Ok(()) => Ok(drawing),
        Err(fault) => Err(Refusal::from(fault)),
    }
}
