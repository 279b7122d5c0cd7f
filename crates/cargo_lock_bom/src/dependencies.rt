//! The entries of a bill of materials: what each package depends on.

ghost use Rattle.std.specs.Prelude.{◌≡◌, ◌<◌, ◌∷◌, ◌++◌, [], All, IfOk, codes, length, map};
ghost use Rattle.std.specs.Prelude.{string_bytes};
ghost use Rattle.std.specs.List.{AllZip};
ghost use Rattle.json.specs.Token as token;
ghost use Rattle.serde_json.specs.Data.{Data, array, string};
ghost use Rattle.serde_json.specs.View.{items_of};
ghost use Rattle.cargo_lock_graph.specs.declared.graph.EdgeDirection.TheVariants.{Outgoing};
ghost use Rattle.cargo_lock_graph.specs.Edges.{far_ends};
ghost use Rattle.cargo_lock_bom.specs.Contents.{entry_by, entry_for, own_text, text_at};
ghost use Rattle.cargo_lock_bom.specs.Dependencies.{AreEdgeTargets, AreEntries, IsNodeEntry};
ghost use Rattle.cargo_lock_bom.specs.Dependencies.{IsWorkspaceEntry};
ghost use Rattle.cargo_lock_bom.specs.Tokens.{data_tokens};
ghost use Rattle.printing.specs.Json.{Adds};

use crate::reference::text_at;
use crate::root::{Root, members};
use cargo_lock_graph::graph::{EdgeDirection, Graph, NodeIndex};
use cargo_lock_graph::listed::list_ends;
use printing::JsonWriter;
use std::alloc::{AllocError, Global};

/// The nodes of an entry.
#[derive(Drop)]
pub(crate) struct Entry {
    /// The node of its package, or `None` if the entry is that of the workspace.
    pub of: Option<NodeIndex>,

    /// The nodes of the packages on which that depends, ascending.
    pub on: Vec<usize>,
}

/// The entries of some nodes of a graph, in order, and then the entry of the workspace, if it is
/// the root. Fails when out of memory.
pub(crate) fn entries(
    alloc: Global,
    graph: &Graph,
    nodes: &[usize],
    root: &Root,
) -> Result<Vec<Entry>, AllocError>
    requires { All (λ k. k < length graph.now.packages) nodes.now }
    ensures { IfOk result (λ made. AreEntries graph.now root.now nodes.now
        (map (entry_for graph.now.packages) made.items)) }
{
    let made = node_entries(alloc, graph, nodes)?;
    match root {
        Root::Package(_) => Ok(made),
        Root::Workspace => with_workspace(alloc, graph, made),
        Root::Nothing => Ok(made),
    }
}

// These entries, and then that of the workspace.
fn with_workspace(
    alloc: Global,
    graph: &Graph,
    entries: Vec<Entry>,
) -> Result<Vec<Entry>, AllocError>
    ensures { IfOk result (λ made. (d : Data) × IsWorkspaceEntry graph.now.packages d
        × (map (entry_for graph.now.packages) made.items
        ≡ map (entry_for graph.now.packages) entries.items ++ d ∷ [])) }
{
    let own = workspace_entry(alloc, graph)?;
    let mut made = entries;
    made.push(own)?;
    Ok(made)
}

fn workspace_entry(alloc: Global, graph: &Graph) -> Result<Entry, AllocError>
    ensures { IfOk result (λ e. IsWorkspaceEntry graph.now.packages
        (entry_for graph.now.packages e)) }
{
    let on = members(alloc, graph)?;
    Ok(Entry { of: None, on })
}

// The entries of some nodes of a graph, in order.
fn node_entries(alloc: Global, graph: &Graph, nodes: &[usize]) -> Result<Vec<Entry>, AllocError>
    requires { All (λ k. k < length graph.now.packages) nodes.now }
    ensures { IfOk result (λ made. AllZip (IsNodeEntry graph.now) nodes.now
        (map (entry_for graph.now.packages) made.items)) }
{
    let mut made = Vec::with_capacity(alloc, nodes.len())?;
    for node in nodes {
        made.push(node_entry(alloc, graph, NodeIndex::new(*node))?)?;
    }
    Ok(made)
}

fn node_entry(alloc: Global, graph: &Graph, node: NodeIndex) -> Result<Entry, AllocError>
    requires { node < length graph.now.packages }
    ensures { IfOk result (λ e. IsNodeEntry graph.now node (entry_for graph.now.packages e)) }
{
    let on = targets(alloc, graph, node)?;
    Ok(Entry { of: Some(node), on })
}

/// Writes entries, with these texts that refer to the packages of nodes. Fails when out of memory.
pub(crate) fn put_entries(
    out: &mut JsonWriter,
    texts: &[String],
    entries: &[Entry],
) -> Result<(), AllocError>
    ensures { Adds result out.old out.new (data_tokens (array (items_of
        (map (entry_by (map string_bytes texts.now)) entries.now)))) }
{
    out.begin_array()?;
    for entry in entries {
        put_entry(out, texts, entry)?;
    }
    out.end_array()
}

fn put_entry(out: &mut JsonWriter, texts: &[String], entry: &Entry) -> Result<(), AllocError>
    ensures { Adds result out.old out.new (data_tokens
        (entry_by (map string_bytes texts.now) entry.now)) }
{
    out.begin_object()?;
    out.key("dependsOn")?;
    put_texts(out, texts, entry.on.as_slice())?;
    put_own_text(out, texts, entry.of)?;
    out.end_object()
}

// Writes the texts of some nodes.
fn put_texts(out: &mut JsonWriter, texts: &[String], nodes: &[usize]) -> Result<(), AllocError>
    ensures { Adds result out.old out.new (data_tokens (array (items_of
        (map (λ k. string (text_at (map string_bytes texts.now) k)) nodes.now)))) }
{
    out.begin_array()?;
    for node in nodes {
        out.string(text_at(texts, *node))?;
    }
    out.end_array()
}

// Writes the member with the text of a node, or of the workspace.
fn put_own_text(
    out: &mut JsonWriter,
    texts: &[String],
    node: Option<NodeIndex>,
) -> Result<(), AllocError>
    ensures { Adds result out.old out.new (token.key (codes "ref")
        ∷ token.string (own_text (map string_bytes texts.now) node) ∷ []) }
{
    match node {
        Some(node) => out.string_member("ref", text_at(texts, node.index())),
        None => out.string_member("ref", "workspace"),
    }
}

// The nodes to which the edges of a node lead, ascending, each listed once.
fn targets(alloc: Global, graph: &Graph, node: NodeIndex) -> Result<Vec<usize>, AllocError>
    ensures { IfOk result (λ targets. AreEdgeTargets graph.now node targets.items) }
{
    let mut targets = ends(alloc, graph, node)?;
    targets.sort_unstable();
    targets.dedup();
    Ok(targets)
}

/// The nodes to which the edges of a node lead, newest edge first.
pub(crate) fn ends(alloc: Global, graph: &Graph, node: NodeIndex) -> Result<Vec<usize>, AllocError>
    ensures are { IfOk result (λ ends. ends.items ≡ far_ends Outgoing graph.now.edges node) }
    ensures within { IfOk result (λ ends. All (λ k. k < length graph.now.packages) ends.items) }
{
    let nodes = list_ends(alloc, graph, node, EdgeDirection::Outgoing)?;
    let mut ends = Vec::with_capacity(alloc, nodes.len())?;
    for end in &nodes {
        ends.push(end.index())?;
    }
    Ok(ends)
}
