//! Trees of packages: what each package depends on.

ghost use Rattle.std.specs.Prelude.{◌≡◌, ◌<◌, All, IfErr, IfOk, IsOkUnless, length};
ghost use Rattle.std.specs.BTreeMap.{get, keys};
ghost use Rattle.cargo_lock_parts.specs.declared.error.Error.TheVariants.{Memory};
ghost use Rattle.cargo_lock_parts.specs.Identity.{Identity};
ghost use Rattle.cargo_lock_parts.specs.IdentityOrder.{identity_cmp};
ghost use Rattle.cargo_lock_graph.specs.declared.graph.EdgeDirection.TheVariants.{Incoming};
ghost use Rattle.cargo_lock_graph.specs.Edges.{externals};
ghost use Rattle.cargo_lock_graph.specs.Rendering.{Draws};
ghost use Rattle.cargo_lock_graph.specs.Sinks.{CanCountFault, IsRenderedInto, IsRenderedTo};
ghost use Rattle.cargo_lock_graph.specs.Targets.{AreEdgesOf, IsLastWith, IsOfPackage};
ghost use Rattle.cargo_lock_graph.specs.Targets.{IsUnresolved, links};

use crate::error::Result;
use crate::lockfile::Lockfile;
use cargo_lock_edges::building::{graph_from, graph_of};
use cargo_lock_graph::drawing::{Look, render_into, render_onto};
pub use cargo_lock_graph::drawing::{Sink, Symbols, WriterSink, laws};
use cargo_lock_graph::graph::{EdgeDirection, Graph, NodeIndex, Nodes};
use cargo_lock_graph::listed::list_externals;
use std::alloc::{AllocError, Global};
use std::io::Write;
use std::marker::Model;

/// The tree of a lockfile: its packages as the nodes of a graph, and their dependencies as edges. A
/// type invariant says that the edges are those of the packages, and the nodes those of their
/// identities.
#[derive(Debug, Drop)]
pub struct Tree {
    graph: Graph,
    nodes: Nodes,
}

impl Model for Tree {
    ghost use Rattle.std.specs.BTreeMap.{get, keys};
    ghost use Rattle.std.specs.List.{All};
    ghost use Rattle.cargo_lock_parts.specs.Identity.{Identity};
    ghost use Rattle.cargo_lock_parts.specs.IdentityOrder.{identity_cmp};
    ghost use Rattle.cargo_lock_graph.specs.Targets.{AreEdgesOf, IsLastWith, IsOfPackage};
    ghost use Rattle.cargo_lock.specs.Trees.{TreeData};

    ghost Value = { TreeData };

    ghost view = { λ tree. record { graph = tree.graph; nodes = tree.nodes.entries } };

    ghost invariant = { λ tree. AreEdgesOf tree.graph.packages tree.graph.edges
        × ((i : Identity) → IsLastWith tree.graph.packages i (get identity_cmp tree.nodes i))
        × All (IsOfPackage tree.graph.packages) (keys tree.nodes) };
}

impl Clone for Tree {
    ghost use Rattle.std.specs.Prelude.{◌≡◌};

    ghost is_clone = { λ one copy. copy ≡ one };

    fn clone(&self) -> std::result::Result<Tree, AllocError> {
        Ok(Tree {
            graph: self.graph.clone()?,
            nodes: clone_nodes(&self.nodes)?,
        })
    }
}

fn clone_nodes(nodes: &Nodes) -> std::result::Result<Nodes, AllocError>
    ensures { IfOk result (λ copy. copy.entries ≡ nodes.now.entries) }
{
    nodes.clone()
}

/// The nodes that no edge enters, in ascending order: the packages on which no package depends. The
/// one error is `Memory`.
///
/// ```
/// for root in roots_of(alloc, &graph)?.iter() {
///     put_package(&mut lines, &graph, *root)?;
/// }
/// ```
pub fn roots_of(alloc: Global, graph: &Graph) -> Result<Vec<NodeIndex>>
    ensures ok { IfOk result (λ roots. roots.items ≡ externals Incoming graph.now) }
    ensures within { IfOk result (λ roots.
        All (λ node. node < length graph.now.packages) roots.items) }
    ensures err { IsOkUnless result Memory }
{
    let roots = list_externals(alloc, graph, EdgeDirection::Incoming)?;
    Ok(roots)
}

impl Tree {
    /// The tree of a lockfile. Node k is the node of package k, and each dependency of each package
    /// is an edge, in order. An edge leads to the package with the dependency's name and version
    /// whose source matches best, and among equally good matches to the last one. If packages have
    /// the same identity, the last one has the edges of all.
    ///
    /// `Resolution` names the first dependency that no package matches. The other error is
    /// `Memory`.
    ///
    /// ```
    /// let tree = Tree::new(alloc, lockfile)?;
    /// ```
    pub fn new(alloc: Global, lockfile: &Lockfile) -> Result<Tree>
        ensures packages { IfOk result (λ tree. tree.graph.packages ≡ lockfile.now.packages) }
        ensures edges { IfOk result (λ tree. AreEdgesOf lockfile.now.packages tree.graph.edges) }
        ensures err { IfErr result
            (λ e. IsUnresolved lockfile.now.packages (links lockfile.now.packages) e) }
    {
        let (graph, nodes) = graph_of(alloc, &lockfile.packages)?;
        Ok(Tree { graph, nodes })
    }

    /// The graph of the packages.
    ///
    /// ```
    /// for node in tree.graph().node_indices() {
    ///     put_package(&mut lines, tree.graph(), node)?;
    /// }
    /// ```
    pub fn graph(&self) -> &Graph
        ensures graph { result.now ≡ self.now.graph }
        ensures edges { AreEdgesOf self.now.graph.packages self.now.graph.edges }
    {
        &self.graph
    }

    /// The nodes of the packages by their identities. If packages have the same identity, it is the
    /// node of the last one. Each key is the identity of a package of the lockfile in every part,
    /// its precise text too.
    ///
    /// ```
    /// let dependency = Dependency::of(package)?;
    /// let node = tree.nodes().get(&dependency).copied();
    /// ```
    pub fn nodes(&self) -> &Nodes
        ensures last { (i : Identity)
            → IsLastWith self.now.graph.packages i (get identity_cmp result.now i) }
        ensures keys { All (IsOfPackage self.now.graph.packages) (keys result.now) }
        ensures entries { result.now.entries ≡ self.now.nodes }
    {
        &self.nodes
    }

    /// The nodes that no edge enters, in ascending order: the packages on which no package depends.
    /// The one error is `Memory`.
    ///
    /// ```
    /// for root in tree.roots(alloc)?.iter() {
    ///     tree.render(alloc, &mut out, *root, EdgeDirection::Outgoing, false)?;
    /// }
    /// ```
    pub fn roots(&self, alloc: Global) -> Result<Vec<NodeIndex>>
        ensures ok { IfOk result (λ roots. roots.items ≡ externals Incoming self.now.graph) }
        ensures within { IfOk result (λ roots.
            All (λ node. node < length self.now.graph.packages) roots.items) }
        ensures err { IsOkUnless result Memory }
    {
        roots_of(alloc, &self.graph)
    }

    /// Draws the tree of a node into a sink, along the edges in a direction. Each line is an entry:
    /// the node itself, and, below the first entry of each node, the far ends of the node's edges,
    /// newest first. A label is the name and the version, and if labels are exact also the
    /// checksum, or else the source, or else `inexact`.
    ///
    /// `Memory` means that the sink took nothing, since all memory is allocated before the first
    /// byte. `Io` means that the sink failed once and took a prefix of the text. There is no other
    /// error. The index must be below the node count, and the sink's count of errors below
    /// 2^64 - 1.
    ///
    /// ```
    /// let mut lines = Lines { count: 0 };
    /// for root in tree.roots(alloc)?.iter().take(1) {
    ///     let symbols = Symbols::default();
    ///     tree.render_into(
    ///         alloc,
    ///         &mut lines,
    ///         *root,
    ///         EdgeDirection::Outgoing,
    ///         &symbols,
    ///         false,
    ///     )?;
    /// }
    /// ```
    pub fn render_into<S: Sink>(
        &self,
        alloc: Global,
        sink: &mut S,
        index: NodeIndex,
        direction: EdgeDirection,
        symbols: &Symbols,
        exact: bool,
    ) -> Result<()>
        requires sound { CanCountFault (S.failures sink.old) }
        requires start { index < length self.now.graph.packages }
        ensures { Draws exact direction self.now.graph index (λ text.
            IsRenderedInto (S.taken sink.old) (S.taken sink.new)
            (S.failures sink.old) (S.failures sink.new) text result) }
    {
        let look = Look { symbols, exact };
        render_into(alloc, sink, &self.graph, index, direction, &look)
    }

    /// Draws the tree of a node to a writer, as `render_into` does. `Memory` means that nothing was
    /// written, and `Io` that the writer failed after a prefix of the text. An interrupted write
    /// and a write of no bytes are errors.
    ///
    /// ```
    /// let tree = lockfile.dependency_tree(alloc)?;
    /// let mut out: Vec<u8> = Vec::new(alloc);
    /// for root in tree.roots(alloc)?.iter() {
    ///     tree.render(alloc, &mut out, *root, EdgeDirection::Outgoing, false)?;
    /// }
    /// ```
    pub fn render<W: Write>(
        &self,
        alloc: Global,
        w: &mut W,
        index: NodeIndex,
        direction: EdgeDirection,
        exact: bool,
    ) -> Result<()>
        requires { index < length self.now.graph.packages }
        ensures { Draws exact direction self.now.graph index
            (λ text. IsRenderedTo (W.contents w.old) (W.contents w.new) text result) }
    {
        self.render_with_symbols(alloc, w, index, direction, &Symbols::default(), exact)
    }

    /// Draws the tree of a node to a writer with these symbols, as `render_into` does. `Memory`
    /// means that nothing was written, and `Io` that the writer failed after a prefix of the text.
    /// An interrupted write and a write of no bytes are errors.
    pub fn render_with_symbols<W: Write>(
        &self,
        alloc: Global,
        w: &mut W,
        index: NodeIndex,
        direction: EdgeDirection,
        symbols: &Symbols,
        exact: bool,
    ) -> Result<()>
        requires { index < length self.now.graph.packages }
        ensures { Draws exact direction self.now.graph index
            (λ text. IsRenderedTo (W.contents w.old) (W.contents w.new) text result) }
    {
        let look = Look { symbols, exact };
        render_onto(alloc, w, &self.graph, index, direction, &look)
    }
}

impl Lockfile {
    /// The tree of the lockfile, as `Tree::new` makes it, with the same errors.
    ///
    /// ```
    /// let tree = lockfile.dependency_tree(alloc)?;
    /// ```
    pub fn dependency_tree(&self, alloc: Global) -> Result<Tree>
        ensures packages { IfOk result (λ tree. tree.graph.packages ≡ self.now.packages) }
        ensures edges { IfOk result (λ tree. AreEdgesOf self.now.packages tree.graph.edges) }
        ensures err { IfErr result
            (λ e. IsUnresolved self.now.packages (links self.now.packages) e) }
    {
        Tree::new(alloc, self)
    }

    /// The graph of the lockfile's packages, which become its own: that of `Tree::new`, with the same
    /// errors. A tree has a copy of each package, and a map of the nodes besides.
    ///
    /// ```
    /// let graph = lockfile.into_graph(alloc)?;
    /// ```
    pub fn into_graph(self, alloc: Global) -> Result<Graph>
        ensures packages { IfOk result (λ graph. graph.packages ≡ self.packages) }
        ensures edges { IfOk result (λ graph. AreEdgesOf self.packages graph.edges) }
        ensures err { IfErr result (λ e. IsUnresolved self.packages (links self.packages) e) }
    {
        let Lockfile { packages, .. } = self;
        graph_from(alloc, packages)
    }
}
