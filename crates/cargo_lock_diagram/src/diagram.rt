//! The text of a picture, which Graphviz or Mermaid draws.

ghost use Rattle.std.specs.Prelude.{◌≡◌};
ghost use Rattle.cargo_lock_diagram.specs.Diagram as spec;

use crate::label::{Label, Target};
use crate::scene::{Arrow, Picture};
use cargo_lock_display::NameVersion;
use cargo_lock_graph::graph::{Graph, NodeIndex};
use cargo_lock_parts::package::{Package, SourceId};
use std::fmt;

/// The text of a picture of a graph. `Display` writes a line for each package and one for each
/// edge, between lines that the target asks for. The node of package 3 is `n3`, and its label is
/// `NAME VERSION`, as `Shown` shows them. A package without a source is a rectangle, one of a git
/// repository a hexagon, and any other is rounded.
///
/// ```
/// let diagram = Diagram {
///     target: Target::Dot,
///     graph: tree.graph(),
///     picture: &picture,
/// };
/// print!(rt; "{diagram}")?;
/// ```
#[derive(Clone, Copy)]
pub struct Diagram<'a> {
    /// The program that draws it.
    pub target: Target,

    /// The graph.
    pub graph: &'a Graph,

    /// The packages and the edges that are shown.
    pub picture: &'a Picture,
}

impl fmt::Display for Diagram<'_> {
    ghost use Rattle.std.specs.Prelude.{Some};
    ghost use Rattle.cargo_lock_diagram.specs.Diagram.{diagram_text};

    ghost output = { λ d. Some (diagram_text d.target d.graph.now.packages
        d.picture.now.nodes.items d.picture.now.arrows.items) };

    fn fmt<W: fmt::Write>(&self, f: &mut fmt::Formatter<W>) -> fmt::Result {
        let Diagram {
            target,
            graph,
            picture,
        } = *self;
        let first = first_line(target);
        let nodes = NodeLines(target, graph, &picture.nodes);
        let arrows = ArrowLines(target, &picture.arrows);
        let last = last_line(target);
        write!(f, "{first}{nodes}{arrows}{last}")
    }
}

fn first_line(target: Target) -> &'static str
    ensures { result.now ≡ spec.first_line target }
{
    match target {
        Target::Dot => "digraph {\n",
        Target::Mermaid => "flowchart TD\n",
    }
}

fn last_line(target: Target) -> &'static str
    ensures { result.now ≡ spec.closing_line target }
{
    match target {
        Target::Dot => "}\n",
        Target::Mermaid => "",
    }
}

// The lines of some nodes.
#[derive(Clone, Copy)]
struct NodeLines<'a>(Target, &'a Graph, &'a Vec<NodeIndex>);

impl fmt::Display for NodeLines<'_> {
    ghost use Rattle.std.specs.Prelude.{Some};
    ghost use Rattle.std.specs.List.{flat_map};
    ghost use Rattle.cargo_lock_diagram.specs.Diagram.{node_line};

    ghost output = { λ shown.
        Some (flat_map (node_line shown.0 shown.1.now.packages) shown.2.now.items) };

    fn fmt<W: fmt::Write>(&self, f: &mut fmt::Formatter<W>) -> fmt::Result {
        let NodeLines(target, graph, nodes) = *self;
        for node in nodes {
            let line = LineIf(target, *node, graph.node_weight(*node));
            write!(f, "{line}")?;
        }
        Ok(())
    }
}

// The line of a node, if there is a package.
#[derive(Clone, Copy)]
struct LineIf<'a>(Target, NodeIndex, Option<&'a Package>);

impl fmt::Display for LineIf<'_> {
    ghost use Rattle.std.specs.Prelude.{Some, option_map};
    ghost use Rattle.cargo_lock_diagram.specs.Diagram.{line_if};

    ghost output = { λ shown. Some (line_if shown.0 shown.1 (option_map (λ p. p.now) shown.2)) };

    fn fmt<W: fmt::Write>(&self, f: &mut fmt::Formatter<W>) -> fmt::Result {
        let LineIf(target, node, package) = *self;
        match package {
            Some(package) => {
                let line = PackageLine(target, node, package);
                write!(f, "{line}")
            }
            None => Ok(()),
        }
    }
}

// The line of a package.
#[derive(Clone, Copy)]
struct PackageLine<'a>(Target, NodeIndex, &'a Package);

impl fmt::Display for PackageLine<'_> {
    ghost use Rattle.std.specs.Prelude.{Some};
    ghost use Rattle.cargo_lock_diagram.specs.Diagram.{package_node_line};

    ghost output = { λ shown. Some (package_node_line shown.0 shown.1 shown.2.now) };

    fn fmt<W: fmt::Write>(&self, f: &mut fmt::Formatter<W>) -> fmt::Result {
        let PackageLine(target, node, package) = *self;
        let place = node.index();
        let shape = Shape::of(&package.source);
        let before = shape.before_label(target);
        let label = Label(target, NameVersion(package));
        let after = shape.after_label(target);
        write!(f, "  n{place}{before}{label}{after}")
    }
}

// The shape of a package.
#[derive(Clone, Copy)]
enum Shape {
    Rectangle,
    Hexagon,
    Rounded,
}

impl Shape {
    // The shape of a package from a source.
    fn of(source: &Option<SourceId>) -> Shape
        ensures { result ≡ spec.shape_of source.now }
    {
        match source {
            Some(source) => {
                if source.is_git() {
                    Shape::Hexagon
                } else {
                    Shape::Rounded
                }
            }
            None => Shape::Rectangle,
        }
    }

    fn before_label(self, target: Target) -> &'static str
        ensures { result.now ≡ spec.before_label target self }
    {
        match (target, self) {
            (Target::Dot, _) => " [label=\"",
            (Target::Mermaid, Shape::Rectangle) => "[\"",
            (Target::Mermaid, Shape::Hexagon) => "{{\"",
            (Target::Mermaid, Shape::Rounded) => "([\"",
        }
    }

    fn after_label(self, target: Target) -> &'static str
        ensures { result.now ≡ spec.after_label target self }
    {
        match (target, self) {
            (Target::Dot, Shape::Rectangle) => "\" shape=box]\n",
            (Target::Dot, Shape::Hexagon) => "\" shape=hexagon]\n",
            (Target::Dot, Shape::Rounded) => "\" shape=ellipse]\n",
            (Target::Mermaid, Shape::Rectangle) => "\"]\n",
            (Target::Mermaid, Shape::Hexagon) => "\"}}\n",
            (Target::Mermaid, Shape::Rounded) => "\"])\n",
        }
    }
}

// The lines of some edges.
#[derive(Clone, Copy)]
struct ArrowLines<'a>(Target, &'a Vec<Arrow>);

impl fmt::Display for ArrowLines<'_> {
    ghost use Rattle.std.specs.Prelude.{Some};
    ghost use Rattle.std.specs.List.{flat_map};
    ghost use Rattle.cargo_lock_diagram.specs.Diagram.{arrow_line};

    ghost output = { λ shown. Some (flat_map (arrow_line shown.0) shown.1.now.items) };

    fn fmt<W: fmt::Write>(&self, f: &mut fmt::Formatter<W>) -> fmt::Result {
        let ArrowLines(target, arrows) = *self;
        let sign = arrow_sign(target);
        for arrow in arrows {
            let from = arrow.from.index();
            let to = arrow.to.index();
            write!(f, "  n{from}{sign}{to}\n")?;
        }
        Ok(())
    }
}

fn arrow_sign(target: Target) -> &'static str
    ensures { result.now ≡ spec.arrow_sign target }
{
    match target {
        Target::Dot => " -> n",
        Target::Mermaid => " --> n",
    }
}
