//! Laws of drawings, each the contract of a function without a body. They hold over every graph.

ghost use Rattle.cargo_lock_graph.specs.DrawingLaws.{DrawingExists, DrawingIsUnique};
ghost use Rattle.cargo_lock_graph.specs.DrawingLaws.{DrawingsAreOneForm, EdgesMatch};
ghost use Rattle.cargo_lock_graph.specs.DrawingLaws.{EntriesAreCounted, FirstIsUnique};
ghost use Rattle.cargo_lock_graph.specs.DrawingLaws.{EntriesAreLines, GraphHasOneDrawing};
ghost use Rattle.cargo_lock_graph.specs.DrawingLaws.{OccursWhereReachable};
ghost use Rattle.cargo_lock_graph.specs.DrawingLaws.{ParsedVersionsAreLines, ReachableIsExpanded};
ghost use Rattle.cargo_lock_graph.specs.DrawingLaws.{TextByLater, TextIsEndedLines};
ghost use Rattle.cargo_lock_graph.specs.DrawingLaws.{TextIsOfOneDrawing, TextTellsDrawing};

/// The definition of a drawing by place is the same as the definition by recursion on its entries.
pub fn drawings_are_one_form()
    ensures { DrawingsAreOneForm }
{}

/// There is a drawing from each node.
pub fn drawing_exists()
    ensures { DrawingExists }
{}

/// There are no two drawings from one node.
pub fn drawing_is_unique()
    ensures { DrawingIsUnique }
{}

/// From each start there is exactly one drawing of a graph in each direction. This includes graphs
/// with cycles, edges from a node to itself, and several edges between two nodes.
pub fn graph_has_one_drawing()
    ensures { GraphHasOneDrawing }
{}

/// A drawing has one entry more than there are edges that leave a node that occurs in it.
pub fn entries_are_counted()
    ensures { EntriesAreCounted }
{}

/// A node occurs in a drawing exactly if it is reachable from the start.
pub fn node_occurs_where_reachable()
    ensures { OccursWhereReachable }
{}

/// A reachable node has one expanded entry, its first. The children of that entry are the far ends
/// of the node's edges, newest first.
pub fn reachable_node_is_expanded()
    ensures some { ReachableIsExpanded }
    ensures one { FirstIsUnique }
{}

/// The edges of reachable nodes and the entries after the first match one to one: the edge at a
/// place of a node's list leads to the child at that place of the node's expanded entry.
pub fn edges_match_entries()
    ensures { EdgesMatch }
{}

/// The text of a drawing can be computed from the later entries alone.
pub fn text_is_told_by_later_entries()
    ensures { TextByLater }
{}

/// The text determines the drawing. If no label has a newline, the text has one line for each
/// entry: the first is the label of the first entry, and each later one reads as its entry's depth
/// and label.
pub fn text_tells_the_drawing()
    ensures { TextTellsDrawing }
{}

/// If no label has a newline and different nodes have different labels, drawings with the same text
/// are the same, so the text determines each reachable edge.
pub fn text_is_of_one_drawing()
    ensures { TextIsOfOneDrawing }
{}

/// The text of a drawing is its lines, each ended by a newline, with nothing after the last.
pub fn text_is_ended_lines()
    ensures { TextIsEndedLines }
{}

/// An entry is one line if its package's name, version and exact text have no newline.
pub fn entries_are_lines()
    ensures { EntriesAreLines }
{}

/// The text of a version that was parsed has no newline. So `entries_are_lines` asks that only of a
/// version that was made in another way, since the type of versions promises nothing of it.
pub fn parsed_versions_are_lines()
    ensures { ParsedVersionsAreLines }
{}
