//! Entries of a drawing.

/// A line of a drawing: a node and its depth.
#[derive(Clone, Copy)]
pub struct Entry {
    /// The number of the node.
    pub node: usize,

    /// The depth of the line. The start has depth 0.
    pub depth: usize,
}
