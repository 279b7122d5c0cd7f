//! The walk over a graph from a start, entry by entry, by a stack of frames.

ghost use Rattle.std.specs.Prelude.{◌≡◌, List, ℕ, ◌<◌, ◌≤◌, [], ◌∷◌, ◌++◌, Option, Some, length};
ghost use Rattle.std.specs.Prelude.{vec_capacity, vec_len, take, MatchOption, IfOk, IfSome};
ghost use Rattle.std.specs.Prelude.{◌+◌, false, replicate};
ghost use Rattle.cargo_lock_graph.specs.DrawingByLater.{goes_on};
ghost use Rattle.cargo_lock_graph.specs.DrawingMade.{drawing, rest_of};
ghost use Rattle.cargo_lock_graph.specs.Edges.{far_ends};
ghost use Rattle.cargo_lock_graph.specs.WalkState.{HasDrawn, HasLevels, IsAbove, IsHeld, IsOn};
ghost use Rattle.cargo_lock_graph.specs.WalkState.{KeepsLevels, entries_to_come};
ghost use Rattle.cargo_lock_graph.specs.WalkState.{entries_waiting, to_come};

use crate::drawing::entry::Entry;
use crate::drawing::levels::{pop_level, push_level, with_room};
use crate::graph::{EdgeDirection, Graph, NodeIndex};
use std::alloc::{AllocError, Global};

// A walk from a start. For each level above the next entry the stack has a frame: the place of the
// next edge that leads to an entry of the level below, or none if no edge is left. Nodes that were
// drawn are marked. `levels` has the part of a prefix for each frame, one after the other, and its
// first `above` bytes are the levels above the last entry.
#[derive(Drop)]
pub(crate) struct Walk {
    direction: EdgeDirection,
    visited: Vec<bool>,
    stack: Vec<Option<usize>>,
    levels: Vec<u8>,
    above: usize,
}

// A frame onto a stack with room for it, which takes no memory.
fn put_frame(stack: &mut Vec<Option<usize>>, frame: Option<usize>)
    requires { vec_len stack.old < vec_capacity stack.old }
    ensures items { stack.new.items ≡ stack.old.items ++ frame ∷ [] }
    ensures capacity { vec_capacity stack.old ≤ vec_capacity stack.new }
{
    let _ = stack.push(frame);
}

impl Walk {
    // A walk before its first entry, which is that of the start at depth 0. It allocates all its
    // memory here: capacity for as many frames as there are nodes, and for their levels.
    pub(crate) fn new(
        alloc: Global,
        graph: &Graph,
        start: NodeIndex,
        direction: EdgeDirection,
    ) -> Result<Self, AllocError>
        requires { start < length graph.now.packages }
        ensures on { IfOk result (λ walk. IsOn graph.now walk) }
        ensures levels { IfOk result (λ walk. KeepsLevels graph.now walk) }
        ensures above { IfOk result (λ walk. IsAbove graph.now walk 0) }
        ensures direction { IfOk result (λ walk. walk.direction ≡ direction) }
        ensures drawn { IfOk result (λ walk. HasDrawn (replicate (length graph.now.packages) false)
            walk.visited.items start 0 (vec_len walk.stack)) }
        ensures all { IfOk result
            (λ walk. record { node = start; depth = 0 } ∷ to_come graph.now walk
            ≡ drawing (far_ends direction graph.now.edges) (length graph.now.packages) start) }
    {
        let count = graph.node_count();
        let visited = vec![in alloc; false; count]?;
        let stack = Vec::with_capacity(alloc, count)?;
        let levels = with_room(alloc, count)?;
        let mut walk = Walk {
            direction,
            visited,
            stack,
            levels,
            above: 0,
        };
        walk.enter(graph, start);
        Ok(walk)
    }

    // If the node was not drawn before, marks it and pushes a frame for its edges.
    fn enter(&mut self, graph: &Graph, node: NodeIndex)
        requires held { IsOn graph.now self.old }
        requires levels { KeepsLevels graph.now self.old }
        requires node { node < length graph.now.packages }
        ensures on { IsOn graph.now self.new }
        ensures levels { KeepsLevels graph.now self.new }
        ensures above { self.new.above ≡ self.old.above }
        ensures kept { (more : List (Option ℕ))
            × (self.new.stack.items ≡ self.old.stack.items ++ more) }
        ensures direction { self.new.direction ≡ self.old.direction }
        ensures longer { vec_len self.old.stack ≤ vec_len self.new.stack }
        ensures drawn { HasDrawn self.old.visited.items self.new.visited.items node
            (vec_len self.old.stack) (vec_len self.new.stack) }
        ensures entry { (depth : ℕ) → depth ≡ vec_len self.old.stack
            → rest_of (far_ends self.old.direction graph.now.edges) self.old.visited.items
            (record { node = node; depth = depth }
            ∷ entries_waiting self.old.direction graph.now.edges 0 self.old.stack.items)
            ≡ record { node = node; depth = depth } ∷ to_come graph.now self.new }
    {
        if !self.visited[node.index()] {
            self.visited[node.index()] = true;
            let newest_edge = graph.newest_edge(node, self.direction);
            put_frame(&mut self.stack, newest_edge);
            push_level(&mut self.levels, newest_edge.is_some());
        }
    }

    // Draws the edge at a place, which is that of a frame that was popped from the stack.
    fn follow(&mut self, graph: &Graph, edge: usize) -> Entry
        requires held { IsHeld (length graph.now.packages)
            (length graph.now.edges) self.old.visited.items (self.old.stack.items ++ Some edge ∷ [])
            (vec_capacity self.old.stack) }
        requires levels { KeepsLevels graph.now self.old }
        ensures on { IsOn graph.now self.new }
        ensures levels { KeepsLevels graph.now self.new }
        ensures above { IsAbove graph.now self.new result.depth }
        ensures direction { self.new.direction ≡ self.old.direction }
        ensures fits { (0 < result.depth) × (result.depth ≤ vec_len self.new.stack)
            × (result.node < length graph.now.packages) }
        ensures deep { result.depth ≡ vec_len self.old.stack + 1 }
        ensures drawn { HasDrawn self.old.visited.items self.new.visited.items
            result.node result.depth (vec_len self.new.stack) }
        ensures entry { entries_to_come self.old.direction graph.now.edges self.old.visited.items
            (self.old.stack.items ++ Some edge ∷ []) ≡ result ∷ to_come graph.now self.new }
    {
        let node = graph.far_end(edge, self.direction);
        let older_edge = graph.older_edge(edge, self.direction);
        self.above = self.levels.len();
        put_frame(&mut self.stack, older_edge);
        push_level(&mut self.levels, older_edge.is_some());
        let depth = self.stack.len();
        self.enter(graph, node);
        Entry {
            node: node.index(),
            depth,
        }
    }

    // The next entry. It allocates nothing.
    pub(crate) fn next(&mut self, graph: &Graph) -> Option<Entry>
        requires on { IsOn graph.now self.old }
        requires levels { KeepsLevels graph.now self.old }
        ensures on { IsOn graph.now self.new }
        ensures levels { KeepsLevels graph.now self.new }
        ensures above { IfSome result (λ e. IsAbove graph.now self.new e.depth) }
        ensures direction { self.new.direction ≡ self.old.direction }
        ensures fits { IfSome result
            (λ e. (0 < e.depth) × (e.depth ≤ vec_len self.new.stack)
            × (e.node < length graph.now.packages)) }
        ensures deep { IfSome result (λ e. e.depth ≤ vec_len self.old.stack) }
        ensures drawn { IfSome result (λ e. HasDrawn self.old.visited.items self.new.visited.items
            e.node e.depth (vec_len self.new.stack)) }
        ensures entry { MatchOption result (to_come graph.now self.old ≡ [])
            (λ e. to_come graph.now self.old ≡ e ∷ to_come graph.now self.new) }
    {
        while let Some(frame) = self.stack.pop() {
            pop_level(&mut self.levels, frame.is_some());
            if let Some(edge) = frame {
                return Some(self.follow(graph, edge));
            }
        }
        None
    }

    // How many frames the stack has.
    pub(crate) fn frame_count(&self) -> usize
        ensures { result ≡ vec_len self.now.stack }
    {
        self.stack.len()
    }

    // The levels above the last entry.
    pub(crate) fn levels_above(&self) -> &[u8]
        requires { self.now.above ≤ vec_len self.now.levels }
        ensures { result.now ≡ take self.now.above self.now.levels.items }
    {
        &self.levels[..self.above]
    }

    // Whether an entry at one level below this depth follows before one that is no deeper.
    pub(crate) fn goes_on(&self, graph: &Graph, depth: usize) -> bool
        requires on { IsOn graph.now self.now }
        requires depth { depth < vec_len self.now.stack }
        ensures { result ≡ goes_on depth (to_come graph.now self.now) }
    {
        // No effect at run time. The proof reads what holds of the graph from this use of it.
        let _ = graph;
        self.stack[depth].is_some()
    }
}
