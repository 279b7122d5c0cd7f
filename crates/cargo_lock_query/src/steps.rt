//! How many steps it is from each node to one node.

ghost use Rattle.std.specs.Prelude.{◌≡◌, ◌+◌, ◌^◌, ◌<◌, true, IfOk, OnOk, Some, None, length};
ghost use Rattle.cargo_lock_graph.specs.Drawing.{is_one_of};
ghost use Rattle.cargo_lock_query.specs.Chains.{needs};
ghost use Rattle.cargo_lock_query.specs.Steps.{AreStepsTo, HasCounted, IsStepSearch, NeedsOneOf};
ghost use Rattle.cargo_lock_query.specs.Steps.{met_by, none_newest};

use cargo_lock_graph::graph::{EdgeDirection, Graph, NodeIndex};
use std::alloc::{AllocError, Global};

// How many steps it is from each node that was met so far, and the nodes of the most steps.
#[derive(Drop)]
struct Search {
    steps: Vec<Option<usize>>,
    newest: Vec<NodeIndex>,
}

// For each node how many steps the shortest path from it to a node has, if any leads there.
pub(crate) fn steps_to(
    alloc: Global,
    graph: &Graph,
    to: NodeIndex,
) -> Result<Vec<Option<usize>>, AllocError>
    requires { to < length graph.now.packages }
    ensures { IfOk result (λ steps. AreStepsTo graph.now to steps.items) }
{
    let mut search = Search::from(alloc, graph, to)?;
    let mut depth = 0;
    'widening: while !search.newest.is_empty() {
        search = search.widened(alloc, graph, depth)?;
        depth += 1;
    }
    let Search { steps, newest: _ } = search;
    Ok(steps)
}

impl Search {
    // A search that has met the one node.
    fn from(alloc: Global, graph: &Graph, to: NodeIndex) -> Result<Search, AllocError>
        requires { to < length graph.now.packages }
        ensures { IfOk result (λ search. IsStepSearch graph.now to 0 (met_by search)) }
    {
        let mut search = Search {
            steps: vec![in alloc; None; graph.node_count()]?,
            newest: Vec::new(alloc),
        };
        search.meet(to, 0)?;
        Ok(search)
    }

    // The search after the nodes that need one of the newest were met.
    fn widened(self, alloc: Global, graph: &Graph, depth: usize) -> Result<Search, AllocError>
        requires nodes { length self.steps.items ≡ length graph.now.packages }
        requires fits { depth + 1 < 2 ^ 64 }
        ensures { IfOk result (λ search. HasCounted
            (NeedsOneOf graph.now self.newest.items) (depth + 1)
            (none_newest (met_by self)) (met_by search)) }
    {
        let Search { steps, newest } = self;
        let mut search = Search {
            steps,
            newest: Vec::new(alloc),
        };
        for node in &newest {
            search.meet_needers(graph, *node, depth + 1)?;
        }
        Ok(search)
    }

    // Meets the nodes that need this one.
    fn meet_needers(
        &mut self,
        graph: &Graph,
        node: NodeIndex,
        steps: usize,
    ) -> Result<(), AllocError>
        requires { length self.old.steps.items ≡ length graph.now.packages }
        ensures { OnOk result (HasCounted
            (λ k. is_one_of node (needs graph.now k) ≡ true) steps
            (met_by self.old) (met_by self.new)) }
    {
        for edge in graph.edges_directed(node, EdgeDirection::Incoming) {
            self.meet(edge.source(), steps)?;
        }
        Ok(())
    }

    // Meets a node, with this count of steps where it has none.
    fn meet(&mut self, node: NodeIndex, steps: usize) -> Result<(), AllocError>
        requires { node < length self.old.steps.items }
        ensures { OnOk result
            (HasCounted (λ k. k ≡ node) steps (met_by self.old) (met_by self.new)) }
    {
        let place = node.index();
        if self.steps[place].is_none() {
            self.steps[place] = Some(steps);
            self.newest.push(node)?;
        }
        Ok(())
    }
}
