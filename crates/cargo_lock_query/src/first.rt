//! The first of the shortest chains from some nodes to each node.

ghost use Rattle.std.specs.Prelude.{◌≡◌, ◌+◌, ◌<◌, ℕ, All, IfOk, List, MatchOption, OnOk, Some};
ghost use Rattle.std.specs.Prelude.{None, length, slice_get, unwrap_or};
ghost use Rattle.std.specs.List.Sorted.{IsStrictlyIncreasing};
ghost use Rattle.cargo_lock_graph.specs.Edges.{GraphData};
ghost use Rattle.cargo_lock_query.specs.Chains.{IsShortestChain, IsUnreached};
ghost use Rattle.cargo_lock_query.specs.FirstChains.{AreFirstChains, AreFollowed, Entry, HasLinked};
ghost use Rattle.cargo_lock_query.specs.FirstChains.{IsFromBelow, IsTrail, linked_by};
ghost use Rattle.cargo_lock_query.specs.declared.first.Link.{Link};

use crate::need::ends_once;
use cargo_lock_graph::graph::{EdgeDirection, Graph, NodeIndex};
use std::alloc::{AllocError, Global};

// The last node of a chain, and the place of the chain before that node; none if it begins there.
#[derive(Clone, Copy)]
struct Link {
    node: NodeIndex,
    from: Option<usize>,
}

// Chains from some nodes, one to each node that any leads to: the first of the shortest ones. Shorter
// ones are before longer ones, and of one length they are in the order of the places of their nodes.
#[derive(Drop)]
pub(crate) struct FirstChains {
    links: Vec<Link>,

    // For each node the place of the chain to it.
    places: Vec<Option<usize>>,
}

impl FirstChains {
    // The chains from some nodes, which are ascending. Each node and each edge is met once.
    pub(crate) fn from(
        alloc: Global,
        graph: &Graph,
        starts: &[NodeIndex],
    ) -> Result<FirstChains, AllocError>
        requires ascending { IsStrictlyIncreasing starts.now }
        requires within { All (λ k. k < length graph.now.packages) starts.now }
        ensures { IfOk result (λ chains. AreFirstChains graph.now starts.now (linked_by chains)) }
    {
        let mut chains = FirstChains::begun(alloc, graph, starts)?;
        let mut place = 0;
        'following: while place < chains.links.len() {
            chains.follow(alloc, graph, place)?;
            place += 1;
        }
        Ok(chains)
    }

    // The chains of one node.
    fn begun(alloc: Global, graph: &Graph, starts: &[NodeIndex]) -> Result<FirstChains, AllocError>
        requires ascending { IsStrictlyIncreasing starts.now }
        requires within { All (λ k. k < length graph.now.packages) starts.now }
        ensures { IfOk result (λ chains. AreFollowed graph.now starts.now 0 (linked_by chains)) }
    {
        let mut chains = FirstChains {
            links: Vec::new(alloc),
            places: vec![in alloc; None; graph.node_count()]?,
        };
        for start in starts {
            chains.add(*start, None)?;
        }
        Ok(chains)
    }

    // Adds the chains that go on by one node from the chain at a place.
    fn follow(&mut self, alloc: Global, graph: &Graph, place: usize) -> Result<(), AllocError>
        requires place { place < length self.old.links.items }
        requires nodes { length self.old.places.items ≡ length graph.now.packages }
        ensures { OnOk result ((starts : List ℕ)
            → AreFollowed graph.now starts place (linked_by self.old)
            → AreFollowed graph.now starts (place + 1) (linked_by self.new)) }
    {
        let last = self.links[place].node;
        let ends = ends_once(alloc, graph, last, EdgeDirection::Outgoing)?;
        for end in &ends {
            self.add(*end, Some(place))?;
        }
        Ok(())
    }

    // Adds the chain to a node that goes on from the chain at a place, or that begins at the node,
    // unless there is a chain to the node.
    fn add(&mut self, node: NodeIndex, from: Option<usize>) -> Result<(), AllocError>
        requires { node < length self.old.places.items }
        ensures { OnOk result (HasLinked node from (linked_by self.old) (linked_by self.new)) }
    {
        let place = node.index();
        if self.places[place].is_none() {
            self.places[place] = Some(self.links.len());
            self.links.push(Link { node, from })?;
        }
        Ok(())
    }

    // The chain to a node, if any leads there.
    pub(crate) fn chain_to(
        &self,
        alloc: Global,
        to: NodeIndex,
    ) -> Result<Option<Vec<NodeIndex>>, AllocError>
        requires { (graph : GraphData) × (starts : List ℕ)
            × AreFirstChains graph starts (linked_by self.now) }
        ensures { IfOk result (λ answer. (graph : GraphData) (starts : List ℕ)
            → AreFirstChains graph starts (linked_by self.now) → to < length graph.packages
            → MatchOption answer (IsUnreached graph starts to)
            (λ chain. IsShortestChain graph starts to chain.items)) }
    {
        match self.place_of(to) {
            Some(place) => {
                let chain = self.chain_at(alloc, place)?;
                Ok(Some(chain))
            }
            None => Ok(None),
        }
    }

    // The place of the chain to a node, if it has one.
    fn place_of(&self, node: NodeIndex) -> Option<usize>
        ensures { result ≡ unwrap_or (slice_get self.now.places.items node) None }
    {
        match self.places.get(node.index()) {
            Some(place) => *place,
            None => None,
        }
    }

    // The chain at a place.
    fn chain_at(&self, alloc: Global, place: usize) -> Result<Vec<NodeIndex>, AllocError>
        requires { (i : ℕ) (link : Link) → slice_get self.now.links.items i ≡ Some link
            → IsFromBelow i link.from }
        ensures { IfOk result (λ chain. (graph : GraphData) (starts : List ℕ)
            (trail : List Entry) (e : Entry) → IsTrail graph starts (linked_by self.now) trail
            → slice_get trail place ≡ Some e → chain.items ≡ e.chain) }
    {
        let mut chain = Vec::new(alloc);
        let mut next = Some(place);
        'walk: while let Some(place) = next {
            let Some(link) = self.link_at(place) else {
                break;
            };
            chain.push(link.node)?;
            next = link.from;
        }
        chain.reverse();
        Ok(chain)
    }

    fn link_at(&self, place: usize) -> Option<Link>
        ensures { result ≡ slice_get self.now.links.items place }
    {
        self.links.get(place).copied()
    }
}
