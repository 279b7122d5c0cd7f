//! Why some packages are in a graph, as lines.

ghost use Rattle.std.specs.Prelude.{◌≡◌, ◌<◌, ◌++◌, ℕ, true, false, All, IfOk, List, OnOk, length};
ghost use Rattle.std.specs.Prelude.{map};
ghost use Rattle.cargo_lock_graph.specs.Edges.{GraphData};
ghost use Rattle.cargo_lock_query.specs.Answers.{AreAnswers, AreChosen, answers_by, needed_by};
ghost use Rattle.cargo_lock_query.specs.Lines.{answer_of};
ghost use Rattle.cargo_lock_query.specs.Reasons.{AreReasons};
ghost use Rattle.cargo_lock_query.specs.Starts.{AreChainStarts};

use crate::lines::{Answer, AnswerText, needers_of_chain};
use crate::reason::{Reasons, why_each};
use cargo_lock_graph::graph::{Graph, NodeIndex};
use cargo_lock_parts::package::Package;
use cargo_lock_references::index::Indexed;
use std::alloc::{AllocError, Global};
use std::fmt;

/// Why some packages are there. `Display` writes the lines of each answer, with an empty line
/// between two answers.
///
/// ```
/// let answers = Answers::about(rt.alloc(), tree.graph(), nodes, true)?;
/// print!(rt; "{answers}")?;
/// ```
#[derive(Drop)]
pub struct Answers<'a> {
    /// The packages of the graph.
    pub list: Indexed<'a, Package>,

    /// The answers.
    pub answers: Vec<Answer<'a>>,
}

impl<'a> Answers<'a> {
    /// Why the packages of some nodes are there, in the nodes' order: by the chain that `why` finds
    /// or, if `is_each`, by each of those that `why_each` finds. If there is none, the answer is
    /// that nothing leads to the package. Fails when out of memory.
    pub fn about(
        alloc: Global,
        graph: &'a Graph,
        nodes: &[NodeIndex],
        is_each: bool,
    ) -> Result<Answers<'a>, AllocError>
        requires { All (λ k. k < length graph.now.packages) nodes.now }
        ensures answers { IfOk result (λ made.
            AreAnswers is_each graph.now nodes.now (map answer_of made.answers.items)) }
        ensures list { IfOk result (λ made. made.list ≡ graph.now.packages) }
    {
        let list = Indexed::of(alloc, graph.packages())?;
        let answers = if is_each {
            each_answer(alloc, graph, nodes)?
        } else {
            first_answers(alloc, graph, nodes)?
        };
        Ok(Answers { list, answers })
    }
}

// The answers about some nodes by a chain from each start. The graph is searched for each node.
fn each_answer<'a>(
    alloc: Global,
    graph: &'a Graph,
    nodes: &[NodeIndex],
) -> Result<Vec<Answer<'a>>, AllocError>
    requires { All (λ k. k < length graph.now.packages) nodes.now }
    ensures { IfOk result (λ answers.
        AreAnswers true graph.now nodes.now (map answer_of answers.items)) }
{
    let mut answers = Vec::new(alloc);
    for node in nodes {
        let chains = why_each(alloc, graph, *node)?;
        add_answers_by(alloc, graph, &graph[*node], &chains, &mut answers)?;
    }
    Ok(answers)
}

// The answers about some nodes by one chain. The graph is searched once for all of them.
fn first_answers<'a>(
    alloc: Global,
    graph: &'a Graph,
    nodes: &[NodeIndex],
) -> Result<Vec<Answer<'a>>, AllocError>
    requires { All (λ k. k < length graph.now.packages) nodes.now }
    ensures { IfOk result (λ answers.
        AreAnswers false graph.now nodes.now (map answer_of answers.items)) }
{
    let reasons = Reasons::of(alloc, graph)?;
    let mut answers = Vec::new(alloc);
    for node in nodes {
        let chains = shortest(alloc, &reasons, *node)?;
        add_answers_by(alloc, graph, &graph[*node], &chains, &mut answers)?;
    }
    Ok(answers)
}

// The shortest chain to a node, if any leads to it.
fn shortest(
    alloc: Global,
    reasons: &Reasons,
    node: NodeIndex,
) -> Result<Vec<Vec<NodeIndex>>, AllocError>
    requires { (graph : GraphData) × AreReasons graph reasons.now }
    ensures { IfOk result (λ chains. (graph : GraphData) → AreReasons graph reasons.now
        → node < length graph.packages → (starts : List ℕ) × AreChainStarts graph node starts
        × AreChosen false graph node starts (map (λ chain. chain.items) chains.items)) }
{
    let mut chains = Vec::new(alloc);
    if let Some(chain) = reasons.why(alloc, node)? {
        chains.push(chain)?;
    }
    Ok(chains)
}

// Adds the answers about a package by the chains to it.
fn add_answers_by<'a>(
    alloc: Global,
    graph: &'a Graph,
    asked: &'a Package,
    chains: &[Vec<NodeIndex>],
    answers: &mut Vec<Answer<'a>>,
) -> Result<(), AllocError>
    ensures { OnOk result (map answer_of answers.new.items ≡ map answer_of answers.old.items
        ++ answers_by graph.now.packages asked.now (map (λ chain. chain.items) chains.now)) }
{
    if chains.is_empty() {
        answers.push(Answer::Nothing(asked))?;
    }
    add_needed(alloc, graph, asked, chains, answers)
}

// Adds an answer for each chain to a package.
fn add_needed<'a>(
    alloc: Global,
    graph: &'a Graph,
    asked: &'a Package,
    chains: &[Vec<NodeIndex>],
    answers: &mut Vec<Answer<'a>>,
) -> Result<(), AllocError>
    ensures { OnOk result (map answer_of answers.new.items ≡ map answer_of answers.old.items
        ++ map (λ chain. needed_by graph.now.packages asked.now chain.items) chains.now) }
{
    for chain in chains {
        let needers = needers_of_chain(alloc, graph, chain)?;
        answers.push(Answer::Needed(asked, needers))?;
    }
    Ok(())
}

impl fmt::Display for Answers<'_> {
    ghost use Rattle.std.specs.Prelude.{Some, map};
    ghost use Rattle.cargo_lock_query.specs.Answers.{answers_text};
    ghost use Rattle.cargo_lock_query.specs.Lines.{answer_of};

    ghost output = { λ shown. Some (answers_text shown.list (map answer_of shown.answers.items)) };

    fn fmt<W: fmt::Write>(&self, f: &mut fmt::Formatter<W>) -> fmt::Result {
        match self.answers.split_first() {
            Some((first, others)) => {
                let first = AnswerText(&self.list, first);
                let others = MoreAnswers(&self.list, others);
                write!(f, "{first}\n{others}")
            }
            None => Ok(()),
        }
    }
}

// Answers about packages of a list, each after an empty line.
#[derive(Clone, Copy)]
struct MoreAnswers<'a>(&'a Indexed<'a, Package>, &'a [Answer<'a>]);

impl fmt::Display for MoreAnswers<'_> {
    ghost use Rattle.std.specs.Prelude.{◌∷◌, Some, map};
    ghost use Rattle.std.specs.List.{flat_map};
    ghost use Rattle.cargo_lock_parts.specs.Ascii.{newline};
    ghost use Rattle.cargo_lock_query.specs.Answers.{answer_text};
    ghost use Rattle.cargo_lock_query.specs.Lines.{answer_of};

    ghost output = { λ shown. Some (flat_map
        (λ other. newline ∷ answer_text shown.0.now other) (map answer_of shown.1.now)) };

    fn fmt<W: fmt::Write>(&self, f: &mut fmt::Formatter<W>) -> fmt::Result {
        let MoreAnswers(list, answers) = *self;
        for answer in answers {
            let answer = AnswerText(list, answer);
            write!(f, "\n{answer}\n")?;
        }
        Ok(())
    }
}
