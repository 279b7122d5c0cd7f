//! Why a package is there. Each function that takes a node requires that it is one of the tree.

ghost use Rattle.std.specs.Prelude.{◌<◌, All, length};

use crate::print_line;
use cargo_lock::dependency::Tree;
use cargo_lock::dependency::graph::{Graph, NodeIndex};
use cargo_lock::{Error, ResolveVersion};
use cargo_lock_display::File;
use cargo_lock_query::{
    AnswerText, Answers, answers_json, chains_of_each, needers, shortest_chain, why, why_each,
};

/// Prints why each package of a tree is there.
pub fn print_reasons(rt: &HostRuntime, tree: &Tree) -> Result<(), Error> {
    let roots = tree.roots(rt.alloc())?;
    for place in 0..tree.graph().node_count() {
        let node = NodeIndex::new(place);
        print_chains(rt, tree, node)?;
        print_chains_from(rt, tree, &roots, node)?;
        print_needers(rt, tree.graph(), node)?;
    }
    print_answers(rt, tree, &roots)
}

/// Prints how long the chain is by which a package is needed, if there is one.
pub fn print_chains(rt: &HostRuntime, tree: &Tree, node: NodeIndex) -> Result<(), Error>
    requires { node < length tree.now.graph.packages }
{
    if let Some(chain) = why(rt.alloc(), tree.graph(), node)? {
        let count = chain.len();
        println!(rt; "a chain of {count} packages")?;
    }
    print_each_chain(rt, tree, node)
}

/// Prints how long the chain from each root to a node is.
pub fn print_each_chain(rt: &HostRuntime, tree: &Tree, node: NodeIndex) -> Result<(), Error>
    requires { node < length tree.now.graph.packages }
{
    for chain in &why_each(rt.alloc(), tree.graph(), node)? {
        let count = chain.len();
        println!(rt; "one of {count} packages from a root")?;
    }
    Ok(())
}

/// Prints how long the shortest chain from some nodes to a node is.
pub fn print_chains_from(
    rt: &HostRuntime,
    tree: &Tree,
    roots: &[NodeIndex],
    node: NodeIndex,
) -> Result<(), Error>
    requires { node < length tree.now.graph.packages }
{
    if let Some(chain) = shortest_chain(rt.alloc(), tree.graph(), roots, node)? {
        let count = chain.len();
        println!(rt; "the shortest has {count} packages")?;
    }
    print_roots_of(rt, tree, roots, node)
}

/// Prints how many of some nodes lead to a node.
pub fn print_roots_of(
    rt: &HostRuntime,
    tree: &Tree,
    roots: &[NodeIndex],
    node: NodeIndex,
) -> Result<(), Error>
    requires { node < length tree.now.graph.packages }
{
    let chains = chains_of_each(rt.alloc(), tree.graph(), roots, node)?;
    let count = chains.len();
    println!(rt; "{count} roots lead there")?;
    Ok(())
}

/// Prints the names of the packages that depend on that of a node.
pub fn print_needers(rt: &HostRuntime, graph: &Graph, node: NodeIndex) -> Result<(), Error> {
    for needer in &needers(rt.alloc(), graph, node)? {
        if let Some(package) = graph.node_weight(*needer) {
            let name = &package.name;
            println!(rt; "{name} needs it")?;
        }
    }
    Ok(())
}

/// Prints the answers about some nodes, as lines and as a document.
pub fn print_answers(rt: &HostRuntime, tree: &Tree, nodes: &[NodeIndex]) -> Result<(), Error>
    requires { All (λ node. node < length tree.now.graph.packages) nodes.now }
{
    let answers = Answers::about(rt.alloc(), tree.graph(), nodes, true)?;
    print!(rt; "{answers}")?;
    print_each_answer(rt, &answers)?;
    print_answers_document(rt, &answers)
}

/// Prints each answer by itself.
pub fn print_each_answer(rt: &HostRuntime, answers: &Answers<'_>) -> Result<(), Error> {
    for answer in &answers.answers {
        let text = AnswerText(&answers.list, answer);
        println!(rt; "{text}")?;
    }
    Ok(())
}

/// Prints the document of answers.
pub fn print_answers_document(rt: &HostRuntime, answers: &Answers<'_>) -> Result<(), Error> {
    let file = File {
        path: Some("Cargo.lock"),
        format: ResolveVersion::V3,
    };
    let text = answers_json(rt.alloc(), &file, &answers.answers)?;
    print_line(rt, &text)
}
