//! The texts by which a bill of materials refers to packages.

ghost use Rattle.std.specs.Prelude.{◌≡◌, ◌⊎◌, ◌||◌, not, ℕ, List, bytes_eq, IfErr, IfOk};
ghost use Rattle.std.specs.Prelude.{IsOkUnless, OnOk, map, option_map, string_bytes};
ghost use Rattle.std.specs.BTreeSet.{contains_text};
ghost use Rattle.cargo_lock_parts.specs.declared.error.Error.TheVariants.{Memory};
ghost use Rattle.cargo_lock_parts.specs.Error.{IsParse};
ghost use Rattle.cargo_lock_parts.specs.Identity.{source_part};
ghost use Rattle.cargo_lock_bom.specs.Contents.{text_at};
ghost use Rattle.cargo_lock_bom.specs.References.{HaveDistinctReferences, IsRepeatedFault};
ghost use Rattle.cargo_lock_bom.specs.References.{package_reference};
ghost use Rattle.cargo_lock_bom.specs.References as spec;
ghost use Rattle.cargo_lock_bom.specs.UserInfo.{public_source};

use crate::user_info::source_text;
use cargo_lock_graph::graph::{Graph, NodeIndex};
use cargo_lock_parts::package::SourceId;
use cargo_lock_parts::{Error, Package, Result};
use std::alloc::{AllocError, Global};
use std::collections::BTreeSet;

/// The text by which a bill of materials refers to a package, its `bom-ref`: `NAME@VERSION`, after
/// the source and `#` if there is a source, as in
/// `registry+https://github.com/rust-lang/crates.io-index#serde@1.0.203`. The URL of the source is
/// written without user name and password, since a bill is published. Fails when out of memory.
pub fn reference(alloc: Global, package: &Package) -> std::result::Result<String, AllocError>
    ensures { IfOk result (λ text. string_bytes text ≡ package_reference «package».now) }
{
    let name = &package.name;
    let version = &package.version;
    match &package.source {
        Some(source) => {
            let place = source_text(alloc, source)?;
            format!(in alloc; "{place}#{name}@{version}")
        }
        None => format!(in alloc; "{name}@{version}"),
    }
}

/// The texts that refer to the packages of a graph, in order. Fails when out of memory.
pub(crate) fn references(
    alloc: Global,
    graph: &Graph,
) -> std::result::Result<Vec<String>, AllocError>
    ensures { IfOk result (λ made. map string_bytes made.items
        ≡ map package_reference graph.now.packages) }
{
    let count = graph.node_count();
    let mut made = Vec::with_capacity(alloc, count)?;
    for node in 0..count {
        made.push(reference(alloc, &graph[NodeIndex::new(node)])?)?;
    }
    Ok(made)
}

/// The text of a node among those of the packages of a graph.
pub(crate) fn text_at(texts: &[String], node: usize) -> &str
    ensures { result.now ≡ text_at (map string_bytes texts.now) node }
{
    match texts.get(node) {
        Some(text) => text.as_str(),
        None => "",
    }
}

/// Refuses a graph in which the same text refers to two packages. These are the texts that refer to
/// its packages.
pub(crate) fn check_distinct(alloc: Global, graph: &Graph, texts: &[String]) -> Result<()>
    requires { map string_bytes texts.now ≡ map package_reference graph.now.packages }
    ensures ok { OnOk result (HaveDistinctReferences graph.now.packages) }
    ensures err { IfErr result (IsRepeatedFault graph.now.packages) }
{
    let mut seen = BTreeSet::new(alloc);
    for node in 0..graph.node_count() {
        let package = &graph[NodeIndex::new(node)];
        if !add(alloc, &mut seen, text_at(texts, node))? {
            return Err(repeated_fault(alloc, package));
        }
    }
    Ok(())
}

// Adds a text, and returns whether it was new.
fn add(alloc: Global, seen: &mut BTreeSet<String>, text: &str) -> Result<bool>
    ensures new { IfOk result (λ new. new ≡ not (contains_text seen.old text.now)) }
    ensures added { OnOk result ((q : List ℕ) → contains_text seen.new q
        ≡ (contains_text seen.old q || bytes_eq q text.now)) }
    ensures err { IsOkUnless result Memory }
{
    let text = String::from_str(alloc, text)?;
    let new = seen.insert(text)?;
    Ok(new)
}

// The error for a package whose text another one has.
fn repeated_fault(alloc: Global, package: &Package) -> Error
    ensures { (result ≡ Memory) ⊎ IsParse result (spec.repeated_text «package».now) }
{
    match repeated_text(alloc, package) {
        Ok(text) => Error::Parse(text),
        Err(error) => error,
    }
}

// The text of the error for such a package.
fn repeated_text(alloc: Global, package: &Package) -> Result<String>
    ensures ok { IfOk result (λ text. string_bytes text ≡ spec.repeated_text «package».now) }
    ensures err { IsOkUnless result Memory }
{
    let name = &package.name;
    let version = &package.version;
    let place = source_part(alloc, &package.source)?;
    let text = format!(in alloc; "two packages are {name} {version}{place}")?;
    Ok(text)
}

// The source in round brackets, if there is one.
fn source_part(alloc: Global, source: &Option<SourceId>) -> std::result::Result<String, AllocError>
    ensures { IfOk result
        (λ text. string_bytes text ≡ source_part (option_map public_source source.now)) }
{
    match source {
        Some(source) => {
            let place = source_text(alloc, source)?;
            format!(in alloc; " ({place})")
        }
        None => Ok(String::new(alloc)),
    }
}
