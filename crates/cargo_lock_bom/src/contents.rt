//! What a bill of materials of a graph has, by nodes: it is chosen once, and may be written twice,
//! since the serial number is computed from the text without it.

ghost use Rattle.std.specs.Prelude.{◌≡◌, ◌<◌, IfOk, IfSome, length, map, string_bytes};
ghost use Rattle.cargo_lock_bom.specs.Contents.{AreContents};
ghost use Rattle.cargo_lock_bom.specs.References.{package_reference};

use crate::dependencies::{Entry, entries};
use crate::metadata::time_text_if;
use crate::options::Options;
use crate::root::{Root, listed, others, root_of};
use cargo_lock_graph::graph::Graph;
use std::alloc::{AllocError, Global};

/// What a bill has.
#[derive(Drop)]
pub(crate) struct Contents {
    /// Its root.
    pub root: Root,

    /// The texts that refer to the packages of the graph, in order.
    pub texts: Vec<String>,

    /// The nodes of its components: those of the packages that are listed and not the root.
    pub nodes: Vec<usize>,

    /// Its entries.
    pub entries: Vec<Entry>,

    /// The text of its time, if it has one.
    pub time: Option<String>,
}

/// What the bill of a graph has, where these are the texts that refer to its packages. Fails when
/// out of memory.
pub(crate) fn contents_of(
    alloc: Global,
    graph: &Graph,
    options: &Options<'_>,
    texts: Vec<String>,
) -> Result<Contents, AllocError>
    requires texts { map string_bytes texts.items ≡ map package_reference graph.now.packages }
    requires root { IfSome «options».now.root (λ node. node < length graph.now.packages) }
    requires time { IfSome «options».now.timestamp (λ seconds. seconds < 253_402_300_800) }
    ensures { IfOk result (AreContents graph.now «options».now) }
{
    let root = root_of(alloc, graph, options.root)?;
    let listed = listed(alloc, graph, options.listed, options.root)?;
    let nodes = others(alloc, listed.as_slice(), &root)?;
    let entries = entries(alloc, graph, listed.as_slice(), &root)?;
    let time = time_text_if(alloc, options.timestamp)?;
    Ok(Contents {
        root,
        texts,
        nodes,
        entries,
        time,
    })
}
