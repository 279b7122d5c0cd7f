//! The options of a bill of materials.

ghost use Rattle.std.specs.Prelude.{◌≡◌, ◌<◌, IfSome, length};
ghost use Rattle.cargo_lock_bom.specs.Options.{below, within};

use cargo_lock_graph::graph::{Graph, NodeIndex};
use std::marker::Model;

/// The version of this project, which `cargo-lock --version` prints and bills contain. The file
/// `VERSION` has the same text.
pub const VERSION: &str = "0.1.0";

/// Which packages a bill lists.
#[derive(Debug, Clone, Copy)]
pub enum Listed {
    /// Each package.
    All,

    /// The package of the root that the caller gives, and those to which edges lead from it.
    /// Without such a root it is each package.
    Reached,
}

/// A property of the metadata of a bill.
#[derive(Debug, Drop)]
pub struct Property {
    /// Its name. CycloneDX has a register of names that several tools share.
    pub name: String,

    /// Its value.
    pub value: String,
}

/// What the manifest of a package says of its licence.
#[derive(Debug, Drop)]
pub enum License {
    /// An expression, such as `MIT OR Apache-2.0`.
    Expression(String),

    /// A text that is no expression, such as `MIT or later`.
    Named(String),
}

/// The options of a bill of materials. Equal lockfiles have equal bills if their options are equal.
#[derive(Debug, Drop)]
pub struct Options<'a> {
    /// The node of the root, if the caller gives it: that of a package that its user named, or of a
    /// root that the lockfile itself has, as one of V1 may. A node that is not in the graph is
    /// ignored.
    pub root: Option<NodeIndex>,

    /// Which packages the bill lists.
    pub listed: Listed,

    /// The version of the program that writes the bill.
    pub tool_version: &'a str,

    /// The time at which the bill is written, in seconds since the start of 1970, in UTC. Without
    /// it the bill has no time. A time after the year 9999, from 253402300800 on, is ignored.
    pub timestamp: Option<u64>,

    /// The authors of the bill, in this order. Without one the bill names no author.
    pub authors: &'a [&'a str],

    /// The properties of the metadata, in this order. Without one the bill has none.
    pub properties: &'a [Property],

    /// Whether the bill has a serial number.
    pub has_serial: bool,

    /// The licences of packages, each at the place of its package, with `None` for a package
    /// without one. An empty list means that no package has one, and what is beyond the packages is
    /// ignored. The bill has the texts as they are given.
    pub licenses: &'a [Option<License>],
}

impl<'a> Model for Options<'a> {
    ghost use Rattle.std.specs.Prelude.{map, option_map};
    ghost use Rattle.cargo_lock_bom.specs.Options.{OptionsData, license_of, property_of};

    ghost Value = { OptionsData };

    ghost view = { λ o. record {
      root = o.root;
      listed = o.listed;
      tool_version = o.tool_version.now;
      timestamp = o.timestamp;
      authors = map (λ author. author.now) o.authors.now;
      properties = map property_of o.properties.now;
      has_serial = o.has_serial;
      licenses = map (option_map license_of) o.licenses.now;
    } };
}

/// The first second after the year 9999.
const YEAR_10000: u64 = 253_402_300_800;

impl<'a> Options<'a> {
    /// The options without those that are ignored for this graph.
    pub(crate) fn within(&self, graph: &Graph) -> Options<'a>
        ensures is { «result» ≡ within graph.now «self».now }
        ensures root { IfSome «result».root (λ node. node < length graph.now.packages) }
        ensures time { IfSome «result».timestamp (λ seconds. seconds < 253_402_300_800) }
    {
        Options {
            root: node_below(self.root, graph.node_count()),
            listed: self.listed,
            tool_version: self.tool_version,
            timestamp: time_below(self.timestamp, YEAR_10000),
            authors: self.authors,
            properties: self.properties,
            has_serial: self.has_serial,
            licenses: self.licenses,
        }
    }
}

// The node, if there is one and it is below the limit.
fn node_below(node: Option<NodeIndex>, limit: usize) -> Option<NodeIndex>
    ensures is { result ≡ below limit node }
    ensures within { IfSome result (λ node. node < limit) }
{
    match node {
        Some(node) if node.index() < limit => Some(node),
        _ => None,
    }
}

// The time, if there is one and it is below the limit.
fn time_below(time: Option<u64>, limit: u64) -> Option<u64>
    ensures is { result ≡ below limit time }
    ensures within { IfSome result (λ seconds. seconds < limit) }
{
    match time {
        Some(seconds) if seconds < limit => Some(seconds),
        _ => None,
    }
}
