//! The bill of materials of a lockfile.

ghost use Rattle.std.specs.Prelude.{◌≡◌, ◌<◌, IfErr, IfOk, IfSome, Some, length};
ghost use Rattle.std.specs.Prelude.{option_map, string_bytes};
ghost use Rattle.json.specs.Layout.{pretty};
ghost use Rattle.json.specs.Print.{print};
ghost use Rattle.serde_json.specs.Read.{read};
ghost use Rattle.serde_json.specs.View.{view};
ghost use Rattle.cargo_lock_parts.specs.declared.error.Error.TheVariants.{Memory};
ghost use Rattle.cargo_lock_bom.specs.Contents.{AreContents, IsTextOfData, bill_with};
ghost use Rattle.cargo_lock_bom.specs.Contents.{with_serial_if};
ghost use Rattle.cargo_lock_bom.specs.Document.{IsBill, IsLaidOut, ReadsAsBill};
ghost use Rattle.cargo_lock_bom.specs.Tokens.{data_tokens};
ghost use Rattle.printing.specs.Json.{Adds, laid_out};
ghost use Rattle.cargo_lock_bom.specs.Options.{within};
ghost use Rattle.cargo_lock_bom.specs.References.{IsRepeatedFault};
ghost use Rattle.cargo_lock_bom.specs.Serial.{numbered};

use crate::component::{Components, put_components, put_text_if};
use crate::contents::{Contents, contents_of};
use crate::dependencies::put_entries;
use crate::metadata::put_metadata;
use crate::options::Options;
use crate::reference::{check_distinct, references};
use crate::serial::serial_text;
use cargo_lock_graph::graph::Graph;
use cargo_lock_parts::{Error, Result};
use printing::{JsonWriter, Layout};
use serde_json::Value;
use std::alloc::{AllocError, Global};

/// The text of the bill of materials of a graph, with one member or item per line, indented: its
/// packages, and for each package the packages on which it depends by the graph's edges.
///
/// The member `components` has a package of crates.io as `{"bom-ref":
/// "registry+https://github.com/rust-lang/crates.io-index#serde@1.0.203", "hashes": [{"alg":
/// "SHA-256", "content": "7253ab.."}], "name": "serde", "purl": "pkg:cargo/serde@1.0.203", "type":
/// "library", "version": "1.0.203"}`, without `hashes` if there is no checksum, and without `purl`
/// if there is no source. A package of a repository also has `"externalReferences": [{"comment":
/// COMMIT, "type": "vcs", "url": URL}]`. One for which the options have a licence also has
/// `"licenses": [{"acknowledgement": "declared", "expression": "MIT OR Apache-2.0"}]`. A text that
/// is no expression is in `"licenses": [{"license": {"acknowledgement": "declared", "name": TEXT}}]`.
/// The `type` is `application` if the package has no source and no other package needs it. The
/// member `dependencies` has, for each component, `{"dependsOn": [..], "ref": ".."}`, by their
/// `bom-ref`.
///
/// If the options list what is reached alone, and give a root, these are the packages to which
/// edges lead from the root, and no others, in both members.
///
/// The member `metadata` has the component of the root, which `root_of` chooses. If the root is a
/// package, it is in `metadata` in place of `components`; if it is the workspace, it is
/// `{"bom-ref": "workspace", "name": "workspace", "type": "application"}`, whose entry depends on
/// each package without a source. The member also has `"lifecycles": [{"phase": "pre-build"}]`, the
/// program that wrote the bill, and what the options ask for:
/// `"timestamp": "2024-06-19T17:30:05Z"`, `"authors": [{"name": AUTHOR}, ..]` and
/// `"properties": [{"name": NAME, "value": VALUE}, ..]`. The member `serialNumber`, if they ask for
/// it, is `urn:uuid:ID`, where ID is computed from the document's text in one line without that member.
///
/// `Parse` means that two packages have the same `bom-ref`, so the bill would refer to both:
/// `two packages are NAME VERSION (SOURCE)`. The other error is `Memory`.
pub fn pretty_text(alloc: Global, graph: &Graph, options: &Options<'_>) -> Result<String>
    ensures ok { IfOk result (λ text. ReadsAsBill graph.now
        (within graph.now «options».now) (string_bytes text)) }
    ensures layout { IfOk result (λ text. IsLaidOut pretty (string_bytes text)) }
    ensures err { IfErr result (IsRepeatedFault graph.now.packages) }
{
    text_within(alloc, graph, &options.within(graph), Layout::Lines)
}

/// The text of the bill of materials of a graph, in one line without spaces between its parts: the
/// same as that of `pretty_text` but for the layout. The errors are those of `pretty_text`: `Parse`
/// if two packages have the same `bom-ref`, and `Memory`.
pub fn compact_text(alloc: Global, graph: &Graph, options: &Options<'_>) -> Result<String>
    ensures ok { IfOk result (λ text. ReadsAsBill graph.now
        (within graph.now «options».now) (string_bytes text)) }
    ensures layout { IfOk result (λ text. IsLaidOut print (string_bytes text)) }
    ensures err { IfErr result (IsRepeatedFault graph.now.packages) }
{
    text_within(alloc, graph, &options.within(graph), Layout::Line)
}

/// The bill of materials of a graph as a value of JSON, to which a caller may add what a lockfile
/// does not say. It is read from the text of `compact_text`, and the errors are those of that:
/// `Parse` if two packages have the same `bom-ref`, and `Memory`.
pub fn document(alloc: Global, graph: &Graph, options: &Options<'_>) -> Result<Value>
    ensures ok { IfOk result (λ v. IsBill graph.now (within graph.now «options».now) (view v)) }
    ensures err { IfErr result (IsRepeatedFault graph.now.packages) }
{
    let text = compact_text(alloc, graph, options)?;
    let value = value_of(alloc, text.as_str())?;
    Ok(value)
}

// The value of a text that reads as one, so that a reader lacks nothing but memory.
fn value_of(alloc: Global, text: &str) -> Result<Value>
    ensures ok { IfOk result (λ v. read text.now ≡ Some (view v)) }
    ensures err { IfErr result (λ e. e ≡ Memory) }
{
    match Value::from_str(alloc, text) {
        Ok(value) => Ok(value),
        Err(_) => Err(Error::Memory),
    }
}

// The text, for a root that is a node and a time that the format can represent.
fn text_within(
    alloc: Global,
    graph: &Graph,
    options: &Options<'_>,
    layout: Layout,
) -> Result<String>
    requires root { IfSome «options».now.root (λ node. node < length graph.now.packages) }
    requires time { IfSome «options».now.timestamp (λ seconds. seconds < 253_402_300_800) }
    ensures ok { IfOk result (λ text. ReadsAsBill graph.now «options».now (string_bytes text)) }
    ensures layout { IfOk result
        (λ text. IsLaidOut (laid_out layout) (string_bytes text)) }
    ensures err { IfErr result (IsRepeatedFault graph.now.packages) }
{
    let texts = references(alloc, graph)?;
    check_distinct(alloc, graph, texts.as_slice())?;
    let contents = contents_of(alloc, graph, options, texts)?;
    let text = numbered_text(alloc, graph, options, &contents, layout)?;
    Ok(text)
}

// The text with these contents, with its serial number if the options ask for one.
fn numbered_text(
    alloc: Global,
    graph: &Graph,
    options: &Options<'_>,
    contents: &Contents,
    layout: Layout,
) -> std::result::Result<String, AllocError>
    requires { AreContents graph.now «options».now contents.now }
    ensures { IfOk result (λ text. IsTextOfData layout (numbered «options».now.has_serial
        (bill_with graph.now «options».now contents.now)) (string_bytes text)) }
{
    let serial = serial_if(alloc, graph, options, contents)?;
    text_with(alloc, graph, options, contents, &serial, layout)
}

// The serial number, if the options ask for one: that of the text in one line without it.
fn serial_if(
    alloc: Global,
    graph: &Graph,
    options: &Options<'_>,
    contents: &Contents,
) -> std::result::Result<Option<String>, AllocError>
    requires { AreContents graph.now «options».now contents.now }
    ensures { IfOk result (λ serial.
        with_serial_if (option_map string_bytes serial)
        (bill_with graph.now «options».now contents.now)
        ≡ numbered «options».now.has_serial (bill_with graph.now «options».now contents.now)) }
{
    if !options.has_serial {
        return Ok(None);
    }
    let text = text_with(alloc, graph, options, contents, &None, Layout::Line)?;
    let serial = serial_text(alloc, text.as_str())?;
    Ok(Some(serial))
}

// The text with these contents and this serial number.
fn text_with(
    alloc: Global,
    graph: &Graph,
    options: &Options<'_>,
    contents: &Contents,
    serial: &Option<String>,
    layout: Layout,
) -> std::result::Result<String, AllocError>
    requires { AreContents graph.now «options».now contents.now }
    ensures { IfOk result (λ text. IsTextOfData layout
        (with_serial_if (option_map string_bytes serial.now)
        (bill_with graph.now «options».now contents.now)) (string_bytes text)) }
{
    let mut out = JsonWriter::new(alloc, layout);
    put_bill(&mut out, alloc, graph, options, contents, serial)?;
    Ok(out.into_string())
}

// Writes the bill with these contents and this serial number.
fn put_bill(
    out: &mut JsonWriter,
    alloc: Global,
    graph: &Graph,
    options: &Options<'_>,
    contents: &Contents,
    serial: &Option<String>,
) -> std::result::Result<(), AllocError>
    requires { AreContents graph.now «options».now contents.now }
    ensures { Adds result out.old out.new (data_tokens
        (with_serial_if (option_map string_bytes serial.now)
        (bill_with graph.now «options».now contents.now))) }
{
    let texts = contents.texts.as_slice();
    let nodes = contents.nodes.as_slice();
    let components = Components {
        graph,
        licenses: options.licenses,
        texts,
    };
    out.begin_object()?;
    out.string_member("bomFormat", "CycloneDX")?;
    out.key("components")?;
    put_components(out, alloc, &components, nodes)?;
    out.key("dependencies")?;
    put_entries(out, texts, contents.entries.as_slice())?;
    out.key("metadata")?;
    put_metadata(out, alloc, graph, options, contents)?;
    put_text_if(out, "serialNumber", serial)?;
    out.string_member("specVersion", "1.6")?;
    out.number_member("version", 1)?;
    out.end_object()
}
