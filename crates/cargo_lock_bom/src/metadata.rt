//! The metadata of a bill of materials.

ghost use Rattle.std.specs.Prelude.{◌≡◌, ◌<◌, ◌*◌, ◌∷◌, IfOk, IfSome, Some, codes, map};
ghost use Rattle.std.specs.Prelude.{option_map, pos, string_bytes};
ghost use Rattle.json.specs.Token.{key};
ghost use Rattle.cargo_lock_bom.specs.Contents.{AreContents, metadata_with};
ghost use Rattle.cargo_lock_bom.specs.Tokens.{data_tokens, member_tokens};
ghost use Rattle.printing.specs.Json.{Adds};
ghost use Rattle.cargo_lock_bom.specs.Metadata.{IsTimeText, IsTimeTextIf, author_of, authors_if};
ghost use Rattle.cargo_lock_bom.specs.Metadata.{authors_of, lifecycles, properties_if};
ghost use Rattle.cargo_lock_bom.specs.Metadata.{properties_of, property_object, tools_of};
ghost use Rattle.cargo_lock_bom.specs.Options.{property_of};

use crate::component::{Components, put_root, put_text_if};
use crate::contents::Contents;
use crate::options::{Options, Property};
use cargo_lock_graph::graph::Graph;
use jiff_core::civil::DateTime;
use jiff_fmt::temporal::DateTimePrinter;
use printing::JsonWriter;
use std::alloc::{AllocError, Global};

/// Writes the metadata of the bill of a graph with these contents. Fails when out of memory.
pub(crate) fn put_metadata(
    out: &mut JsonWriter,
    alloc: Global,
    graph: &Graph,
    options: &Options<'_>,
    contents: &Contents,
) -> Result<(), AllocError>
    requires { AreContents graph.now «options».now contents.now }
    ensures { Adds result out.old out.new (data_tokens
        (metadata_with graph.now «options».now contents.now)) }
{
    let components = Components {
        graph,
        licenses: options.licenses,
        texts: contents.texts.as_slice(),
    };
    out.begin_object()?;
    put_authors(out, options.authors)?;
    put_root(out, alloc, &components, &contents.root)?;
    put_lifecycles(out)?;
    put_properties(out, options.properties)?;
    put_text_if(out, "timestamp", &contents.time)?;
    put_tools(out, options.tool_version)?;
    out.end_object()
}

// Writes the member with the authors of these names, if there is one.
fn put_authors(out: &mut JsonWriter, names: &[&str]) -> Result<(), AllocError>
    ensures { Adds result out.old out.new (member_tokens (codes "authors")
        (authors_if (map (λ name. name.now) names.now))) }
{
    if names.is_empty() {
        return Ok(());
    }
    out.key("authors")?;
    put_author_list(out, names)
}

fn put_author_list(out: &mut JsonWriter, names: &[&str]) -> Result<(), AllocError>
    ensures { Adds result out.old out.new (data_tokens
        (authors_of (map (λ name. name.now) names.now))) }
{
    out.begin_array()?;
    for name in names {
        put_author(out, name)?;
    }
    out.end_array()
}

fn put_author(out: &mut JsonWriter, name: &str) -> Result<(), AllocError>
    ensures { Adds result out.old out.new (data_tokens (author_of name.now)) }
{
    out.begin_object()?;
    out.string_member("name", name)?;
    out.end_object()
}

// Writes the member with these properties, if there is one.
fn put_properties(out: &mut JsonWriter, properties: &[Property]) -> Result<(), AllocError>
    ensures { Adds result out.old out.new (member_tokens (codes "properties")
        (properties_if (map property_of properties.now))) }
{
    if properties.is_empty() {
        return Ok(());
    }
    out.key("properties")?;
    put_property_list(out, properties)
}

fn put_property_list(out: &mut JsonWriter, properties: &[Property]) -> Result<(), AllocError>
    ensures { Adds result out.old out.new (data_tokens
        (properties_of (map property_of properties.now))) }
{
    out.begin_array()?;
    for property in properties {
        put_property(out, property)?;
    }
    out.end_array()
}

fn put_property(out: &mut JsonWriter, property: &Property) -> Result<(), AllocError>
    ensures { Adds result out.old out.new (data_tokens
        (property_object (property_of property.now))) }
{
    out.begin_object()?;
    out.string_member("name", property.name.as_str())?;
    out.string_member("value", property.value.as_str())?;
    out.end_object()
}

// Writes the member with the phase in which the packages of the bill are chosen.
fn put_lifecycles(out: &mut JsonWriter) -> Result<(), AllocError>
    ensures { Adds result out.old out.new
        (key (codes "lifecycles") ∷ data_tokens lifecycles) }
{
    out.key("lifecycles")?;
    out.begin_array()?;
    out.begin_object()?;
    out.string_member("phase", "pre-build")?;
    out.end_object()?;
    out.end_array()
}

// Writes the member with the program that wrote the bill.
fn put_tools(out: &mut JsonWriter, version: &str) -> Result<(), AllocError>
    ensures { Adds result out.old out.new
        (key (codes "tools") ∷ data_tokens (tools_of version.now)) }
{
    out.key("tools")?;
    out.begin_object()?;
    out.key("components")?;
    out.begin_array()?;
    out.begin_object()?;
    out.string_member("name", "cargo-lock")?;
    out.string_member("type", "application")?;
    out.string_member("version", version)?;
    out.end_object()?;
    out.end_array()?;
    out.end_object()
}

/// The text of a time, if there is one. Fails when out of memory.
pub(crate) fn time_text_if(
    alloc: Global,
    seconds: Option<u64>,
) -> Result<Option<String>, AllocError>
    requires { IfSome seconds (λ seconds. seconds < 253_402_300_800) }
    ensures { IfOk result
        (λ text. IsTimeTextIf seconds (option_map string_bytes text)) }
{
    match seconds {
        Some(seconds) => Ok(Some(time_text(alloc, seconds)?)),
        None => Ok(None),
    }
}

fn time_text(alloc: Global, seconds: u64) -> Result<String, AllocError>
    requires { seconds < 253_402_300_800 }
    ensures { IfOk result (λ text. IsTimeText seconds (string_bytes text)) }
{
    let moment = DateTime::from_nanosecond_in_range(nanoseconds(seconds));
    let text = DateTimePrinter::new().datetime_text(moment);
    format!(in alloc; "{text}Z")
}

fn nanoseconds(seconds: u64) -> i128
    requires { seconds < 253_402_300_800 }
    ensures { result ≡ pos (seconds * 1_000_000_000) }
{
    seconds as i128 * 1_000_000_000
}
