//! The components of a bill of materials: the root, and the other packages, in order, each listed
//! once.

ghost use Rattle.std.specs.Prelude.{◌≡◌, ◌<◌, All, Some, codes, length, map};
ghost use Rattle.std.specs.Prelude.{option_copied, option_map, string_bytes};
ghost use Rattle.serde_json.specs.Data.{array, string};
ghost use Rattle.serde_json.specs.View.{items_of};
ghost use Rattle.cargo_lock_parts.specs.Checksum.{digest_of};
ghost use Rattle.cargo_lock_parts.specs.Identity.{identity_of};
ghost use Rattle.cargo_lock_bom.specs.Component.{component_at, component_of, hashes_of};
ghost use Rattle.cargo_lock_bom.specs.Component.{declared, license_at, license_data, licenses_of};
ghost use Rattle.cargo_lock_bom.specs.Component.{repositories_if};
ghost use Rattle.cargo_lock_bom.specs.Component.{repositories_of, root_component, type_text};
ghost use Rattle.cargo_lock_bom.specs.Component.{workspace_component};
ghost use Rattle.cargo_lock_bom.specs.Options.{Expression, Named, license_of};
ghost use Rattle.cargo_lock_bom.specs.Tokens.{data_tokens, member_tokens};
ghost use Rattle.printing.specs.Json.{Adds};
ghost use Rattle.cargo_lock_bom.specs.Purl.{purl_of};
ghost use Rattle.cargo_lock_bom.specs.References.{package_reference};
ghost use Rattle.cargo_lock_bom.specs.Root.{IsWithin};

use crate::iri::iri_text;
use crate::options::License;
use crate::purl::purl;
use crate::reference::text_at;
use crate::root::{Root, is_application};
use cargo_lock_graph::graph::{Graph, NodeIndex};
use cargo_lock_parts::package::{Checksum, Package, SourceId, SourceKind};
use printing::JsonWriter;
use std::alloc::{AllocError, Global};

/// The packages of which components are written, with their licences and the texts that refer to
/// them.
#[derive(Clone, Copy)]
pub(crate) struct Components<'a> {
    /// The graph of the packages.
    pub graph: &'a Graph,

    /// The licences of the packages, each at the place of its package.
    pub licenses: &'a [Option<License>],

    /// The texts that refer to the packages, in order.
    pub texts: &'a [String],
}

/// Writes the components of the packages of some nodes. Fails when out of memory.
pub(crate) fn put_components(
    out: &mut JsonWriter,
    alloc: Global,
    components: &Components<'_>,
    nodes: &[usize],
) -> Result<(), AllocError>
    requires within { All (λ k. k < length components.now.graph.now.packages) nodes.now }
    requires texts { map string_bytes components.now.texts.now
        ≡ map package_reference components.now.graph.now.packages }
    ensures { Adds result out.old out.new (data_tokens (array (items_of
        (map (component_at components.now.graph.now
        (map (option_map license_of) components.now.licenses.now)) nodes.now)))) }
{
    out.begin_array()?;
    for node in nodes {
        put_component(out, alloc, components, NodeIndex::new(*node))?;
    }
    out.end_array()
}

/// Writes the member with the component of the root, if there is one. Fails when out of memory.
pub(crate) fn put_root(
    out: &mut JsonWriter,
    alloc: Global,
    components: &Components<'_>,
    root: &Root,
) -> Result<(), AllocError>
    requires within { IsWithin components.now.graph.now.packages root.now }
    requires texts { map string_bytes components.now.texts.now
        ≡ map package_reference components.now.graph.now.packages }
    ensures { Adds result out.old out.new (member_tokens (codes "component")
        (root_component components.now.graph.now
        (map (option_map license_of) components.now.licenses.now) root.now)) }
{
    match root {
        Root::Package(node) => put_package(out, alloc, components, *node),
        Root::Workspace => put_workspace(out),
        Root::Nothing => Ok(()),
    }
}

// Writes the member with the component of the package of a node.
fn put_package(
    out: &mut JsonWriter,
    alloc: Global,
    components: &Components<'_>,
    node: NodeIndex,
) -> Result<(), AllocError>
    requires within { node < length components.now.graph.now.packages }
    requires texts { map string_bytes components.now.texts.now
        ≡ map package_reference components.now.graph.now.packages }
    ensures { Adds result out.old out.new (member_tokens (codes "component")
        (Some (component_at components.now.graph.now
        (map (option_map license_of) components.now.licenses.now) node))) }
{
    out.key("component")?;
    put_component(out, alloc, components, node)
}

// Writes the member with the component that represents the packages of the workspace together.
fn put_workspace(out: &mut JsonWriter) -> Result<(), AllocError>
    ensures { Adds result out.old out.new (member_tokens (codes "component")
        (Some workspace_component)) }
{
    out.key("component")?;
    out.begin_object()?;
    out.string_member("bom-ref", "workspace")?;
    out.string_member("name", "workspace")?;
    out.string_member("type", "application")?;
    out.end_object()
}

fn put_component(
    out: &mut JsonWriter,
    alloc: Global,
    components: &Components<'_>,
    node: NodeIndex,
) -> Result<(), AllocError>
    requires within { node < length components.now.graph.now.packages }
    requires texts { map string_bytes components.now.texts.now
        ≡ map package_reference components.now.graph.now.packages }
    ensures { Adds result out.old out.new (data_tokens (component_at components.now.graph.now
        (map (option_map license_of) components.now.licenses.now) node)) }
{
    let Components {
        graph,
        licenses,
        texts,
    } = *components;
    let application = is_application(alloc, graph, node)?;
    let license = license_at(licenses, node);
    let text = text_at(texts, node.index());
    put_component_of(out, alloc, application, license, text, &graph[node])
}

// The licence of the package of a node, if it is there.
fn license_at(licenses: &[Option<License>], node: NodeIndex) -> Option<&License>
    ensures { option_map (λ l. license_of l.now) result
        ≡ license_at (map (option_map license_of) licenses.now) node }
{
    match licenses.get(node.index()) {
        Some(Some(license)) => Some(license),
        _ => None,
    }
}

// Writes the component of a package, as an application or as a library, with this licence, if it is
// there, and with the text that refers to it.
fn put_component_of(
    out: &mut JsonWriter,
    alloc: Global,
    application: bool,
    license: Option<&License>,
    text: &str,
    package: &Package,
) -> Result<(), AllocError>
    requires { text.now ≡ package_reference «package».now }
    ensures { Adds result out.old out.new (data_tokens
        (component_of application (option_map (λ l. license_of l.now) license.entry)
        «package».now)) }
{
    out.begin_object()?;
    out.string_member("bom-ref", text)?;
    put_repositories(out, alloc, &package.source)?;
    put_hashes(out, alloc, &package.checksum)?;
    put_licenses(out, license)?;
    out.string_member("name", package.name.as_str())?;
    put_purl(out, alloc, package)?;
    out.string_member("type", type_text(application))?;
    out.displayed_member("version", &package.version)?;
    out.end_object()
}

// The type of a component.
fn type_text(application: bool) -> &'static str
    ensures { result.now ≡ type_text application }
{
    if application {
        "application"
    } else {
        "library"
    }
}

// Writes the member with the package URL, if there is one.
fn put_purl(out: &mut JsonWriter, alloc: Global, package: &Package) -> Result<(), AllocError>
    ensures { Adds result out.old out.new (member_tokens (codes "purl")
        (option_map string (purl_of (identity_of «package».now)))) }
{
    let text = purl(alloc, package)?;
    put_text_if(out, "purl", &text)
}

/// Writes a member whose value is a text, if there is one. Fails when out of memory.
pub(crate) fn put_text_if(
    out: &mut JsonWriter,
    name: &str,
    text: &Option<String>,
) -> Result<(), AllocError>
    ensures { Adds result out.old out.new (member_tokens name.now
        (option_map string (option_map string_bytes text.now))) }
{
    match text {
        Some(text) => out.string_member(name, text.as_str()),
        None => Ok(()),
    }
}

// Writes the member with the licence of a package, if it is there.
fn put_licenses(out: &mut JsonWriter, license: Option<&License>) -> Result<(), AllocError>
    ensures { Adds result out.old out.new (member_tokens (codes "licenses")
        (option_map licenses_of (option_map (λ l. license_of l.now) license.entry))) }
{
    match license {
        Some(license) => put_license(out, license),
        None => Ok(()),
    }
}

fn put_license(out: &mut JsonWriter, license: &License) -> Result<(), AllocError>
    ensures { Adds result out.old out.new (member_tokens (codes "licenses")
        (Some (licenses_of (license_of license.now)))) }
{
    out.key("licenses")?;
    out.begin_array()?;
    put_license_data(out, license)?;
    out.end_array()
}

// Writes a licence.
fn put_license_data(out: &mut JsonWriter, license: &License) -> Result<(), AllocError>
    ensures { Adds result out.old out.new (data_tokens (license_data (license_of license.now))) }
{
    match license {
        License::Expression(text) => put_expression(out, text.as_str()),
        License::Named(text) => put_named(out, text.as_str()),
    }
}

// Writes a licence that is an expression.
fn put_expression(out: &mut JsonWriter, text: &str) -> Result<(), AllocError>
    ensures { Adds result out.old out.new (data_tokens (license_data (Expression text.now))) }
{
    put_declared(out, "expression", text)
}

// Writes a licence of this name.
fn put_named(out: &mut JsonWriter, text: &str) -> Result<(), AllocError>
    ensures { Adds result out.old out.new (data_tokens (license_data (Named text.now))) }
{
    out.begin_object()?;
    out.key("license")?;
    put_declared(out, "name", text)?;
    out.end_object()
}

// Writes a licence text at this key, which the author of the package declared.
fn put_declared(out: &mut JsonWriter, key: &str, text: &str) -> Result<(), AllocError>
    ensures { Adds result out.old out.new (data_tokens (declared key.now text.now)) }
{
    out.begin_object()?;
    out.string_member("acknowledgement", "declared")?;
    out.string_member(key, text)?;
    out.end_object()
}

// Writes the member with the hash of a package, if it has a checksum.
fn put_hashes(
    out: &mut JsonWriter,
    alloc: Global,
    checksum: &Option<Checksum>,
) -> Result<(), AllocError>
    ensures { Adds result out.old out.new (member_tokens (codes "hashes")
        (option_map hashes_of (option_map digest_of checksum.now))) }
{
    match checksum {
        Some(checksum) => put_hash(out, alloc, checksum),
        None => Ok(()),
    }
}

fn put_hash(out: &mut JsonWriter, alloc: Global, checksum: &Checksum) -> Result<(), AllocError>
    ensures { Adds result out.old out.new (member_tokens (codes "hashes")
        (Some (hashes_of (digest_of checksum.now)))) }
{
    out.key("hashes")?;
    out.begin_array()?;
    out.begin_object()?;
    out.string_member("alg", "SHA-256")?;
    out.displayed_member("content", checksum)?;
    out.end_object()?;
    out.end_array()
}

// Writes the member with the repository of a package, if its source is one.
fn put_repositories(
    out: &mut JsonWriter,
    alloc: Global,
    source: &Option<SourceId>,
) -> Result<(), AllocError>
    ensures { Adds result out.old out.new (member_tokens (codes "externalReferences")
        (repositories_if source.now)) }
{
    match source {
        Some(source) => put_repositories_of(out, alloc, source),
        None => Ok(()),
    }
}

// Writes the member with the repository, if the source is one.
fn put_repositories_of(
    out: &mut JsonWriter,
    alloc: Global,
    source: &SourceId,
) -> Result<(), AllocError>
    ensures { Adds result out.old out.new (member_tokens (codes "externalReferences")
        (repositories_if (Some source.now))) }
{
    match source.kind() {
        SourceKind::Git(_) => {
            let url = iri_text(alloc, source.url())?;
            put_repository(out, url.as_str(), source.precise())
        }
        SourceKind::Path => Ok(()),
        SourceKind::Registry => Ok(()),
        SourceKind::SparseRegistry => Ok(()),
        SourceKind::LocalRegistry => Ok(()),
        SourceKind::Directory => Ok(()),
    }
}

// Writes the member with the repository at a URL, with the commit, tag, branch or revision, if it
// is known.
fn put_repository(out: &mut JsonWriter, url: &str, precise: Option<&str>) -> Result<(), AllocError>
    ensures { Adds result out.old out.new (member_tokens (codes "externalReferences")
        (Some (repositories_of url.now (option_copied precise.entry)))) }
{
    out.key("externalReferences")?;
    out.begin_array()?;
    out.begin_object()?;
    put_comment(out, precise)?;
    out.string_member("type", "vcs")?;
    out.string_member("url", url)?;
    out.end_object()?;
    out.end_array()
}

// Writes the member with the commit, tag, branch or revision, if it is known.
fn put_comment(out: &mut JsonWriter, precise: Option<&str>) -> Result<(), AllocError>
    ensures { Adds result out.old out.new (member_tokens (codes "comment")
        (option_map string (option_copied precise.entry))) }
{
    match precise {
        Some(precise) => out.string_member("comment", precise),
        None => Ok(()),
    }
}
