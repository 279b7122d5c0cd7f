//! Packages and dependencies in JSON.

ghost use Rattle.std.specs.Prelude.{◌∷◌, codes, map, option_map, true};
ghost use Rattle.semver.specs.Identifiers.{parts_of, parts_text};
ghost use Rattle.json.specs.Token.{begin_object, key, string};
ghost use Rattle.json.specs.Tree.{json_tokens};
ghost use Rattle.printing.specs.Json.{Adds};
ghost use Rattle.cargo_lock_parts.specs.Checksum.{digest_of, digest_text};
ghost use Rattle.cargo_lock_parts.specs.SourceText.{text_of};
ghost use Rattle.cargo_lock_display.specs.PackageJson.{dependency_json, package_json, package_or_null};
ghost use Rattle.cargo_lock_display.specs.PackageJson.{packages_json};
ghost use Rattle.printing.specs.Value.{text_or_null};

use crate::source_json::put_origin;
use cargo_lock_parts::dependency::Dependency;
use cargo_lock_parts::package::{Checksum, Name, Package, SourceId, Version};
use printing::JsonWriter;
use std::alloc::AllocError;

/// Writes a member whose value is a package, or null. Fails when out of memory.
pub fn put_package_or_null(
    out: &mut JsonWriter,
    name: &str,
    package: Option<&Package>,
) -> Result<(), AllocError>
    ensures { Adds result out.old out.new (key name.now
        ∷ json_tokens (package_or_null (option_map (λ p. p.now) «package».entry))) }
{
    match package {
        Some(package) => {
            out.key(name)?;
            put_package(out, package)
        }
        None => out.null_member(name),
    }
}

/// Writes a package: name, version, source, origin and checksum. Fails when out of memory.
#[tactic(auto, unfolding(crate::specs::PackageJson::identity_json))]
pub fn put_package(out: &mut JsonWriter, package: &Package) -> Result<(), AllocError>
    ensures { Adds result out.old out.new (json_tokens (package_json «package».now)) }
{
    begin_identity(out, &package.name, &package.version, &package.source)?;
    put_origin(out, &package.source)?;
    put_digest_or_null(out, "checksum", &package.checksum)?;
    out.end_object()
}

/// Writes the array of packages. Fails when out of memory.
pub fn put_packages(out: &mut JsonWriter, packages: &[&Package]) -> Result<(), AllocError>
    ensures { Adds result out.old out.new
        (json_tokens (packages_json (map (λ p. p.now) packages.now))) }
{
    out.begin_array()?;
    for one in packages {
        put_package(out, one)?;
    }
    out.end_array()
}

/// Writes a dependency as a package without a checksum. Fails when out of memory.
#[tactic(auto, unfolding(crate::specs::PackageJson::identity_json))]
pub fn put_dependency(out: &mut JsonWriter, dependency: &Dependency) -> Result<(), AllocError>
    ensures { Adds result out.old out.new (json_tokens (dependency_json dependency.now)) }
{
    begin_identity(
        out,
        &dependency.name,
        &dependency.version,
        &dependency.source,
    )?;
    put_origin(out, &dependency.source)?;
    out.null_member("checksum")?;
    out.end_object()
}

/// Begins an object, and writes a name, a version and the text of a source. Fails when out of memory.
pub fn begin_identity(
    out: &mut JsonWriter,
    name: &Name,
    version: &Version,
    source: &Option<SourceId>,
) -> Result<(), AllocError>
    ensures { Adds result out.old out.new (begin_object
        ∷ key (codes "name") ∷ string name.now
        ∷ key (codes "version") ∷ string (parts_text (parts_of version.now))
        ∷ key (codes "source")
        ∷ json_tokens (text_or_null (option_map (text_of true) source.now))) }
{
    out.begin_object()?;
    out.string_member("name", name.as_str())?;
    out.displayed_member("version", version)?;
    put_source(out, source)
}

// Writes the member with a source.
fn put_source(out: &mut JsonWriter, source: &Option<SourceId>) -> Result<(), AllocError>
    ensures { Adds result out.old out.new (key (codes "source")
        ∷ json_tokens (text_or_null (option_map (text_of true) source.now))) }
{
    match source {
        Some(source) => out.displayed_member("source", &source.as_url(true)),
        None => out.null_member("source"),
    }
}

/// Writes a member whose value is a digest, or null. Fails when out of memory.
pub fn put_digest_or_null(
    out: &mut JsonWriter,
    name: &str,
    digest: &Option<Checksum>,
) -> Result<(), AllocError>
    ensures { Adds result out.old out.new (key name.now
        ∷ json_tokens (text_or_null (option_map digest_text (option_map digest_of digest.now)))) }
{
    match digest {
        Some(digest) => out.displayed_member(name, digest),
        None => out.null_member(name),
    }
}
