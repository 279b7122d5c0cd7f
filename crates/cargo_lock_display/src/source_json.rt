//! Sources in JSON.

ghost use Rattle.std.specs.Prelude.{◌≡◌, ◌∷◌, codes, option_copied};
ghost use Rattle.url.specs.Parts.{serialize};
ghost use Rattle.json.specs.Token.{key};
ghost use Rattle.json.specs.Tree.{json_tokens};
ghost use Rattle.cargo_lock_parts.specs.SourceKey.{precise_if_git};
ghost use Rattle.cargo_lock_display.specs.SourceJson.{origin_json, origin_or_null, reference_json};
ghost use Rattle.cargo_lock_display.specs.SourceJson.{reference_or_null, source_kind_text};
ghost use Rattle.printing.specs.Json.{Adds};

use cargo_lock_parts::package::{GitReference, SourceId, SourceKind};
use printing::{JsonWriter, write_text_or_null};
use std::alloc::AllocError;

// The kind of a source.
fn kind(source: &SourceId) -> &'static str
    ensures { result.now ≡ source_kind_text source.now.kind }
{
    match source.kind() {
        SourceKind::Git(_) => "git",
        SourceKind::Path => "path",
        SourceKind::Registry => "registry",
        SourceKind::SparseRegistry => "sparse-registry",
        SourceKind::LocalRegistry => "local-registry",
        SourceKind::Directory => "directory",
    }
}

// The URL of a source.
fn url(source: &SourceId) -> &str
    ensures { result.now ≡ serialize source.now.url }
{
    source.url().as_str()
}

// The commit of a git source, if it names one.
fn precise(source: &SourceId) -> Option<&str>
    ensures { option_copied result ≡ precise_if_git source.now.kind source.now.precise }
{
    match source.kind() {
        SourceKind::Git(_) => source.precise(),
        _ => None,
    }
}

// Writes what a git source asks for.
#[tactic(auto, unfolding(crate::specs::SourceJson::reference_json))]
fn put_reference(out: &mut JsonWriter, kind: &str, value: &str) -> Result<(), AllocError>
    ensures { Adds result out.old out.new (json_tokens (reference_json kind.now value.now)) }
{
    out.begin_object()?;
    out.string_member("kind", kind)?;
    out.string_member("value", value)?;
    out.end_object()
}

// Writes what a source asks for, or null.
fn put_reference_or_null(out: &mut JsonWriter, source: &SourceId) -> Result<(), AllocError>
    ensures { Adds result out.old out.new (json_tokens (reference_or_null source.now.kind)) }
{
    match source.kind() {
        SourceKind::Git(GitReference::Tag(value)) => put_reference(out, "tag", value.as_str()),
        SourceKind::Git(GitReference::Branch(value)) => put_reference(
            out,
            "branch",
            value.as_str(),
        ),
        SourceKind::Git(GitReference::Rev(value)) => put_reference(out, "rev", value.as_str()),
        _ => out.null(),
    }
}

// Writes what a source is.
#[tactic(auto, unfolding(crate::specs::SourceJson::origin_json))]
fn put_source(out: &mut JsonWriter, source: &SourceId) -> Result<(), AllocError>
    ensures { Adds result out.old out.new (json_tokens (origin_json source.now)) }
{
    out.begin_object()?;
    out.string_member("kind", kind(source))?;
    out.string_member("url", url(source))?;
    out.key("reference")?;
    put_reference_or_null(out, source)?;
    write_text_or_null(out, "precise", precise(source))?;
    out.boolean_member("crates_io", source.is_default_registry())?;
    out.end_object()
}

/// Writes the member `origin`, whose value is what a source is, or null. Fails when out of memory.
///
/// ```
/// put_origin(out, &package.source)?;
/// ```
pub fn put_origin(out: &mut JsonWriter, source: &Option<SourceId>) -> Result<(), AllocError>
    ensures { Adds result out.old out.new
        (key (codes "origin") ∷ json_tokens (origin_or_null source.now)) }
{
    match source {
        Some(source) => {
            out.key("origin")?;
            put_source(out, source)
        }
        None => out.null_member("origin"),
    }
}
