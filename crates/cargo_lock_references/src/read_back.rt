//! Which versions, sources and references read back from their texts.
//!
//! Each test writes the text and reads it, and takes the sources that were read before, so that no
//! text of a source is read twice. A URL of 4 GB or more is reported as out of memory.

ghost use Rattle.std.specs.Prelude.{◌≡◌, ◌↔◌, [], IfOk, IfSome, IsTrue, Some, map, option_map};
ghost use Rattle.semver.specs.Identifiers.{parts_of, parts_text};
ghost use Rattle.cargo_lock_parts.specs.Identity.{identity_of};
ghost use Rattle.cargo_lock_parts.specs.SourceKey.{key_of};
ghost use Rattle.cargo_lock_parts.specs.SourceReading.{source_of};
ghost use Rattle.cargo_lock_parts.specs.SourceText.{marked_text};
ghost use Rattle.cargo_lock_references.specs.ReadBack.{WordsReadBack, ReferenceSurvives};
ghost use Rattle.cargo_lock_references.specs.ReadBack.{ResolvesToEqual, SourceSurvives};
ghost use Rattle.cargo_lock_references.specs.ReadBack.{SourceTextReadsBack, VersionSurvives};
ghost use Rattle.cargo_lock_references.specs.Reference.{version_of};
ghost use Rattle.cargo_lock_references.specs.Words.{IsDense, IsWord};

use crate::EncodableDependencyRef;
use crate::borrowed::written_source;
use crate::index::Indexed;
use crate::package_version::{same_version, version_of};
use crate::read_sources::ReadSources;
use crate::resolution::dependency_among;
use cargo_lock_parts::dependency::Dependency;
use cargo_lock_parts::error::Error;
use cargo_lock_parts::package::source::SourceIdAsUrl;
use cargo_lock_parts::package::{Package, SourceId, Version};
use std::alloc::{AllocError, Global};

// ---- texts without white space

fn is_dense(text: &str) -> bool
    ensures { IsTrue result ↔ IsDense text.now }
{
    for c in text.chars() {
        if c.is_whitespace() {
            return false;
        }
    }
    true
}

// Whether the text has no white space and is not empty.
fn is_word(text: &str) -> bool
    ensures { IsTrue result ↔ IsWord text.now }
{
    !text.is_empty() && is_dense(text)
}

// ---- versions

/// Whether the version reads back from its text. Fails when out of memory.
pub fn version_survives(alloc: Global, version: &Version) -> Result<bool, AllocError>
    ensures { IfOk result (λ b. IsTrue b ↔ VersionSurvives (parts_of version.now)) }
{
    let text = version.to_string(alloc)?;
    version_reads_as(alloc, text.as_str(), version)
}

// Whether the text reads as this version.
fn version_reads_as(alloc: Global, text: &str, version: &Version) -> Result<bool, AllocError>
    ensures { IfOk result (λ b. IsTrue b ↔ (version_of text.now ≡ Some (parts_of version.now))) }
{
    match version_of(alloc, text) {
        Ok(read) => Ok(same_version(&read, version)),
        Err(Error::Memory) => Err(AllocError),
        Err(_) => Ok(false),
    }
}

// Whether the version is written without white space and reads back.
fn version_word_survives(alloc: Global, version: &Version) -> Result<bool, AllocError>
    ensures { IfOk result (λ b. IsTrue b
        ↔ (IsWord (parts_text (parts_of version.now)) × VersionSurvives (parts_of version.now))) }
{
    let text = version.to_string(alloc)?;
    Ok(is_word(text.as_str()) && version_reads_as(alloc, text.as_str(), version)?)
}

// ---- sources

/// Whether a source is absent, or is written and reads back, escaped or plain. Fails when out of
/// memory; a URL of 4 GB or more fails in this way too.
pub fn source_survives(
    alloc: Global,
    sources: &mut ReadSources,
    escaped: bool,
    source: &Option<SourceId>,
) -> Result<bool, AllocError>
    ensures { IfOk result (λ b. IsTrue b ↔ IfSome source.now (SourceSurvives escaped)) }
{
    match written_source(escaped, source) {
        Some(written) => text_reads_back(alloc, sources, &written),
        None => Ok(source.is_none()),
    }
}

// Whether the text of the source, by its mark, reads as an equal source.
fn text_reads_back(
    alloc: Global,
    sources: &mut ReadSources,
    source: &SourceIdAsUrl<'_>,
) -> Result<bool, AllocError>
    ensures { IfOk result (λ b. IsTrue b ↔ SourceTextReadsBack source.now) }
{
    let text = source.to_string(alloc)?;
    source_reads_as(alloc, sources, text.as_str(), source.source())
}

// Whether the text reads as a source that is equal to this one.
fn source_reads_as(
    alloc: Global,
    sources: &mut ReadSources,
    text: &str,
    source: &SourceId,
) -> Result<bool, AllocError>
    ensures { IfOk result
        (λ b. IsTrue b ↔ (option_map key_of (source_of text.now) ≡ Some (key_of source.now))) }
{
    match sources.read(alloc, text) {
        Ok(read) => Ok(read == *source),
        Err(Error::Memory) => Err(AllocError),
        Err(fault) if fault.is_too_long() => Err(AllocError),
        Err(_) => Ok(false),
    }
}

// Whether the source is written without white space and reads back.
fn source_word_survives(
    alloc: Global,
    sources: &mut ReadSources,
    source: &SourceIdAsUrl<'_>,
) -> Result<bool, AllocError>
    ensures { IfOk result
        (λ b. IsTrue b ↔ (IsDense (marked_text source.now) × SourceTextReadsBack source.now)) }
{
    let text = source.to_string(alloc)?;
    Ok(is_dense(text.as_str()) && source_reads_as(alloc, sources, text.as_str(), source.source())?)
}

// ---- references

/// Whether a reference reads back, and resolves to this dependency among these packages. Fails when
/// out of memory; a URL of 4 GB or more fails in this way too.
pub fn reference_survives<'a>(
    alloc: Global,
    sources: &mut ReadSources,
    reference: &EncodableDependencyRef<'a>,
    list: &Indexed<'a, Package>,
    dependency: &Dependency,
) -> Result<bool, AllocError>
    ensures { IfOk result
        (λ b. IsTrue b
        ↔ ReferenceSurvives reference.now (map identity_of list.now) dependency.now) }
{
    Ok(
        words_read_back(alloc, sources, reference)?
            && resolves_to_equal(reference, list, dependency)?,
    )
}

/// Whether a reference reads back, and resolves to this dependency without any packages. Fails when
/// out of memory; a URL of 4 GB or more fails in this way too.
pub fn reference_survives_alone(
    alloc: Global,
    sources: &mut ReadSources,
    reference: &EncodableDependencyRef<'_>,
    dependency: &Dependency,
) -> Result<bool, AllocError>
    ensures { IfOk result (λ b. IsTrue b ↔ ReferenceSurvives reference.now [] dependency.now) }
{
    let empty = Indexed::empty(alloc);
    let survives = reference_survives(alloc, sources, reference, &empty, dependency)?;
    Ok(survives)
}

// Whether each part of the reference is written without white space and reads back.
fn words_read_back(
    alloc: Global,
    sources: &mut ReadSources,
    reference: &EncodableDependencyRef<'_>,
) -> Result<bool, AllocError>
    ensures { IfOk result (λ b. IsTrue b ↔ WordsReadBack reference.now) }
{
    Ok(
        is_word(reference.name.as_str())
            && written_version_survives(alloc, reference.version)?
            && written_source_survives(alloc, sources, &reference.source)?,
    )
}

fn written_version_survives(alloc: Global, version: Option<&Version>) -> Result<bool, AllocError>
    ensures { IfOk result (λ b. IsTrue b
        ↔ IfSome (option_map (λ v. parts_of v.now) version.entry)
        (λ v. IsWord (parts_text v) × VersionSurvives v)) }
{
    match version {
        Some(version) => version_word_survives(alloc, version),
        None => Ok(true),
    }
}

fn written_source_survives(
    alloc: Global,
    sources: &mut ReadSources,
    source: &Option<SourceIdAsUrl<'_>>,
) -> Result<bool, AllocError>
    ensures { IfOk result (λ b. IsTrue b
        ↔ IfSome source.now (λ m. IsDense (marked_text m) × SourceTextReadsBack m)) }
{
    match source {
        Some(source) => source_word_survives(alloc, sources, source),
        None => Ok(true),
    }
}

// Whether the reference resolves to a dependency that is equal to this one.
fn resolves_to_equal<'a>(
    reference: &EncodableDependencyRef<'a>,
    list: &Indexed<'a, Package>,
    dependency: &Dependency,
) -> Result<bool, AllocError>
    ensures { IfOk result
        (λ b. IsTrue b ↔ ResolvesToEqual reference.now (map identity_of list.now) dependency.now) }
{
    match dependency_among(reference, list)? {
        Some(found) => Ok(found == *dependency),
        None => Ok(false),
    }
}
