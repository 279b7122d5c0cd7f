//! The values of the words of a lockfile, which are those of the table that its text is read as.
//!
//! They are read in the order in which `read_table.rt` reads those of a table, with the same
//! errors.

ghost use Rattle.std.specs.Prelude.{◌≡◌, IfOk, IsOkUnless, map, option_copied, option_map};
ghost use Rattle.cargo_lock_parts.specs.declared.error.Error.TheVariants.{Memory};
ghost use Rattle.std.specs.FinMap.{empty};
ghost use Rattle.cargo_lock_references.specs.Records.{texts_of};
ghost use Rattle.cargo_lock_lines.specs.TableOfWords.{words_table};
ghost use Rattle.cargo_lock_parts.specs.Checksum.{digest_in, digest_of};
ghost use Rattle.cargo_lock_parts.specs.Error.{Reads, ReadsUrls};
ghost use Rattle.cargo_lock_parts.specs.SourceReading.{source_of};
ghost use Rattle.cargo_lock_parts.specs.Optional.{map_all, map_some};
ghost use Rattle.cargo_lock_references.specs.Reference.{reference_of};
ghost use Rattle.cargo_lock_encoding.specs.TableReading.{encoded_at, put_all};
ghost use Rattle.cargo_lock_encoding.specs.WordsReading.{identity_from, package_from, values_from};

use crate::read_table::{mark_plain, put_text, reference_of};
use crate::values::EncodableLockfile;
use cargo_lock_lines::words::{IdentityWords, LockfileWords, PackageWords, PairWords};
use cargo_lock_parts::dependency::Dependency;
use cargo_lock_parts::error::Result;
use cargo_lock_parts::package::{Checksum, Name, SourceId};
use cargo_lock_parts::patch::Patch;
use cargo_lock_references::metadata::Metadata;
use cargo_lock_references::package_version::version_of;
use cargo_lock_references::read_sources::ReadSources;
use cargo_lock_references::{EncodableDependency, EncodablePackage};
use std::alloc::Global;

/// Reads the values of the words of a lockfile, which are those of the table of these words.
/// `Parse` says which word is refused: the first one that does not read, in the order in which the
/// values of a table are read. `Parse` also comes for a URL of 4 GB or more. The other error is
/// `Memory`.
pub fn encoded_from_words(alloc: Global, words: &LockfileWords<'_>) -> Result<EncodableLockfile>
    ensures { ReadsUrls (Unit {0}) (λ e. e) result (encoded_at (words_table words.now)) }
{
    values_from(alloc, words)
}

#[tactic(auto, unfolding(crate::specs::WordsReading::values_from))]
fn values_from(alloc: Global, words: &LockfileWords<'_>) -> Result<EncodableLockfile>
    ensures { ReadsUrls (Unit {0}) (λ e. e) result (values_from words.now) }
{
    let mut sources = ReadSources::new(alloc);
    let package = packages_from(alloc, &mut sources, words.packages.as_slice())?;
    let metadata = metadata_from(alloc, words.metadata.as_slice())?;
    let patch = patch_from(alloc, words.patches.as_slice())?;
    Ok(EncodableLockfile {
        version: words.number,
        package,
        root: None,
        metadata,
        patch,
    })
}

// The source of a word that may be absent.
fn source_from(
    alloc: Global,
    sources: &mut ReadSources,
    word: Option<&str>,
) -> Result<Option<SourceId>>
    ensures { ReadsUrls (Unit {0}) (λ o. o) result (map_some source_of (option_copied word.entry)) }
{
    match word {
        Some(word) => Ok(Some(sources.read(alloc, word)?)),
        None => Ok(None),
    }
}

// The checksum of a word that may be absent.
pub(crate) fn checksum_from(alloc: Global, word: Option<&str>) -> Result<Option<Checksum>>
    ensures { Reads (option_map digest_of) result (map_some digest_in (option_copied word.entry)) }
{
    match word {
        Some(word) => Ok(Some(Checksum::from_str(alloc, word)?)),
        None => Ok(None),
    }
}

// The reference of a word that may be absent.
fn replace_from(
    alloc: Global,
    sources: &mut ReadSources,
    word: Option<&str>,
) -> Result<Option<EncodableDependency>>
    ensures { ReadsUrls
        (Unit {0}) (λ o. o) result (map_some reference_of (option_copied word.entry)) }
{
    match word {
        Some(word) => Ok(Some(reference_of(alloc, sources, word)?)),
        None => Ok(None),
    }
}

fn references_from(
    alloc: Global,
    sources: &mut ReadSources,
    words: &[&str],
) -> Result<Vec<EncodableDependency>>
    ensures { ReadsUrls
        (Unit {0}) (λ v. v.items) result (map_all reference_of (map (λ w. w.now) words.now)) }
{
    let mut references = Vec::with_capacity(alloc, words.len())?;
    for word in words {
        let reference = reference_of(alloc, sources, word)?;
        references.push(reference)?;
    }
    Ok(references)
}

// The name, the version and the source.
#[tactic(auto, unfolding(crate::specs::WordsReading::identity_from))]
pub(crate) fn identity_from(
    alloc: Global,
    sources: &mut ReadSources,
    words: &IdentityWords<'_>,
) -> Result<Dependency>
    ensures { ReadsUrls (Unit {0}) (λ d. d) result (identity_from words.now) }
{
    let name = Name::from_str(alloc, words.name)?;
    let version = version_of(alloc, words.version)?;
    let source = source_from(alloc, sources, words.source)?;
    Ok(Dependency {
        name,
        version,
        source,
    })
}

#[tactic(auto, unfolding(crate::specs::WordsReading::package_from))]
fn package_from(
    alloc: Global,
    sources: &mut ReadSources,
    words: &PackageWords<'_>,
) -> Result<EncodablePackage>
    ensures { ReadsUrls (Unit {0}) (λ e. e) result (package_from words.now) }
{
    let Dependency {
        name,
        version,
        source,
    } = identity_from(alloc, sources, &words.identity)?;
    let checksum = checksum_from(alloc, words.checksum)?;
    let dependencies = references_from(alloc, sources, words.dependencies.as_slice())?;
    let replace = replace_from(alloc, sources, words.replace)?;
    Ok(EncodablePackage {
        name,
        version,
        source: mark_plain(source),
        checksum,
        dependencies,
        replace,
    })
}

fn packages_from(
    alloc: Global,
    sources: &mut ReadSources,
    words: &[PackageWords<'_>],
) -> Result<Vec<EncodablePackage>>
    ensures { ReadsUrls (Unit {0}) (λ v. v.items) result (map_all package_from words.now) }
{
    let mut packages = Vec::with_capacity(alloc, words.len())?;
    for package in words {
        let encoded = package_from(alloc, sources, package)?;
        packages.push(encoded)?;
    }
    Ok(packages)
}

// ---- metadata and patches

pub(crate) fn metadata_from(alloc: Global, words: &[PairWords<'_>]) -> Result<Metadata>
    ensures ok { IfOk result (λ m. texts_of m.entries ≡ put_all empty words.now) }
    ensures err { IsOkUnless result Memory }
{
    let mut metadata = Metadata::new(alloc);
    for pair in words {
        put_text(alloc, &mut metadata, pair.key, pair.value)?;
    }
    Ok(metadata)
}

pub(crate) fn patch_from(alloc: Global, words: &[IdentityWords<'_>]) -> Result<Patch>
    ensures { ReadsUrls (Unit {0}) (λ p. p) result (map_all identity_from words.now) }
{
    let mut sources = ReadSources::new(alloc);
    let unused = patches_from(alloc, &mut sources, words)?;
    Ok(Patch { unused })
}

fn patches_from(
    alloc: Global,
    sources: &mut ReadSources,
    words: &[IdentityWords<'_>],
) -> Result<Vec<Dependency>>
    ensures { ReadsUrls (Unit {0}) (λ v. v.items) result (map_all identity_from words.now) }
{
    let mut patches = Vec::with_capacity(alloc, words.len())?;
    for patch in words {
        let identity = identity_from(alloc, sources, patch)?;
        patches.push(identity)?;
    }
    Ok(patches)
}
