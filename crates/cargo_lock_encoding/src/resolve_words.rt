//! The packages of the words of a lockfile, with each reference resolved as it is read, so that no
//! references are kept.

ghost use Rattle.std.specs.Prelude.{◌≡◌, ◌≢◌, [], Some, IfOk, IfSome, IsOkUnless, map, option_copied};
ghost use Rattle.cargo_lock_lines.specs.TableOfWords.{words_table};
ghost use Rattle.cargo_lock_parts.specs.declared.error.Error.TheVariants.{Memory};
ghost use Rattle.cargo_lock_parts.specs.Identity.{identity_of};
ghost use Rattle.cargo_lock_references.specs.declared.version.ResolveVersion.TheVariants.{V1};
ghost use Rattle.cargo_lock_references.specs.Format.{format_by};
ghost use Rattle.cargo_lock_parts.specs.Optional.{map_all, map_some};
ghost use Rattle.cargo_lock_references.specs.Records.{texts_of};
ghost use Rattle.std.specs.FinMap.{empty};
ghost use Rattle.cargo_lock_encoding.specs.Meaning.{meaning};
ghost use Rattle.cargo_lock_encoding.specs.TableReading.{put_all};
ghost use Rattle.cargo_lock_encoding.specs.ResolvedWords.{bare_package, each_with, meant_by};
ghost use Rattle.cargo_lock_encoding.specs.ResolvedWords.{resolved_packages, resolved_word};
ghost use Rattle.cargo_lock_encoding.specs.ResolvedWords.{resolved_words};

use crate::read_table::reference_of;
use crate::read_words::{checksum_from, identity_from, metadata_from, patch_from};
use cargo_lock_lines::words::{LockfileWords, PackageWords};
use cargo_lock_parts::dependency::Dependency;
use cargo_lock_parts::error::{Error, Result};
use cargo_lock_parts::package::Package;
use cargo_lock_parts::patch::Patch;
use cargo_lock_references::ResolveVersion;
use cargo_lock_references::index::Indexed;
use cargo_lock_references::metadata::Metadata;
use cargo_lock_references::read_sources::ReadSources;
use cargo_lock_references::resolution::into_dependency;
use cargo_lock_references::version::format_of_values;
use std::alloc::Global;
use std::marker::Model;

/// What the words of a lockfile mean: the parts of the lockfile, which has no root.
#[derive(Debug, Drop)]
pub struct ResolvedWords {
    /// The format.
    pub version: ResolveVersion,

    /// The packages, with each reference resolved.
    pub packages: Vec<Package>,

    /// The metadata.
    pub metadata: Metadata,

    /// The patches that no package uses.
    pub patch: Patch,
}

impl Model for ResolvedWords {
    ghost use Rattle.std.specs.Prelude.{None};
    ghost use Rattle.std.specs.Coded.{codes};
    ghost use Rattle.cargo_lock_references.specs.Records.{texts_code, texts_of};
    ghost use Rattle.cargo_lock_encoding.specs.Lockfiles.{LockfileData};

    ghost Value = { LockfileData };

    ghost coded = { Prim.hlevel (codes, texts_code) };

    ghost view = { λ r. record {
      version = r.version;
      packages = r.packages.items;
      root = None;
      metadata = texts_of r.metadata.entries;
      patch = r.patch;
    } };
}

/// What the words of a lockfile mean, if that is found without the values of its table. `None` says
/// nothing of the words: it comes for words that mean no lockfile, in V1, and without a number where
/// there is metadata.
///
/// # Errors
///
/// `Memory` alone.
pub fn resolved_words(alloc: Global, words: &LockfileWords<'_>) -> Result<Option<ResolvedWords>>
    ensures found { IfOk result
        (λ found. IfSome found (λ l. meaning (words_table words.now) ≡ Some l)) }
    ensures err { IsOkUnless result Memory }
{
    match found_in(alloc, words) {
        Ok(found) => Ok(found),
        Err(Error::Memory) => Err(Error::Memory),
        Err(_) => Ok(None),
    }
}

// What the words mean. Any error but `Memory` says nothing of them, as `None` does. Words without a
// number that have metadata are mostly those of V1, whose metadata is then read once.
fn found_in(alloc: Global, words: &LockfileWords<'_>) -> Result<Option<ResolvedWords>>
    ensures { IfOk result (λ found. IfSome found (λ l. meant_by words.now ≡ Some l)) }
{
    if words.number.is_none() && !words.metadata.is_empty() {
        return Ok(None);
    }
    let metadata = metadata_from(alloc, words.metadata.as_slice())?;
    match format_of_values(alloc, words.number, &[], &metadata)? {
        ResolveVersion::V1 => Ok(None),
        version => Ok(Some(found_with(alloc, words, version, metadata)?)),
    }
}

// What the words mean in this format, which is not V1, with their metadata.
fn found_with(
    alloc: Global,
    words: &LockfileWords<'_>,
    version: ResolveVersion,
    metadata: Metadata,
) -> Result<ResolvedWords>
    ensures { version ≢ V1
        → texts_of metadata.entries ≡ put_all empty words.now.metadata
        → format_by words.now.number [] (texts_of metadata.entries) ≡ Some version
        → IfOk result (λ found. meant_by words.now ≡ Some found) }
{
    let packages = resolved_packages(alloc, words.packages.as_slice())?;
    let patch = patch_from(alloc, words.patches.as_slice())?;
    Ok(ResolvedWords {
        version,
        packages,
        metadata,
        patch,
    })
}

#[tactic(auto, unfolding(crate::specs::ResolvedWords::resolved_packages))]
fn resolved_packages(alloc: Global, words: &[PackageWords<'_>]) -> Result<Vec<Package>>
    ensures { IfOk result (λ v. resolved_packages words.now ≡ Some v.items) }
{
    let mut sources = ReadSources::new(alloc);
    let mut packages = bare_packages(alloc, &mut sources, words)?;
    let lists = lists_among(alloc, &mut sources, words, packages.as_slice())?;
    put_dependencies(&mut packages, lists);
    Ok(packages)
}

// ---- packages without their dependencies

fn bare_packages(
    alloc: Global,
    sources: &mut ReadSources,
    words: &[PackageWords<'_>],
) -> Result<Vec<Package>>
    ensures { IfOk result (λ v. map_all bare_package words.now ≡ Some v.items) }
{
    let mut packages = Vec::with_capacity(alloc, words.len())?;
    for package in words {
        let bare = bare_package(alloc, sources, package)?;
        packages.push(bare)?;
    }
    Ok(packages)
}

#[tactic(auto, unfolding(crate::specs::ResolvedWords::bare_package))]
fn bare_package(
    alloc: Global,
    sources: &mut ReadSources,
    words: &PackageWords<'_>,
) -> Result<Package>
    ensures { IfOk result (λ p. bare_package words.now ≡ Some p) }
{
    let Dependency {
        name,
        version,
        source,
    } = identity_from(alloc, sources, &words.identity)?;
    let checksum = checksum_from(alloc, words.checksum)?;
    let replace = replacement(alloc, sources, words.replace)?;
    Ok(Package {
        name,
        version,
        source,
        checksum,
        dependencies: Vec::new(alloc),
        replace,
    })
}

// What the word of a replacement resolves to, which is in full.
fn replacement(
    alloc: Global,
    sources: &mut ReadSources,
    word: Option<&str>,
) -> Result<Option<Dependency>>
    ensures { IfOk result (λ o. map_some (resolved_word []) (option_copied word.entry) ≡ Some o) }
{
    match word {
        Some(word) => Ok(Some(resolved_word(alloc, sources, word, &Indexed::empty(alloc))?)),
        None => Ok(None),
    }
}

// ---- dependencies

// What the words of each package's dependencies resolve to among these packages.
fn lists_among(
    alloc: Global,
    sources: &mut ReadSources,
    words: &[PackageWords<'_>],
    packages: &[Package],
) -> Result<Vec<Vec<Dependency>>>
    ensures { IfOk result (λ v. map_all (resolved_words (map identity_of packages.now)) words.now
        ≡ Some (map (λ list. list.items) v.items)) }
{
    let list = Indexed::of(alloc, packages)?;
    each_list(alloc, sources, words, &list)
}

fn each_list(
    alloc: Global,
    sources: &mut ReadSources,
    words: &[PackageWords<'_>],
    list: &Indexed<'_, Package>,
) -> Result<Vec<Vec<Dependency>>>
    ensures { IfOk result (λ v. map_all (resolved_words (map identity_of list.now)) words.now
        ≡ Some (map (λ list. list.items) v.items)) }
{
    let mut lists = Vec::with_capacity(alloc, words.len())?;
    for package in words {
        let found = resolved_list(alloc, sources, package.dependencies.as_slice(), list)?;
        lists.push(found)?;
    }
    Ok(lists)
}

fn resolved_list(
    alloc: Global,
    sources: &mut ReadSources,
    words: &[&str],
    list: &Indexed<'_, Package>,
) -> Result<Vec<Dependency>>
    ensures { IfOk result (λ v. map_all (resolved_word (map identity_of list.now))
        (map (λ w. w.now) words.now) ≡ Some v.items) }
{
    let mut dependencies = Vec::with_capacity(alloc, words.len())?;
    for word in words {
        let dependency = resolved_word(alloc, sources, word, list)?;
        dependencies.push(dependency)?;
    }
    Ok(dependencies)
}

#[tactic(auto, unfolding(crate::specs::ResolvedWords::resolved_word))]
fn resolved_word(
    alloc: Global,
    sources: &mut ReadSources,
    word: &str,
    list: &Indexed<'_, Package>,
) -> Result<Dependency>
    ensures { IfOk result (λ d. resolved_word (map identity_of list.now) word.now ≡ Some d) }
{
    let reference = reference_of(alloc, sources, word)?;
    match into_dependency(reference, list)? {
        Some(found) => Ok(found),
        None => Err(Error::Parse(String::new(alloc))),
    }
}

// Puts each list of dependencies into its package.
fn put_dependencies(packages: &mut [Package], lists: Vec<Vec<Dependency>>)
    ensures { packages.new ≡ each_with (map (λ list. list.items) lists.items) packages.old }
{
    let mut lists = lists.into_iter();
    for package in packages.iter_mut() {
        if let Some(list) = lists.next() {
            package.dependencies = list;
        }
    }
}
